//! Colours in sixteen bits.

ghost use Rattle.std.specs.Prelude.{◌≡◌};
ghost use Rattle.dri_card16.specs.Packing.{KeptIsKept, PackedByShifts, WordsComeBack, pack};

use dri_base::Rgb;

/// The word of a colour: red in bits 15 to 11, green in bits 10 to 5, blue in bits 4 to 0.
#[inline(always)]
pub fn pack(colour: Rgb) -> u16
    ensures { result ≡ pack colour }
{
    u16::from(colour.r / 8) * 2048 + u16::from(colour.g / 4) * 32 + u16::from(colour.b / 8)
}

/// A colour of three bytes is packed by leaving out the lowest bits of its channels. A word that is widened and packed again is as
/// it was, so what is kept of a colour is kept for good.
pub fn words()
    ensures shifts { PackedByShifts }
    ensures back { WordsComeBack }
    ensures twice { KeptIsKept }
{}
