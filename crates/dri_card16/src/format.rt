//! How a place of the card's planes keeps a colour: as its word of sixteen bits.

use crate::packing::pack;
use dri_base::Rgb;
use dri_plane::ColourFormat;
use dri_texel::sixteen_bits;

/// Red in bits 15 to 11, green in bits 10 to 5, blue in bits 4 to 0. A place shows its word, widened as a texel of sixteen bits is.
pub struct FiveSixFive;

impl ColourFormat for FiveSixFive {
    ghost use Rattle.std.specs.Prelude.{map, refl};
    ghost use Rattle.dri_base.specs.Texels.{sixteen_bits};
    ghost use Rattle.dri_card16.specs.Packing.{pack};

    type Kept = u16;

    ghost shown = { sixteen_bits };

    ghost kept = { pack };

    ghost all_shown = { λ words. map sixteen_bits words };

    ghost each_shown = { λ words. refl };

    #[inline(always)]
    fn shown(place: u16) -> Rgb {
        sixteen_bits(place)
    }

    #[inline(always)]
    fn kept(colour: Rgb) -> u16 {
        pack(colour)
    }

    #[inline(always)]
    fn keep(place: &mut u16, colour: Rgb) {
        *place = pack(colour);
    }
}
