//! A frame drawn alone, whole: the list of its pixels, row by row. The frame is found once, and its triangles are drawn by the
//! card's own walk.

ghost use Rattle.std.specs.Prelude.{◌≡◌, ◌↔◌, Err, IfOk, None, Some, map, pos, ℤ};
ghost use Rattle.dri_base.specs.Planes.{plane};
ghost use Rattle.dri_base.specs.Ranges.{IsSide};
ghost use Rattle.dri_meaning.specs.Scripts.{ScriptInRange};
ghost use Rattle.dri_core.specs.Solo.{solo_frame};
ghost use Rattle.dri_meaning.specs.declared.picture.SoloFault.TheVariants.{NoFrame};

use crate::canvas::colours;
use crate::frame::frame_of;
use dri_base::{ClientScript, OutOfMemory, Rgb, Sequence};
use std::alloc::Global;

/// Colours, row by row.
pub type Pixels = Sequence<Rgb>;

/// A picture: its sides, and its pixels row by row.
#[derive(Drop)]
pub struct Picture {
    pub width: u32,
    pub height: u32,
    pub pixels: Pixels,
}

/// Why a frame wasn't drawn.
#[derive(Clone, Copy, Debug, PartialEq, Eq)]
pub enum SoloFault {
    /// The frame doesn't exist, or doesn't begin with a clear.
    NoFrame,
    /// A growth of memory was refused.
    OutOfMemory,
}

impl From<OutOfMemory> for SoloFault {
    ghost use Rattle.dri_meaning.specs.declared.picture.SoloFault.TheVariants as faults;

    ghost from_gives = { λ _ e. e ≡ faults.OutOfMemory };

    fn from(_error: OutOfMemory) -> SoloFault {
        SoloFault::OutOfMemory
    }
}

/// Frame `frame` drawn alone in a window of these sides, each 1 to 1,024. It is refused with `NoFrame` exactly where the
/// frame doesn't exist or doesn't begin with a clear. The script is a client's of a scene in range.
pub fn solo_picture(
    alloc: Global,
    script: &ClientScript,
    frame: u32,
    width: u32,
    height: u32,
) -> Result<Picture, SoloFault>
    requires script { ScriptInRange script.now }
    requires width { IsSide width }
    requires height { IsSide height }
    ensures width { IfOk result (λ picture. picture.width ≡ width) }
    ensures height { IfOk result (λ picture. picture.height ≡ height) }
    ensures pixels { IfOk result (λ picture. map Some picture.pixels ≡ plane width height (λ x y. solo_frame script.now frame (pos x) (pos y))) }
    ensures no_frame { (x y : ℤ) → (result ≡ Err NoFrame) ↔ (solo_frame script.now frame x y ≡ None) }
{
    let Some(frame) = frame_of(script.commands.as_slice(), frame) else {
        return Err(SoloFault::NoFrame);
    };
    let pixels = colours(alloc, script, frame, width, height)?;
    Ok(Picture {
        width,
        height,
        pixels,
    })
}
