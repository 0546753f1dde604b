//! The picture of a plane of colours.

ghost use Rattle.std.specs.Prelude.{◌≡◌, IfOk};
ghost use Rattle.dri_replay.specs.Pictures.{IsPictureOf};

use dri_base::{OutOfMemory, Rgb, Sequence};
use dri_meaning::{Picture, Pixels};
use dri_plane::Plane;
use std::alloc::Global;

/// A plane's picture: its sides, and its colours once more.
pub fn picture_of(alloc: Global, plane: &Plane<Rgb>) -> Result<Picture, OutOfMemory>
    ensures { IfOk result (IsPictureOf plane.now) }
{
    let pixels = copied(alloc, plane.pixels())?;
    Ok(Picture {
        width: plane.width(),
        height: plane.height(),
        pixels,
    })
}

// The same colours once more.
fn copied(alloc: Global, colours: &[Rgb]) -> Result<Pixels, OutOfMemory>
    ensures { IfOk result (λ pixels. pixels ≡ colours.now) }
{
    let mut pixels = Sequence::new(alloc);
    for colour in colours {
        pixels.push(*colour)?;
    }
    Ok(pixels)
}
