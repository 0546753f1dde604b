//! A picture in the P6 form with a line of counts, as a replay gives it.

ghost use Rattle.std.specs.Prelude.{◌≡◌, ◌*◌, IfOk, length};
ghost use Rattle.dri_base.specs.Ranges.{IsSide};
ghost use Rattle.dri_ppm.specs.Ppm.{ppm};

use crate::report::{ReportLine, bytes_of};
use crate::writing::Output;
use dri_base::OutOfMemory;
use dri_meaning::Picture;
use dri_ppm::picture_bytes;
use std::alloc::Global;

/// The P6 bytes of a picture, and a line. Its sides are 1 to 1,024, and it has exactly width times height pixels.
pub fn pictured(alloc: Global, picture: &Picture, line: &ReportLine) -> Result<Output, OutOfMemory>
    requires width { IsSide picture.now.width }
    requires height { IsSide picture.now.height }
    requires pixels { length picture.now.pixels ≡ picture.now.width * picture.now.height }
    ensures picture { IfOk result (λ o. o.picture ≡ ppm picture.now.width picture.now.height picture.now.pixels) }
    ensures notes { IfOk result (λ o. o.notes ≡ line.now.bytes) }
{
    let picture = picture_bytes(alloc, picture)?;
    let notes = bytes_of(alloc, line)?;
    Ok(Output { picture, notes })
}
