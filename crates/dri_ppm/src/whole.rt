//! A picture as bytes. They stand in one buffer, made with one reservation.

ghost use Rattle.std.specs.Prelude.{◌≡◌, ◌++◌, ◌*◌, IfOk, OnOk, length};
ghost use Rattle.dri_base.specs.Ranges.{IsSide};
ghost use Rattle.dri_ppm.specs.Ppm.{channels, ppm};

use crate::header::header_of;
use dri_base::{Bytes, OutOfMemory, Rgb};
use dri_meaning::Picture;
use dri_plane::Plane;
use std::alloc::{AllocError, Global};

/// How many bytes a pixel takes: one a channel.
const CHANNELS: usize = 3;

/// Puts a pixel's three bytes last.
fn push_channels(bytes: &mut Vec<u8>, pixel: Rgb) -> Result<(), AllocError>
    ensures { OnOk result (bytes.new.items ≡ bytes.old.items ++ channels pixel) }
{
    bytes.extend_from_slice(&[pixel.r, pixel.g, pixel.b])
}

/// The P6 bytes of a picture of these sides, its pixels row by row.
fn p6(alloc: Global, width: u32, height: u32, pixels: &[Rgb]) -> Result<Bytes, OutOfMemory>
    ensures { IfOk result (λ b. b ≡ ppm width height pixels.now) }
{
    let header = header_of(width, height);
    let mut bytes = Vec::with_capacity(alloc, header.len() + CHANNELS * pixels.len())?;
    bytes.extend_from_slice(header.as_str().as_bytes())?;
    for pixel in pixels {
        push_channels(&mut bytes, *pixel)?;
    }
    Ok(Bytes::from_vec(bytes))
}

/// The P6 bytes of a plane.
pub fn ppm_bytes(alloc: Global, plane: &Plane<Rgb>) -> Result<Bytes, OutOfMemory>
    ensures { IfOk result (λ b. b ≡ ppm plane.now.width plane.now.height plane.now.pixels) }
{
    p6(alloc, plane.width(), plane.height(), plane.pixels())
}

/// The P6 bytes of a picture. Its sides are 1 to 1,024, and it has exactly width times height pixels.
pub fn picture_bytes(alloc: Global, picture: &Picture) -> Result<Bytes, OutOfMemory>
    requires width { IsSide picture.now.width }
    requires height { IsSide picture.now.height }
    requires pixels { length picture.now.pixels ≡ picture.now.width * picture.now.height }
    ensures { IfOk result (λ b. b ≡ ppm picture.now.width picture.now.height picture.now.pixels) }
{
    p6(
        alloc,
        picture.width,
        picture.height,
        picture.pixels.as_slice(),
    )
}
