//! A picture written to a sink, a row at a time. A row's bytes stand in a buffer of fixed size, so that it takes no memory.

ghost use Rattle.std.specs.Prelude.{◌≡◌, ◌*◌, ◌-◌, ◌≤◌, ℕ, length, take, IsOk, OnOk, OnErr};
ghost use Rattle.std.specs.Io.KnownBytes.{Appends};
ghost use Rattle.std.specs.List.{flat_map};
ghost use Rattle.dri_io.specs.Causes.{Rose};
ghost use Rattle.dri_ppm.specs.Ppm.{channels, ppm};

use crate::header::header_of;
use arrayvec::ArrayVec;
use dri_base::Rgb;
use dri_io::{Sink, WriteFault, write_all};
use dri_plane::Plane;

/// The bytes of a row: at most 1,024 pixels of three bytes.
type Row = ArrayVec<u8, 3072>;

/// The bytes of a row of pixels.
fn row_of(pixels: &[Rgb]) -> Row
    requires { length pixels.now ≤ 1024 }
    ensures { result.items ≡ flat_map channels pixels.now }
{
    let mut row = Row::new();
    for pixel in pixels {
        row.push(pixel.r);
        row.push(pixel.g);
        row.push(pixel.b);
    }
    row
}

/// Writes the P6 bytes of a plane, in order. At an `Err`, which comes only where the sink's count of faults rose in this
/// call, a prefix of them was taken. It is `Ok` for a sink that takes so many bytes without a fault. It takes no memory.
pub fn write_ppm<N: Sink>(plane: &Plane<Rgb>, sink: &mut N) -> Result<(), WriteFault>
    ensures ok { OnOk result (Appends (N.held sink.old) (N.held sink.new) (ppm plane.now.width plane.now.height plane.now.pixels)) }
    ensures front { OnErr result ((taken : ℕ) × (taken ≤ length (ppm plane.now.width plane.now.height plane.now.pixels))
        × Appends (N.held sink.old) (N.held sink.new) (take taken (ppm plane.now.width plane.now.height plane.now.pixels))) }
    ensures later { N.faults sink.old ≤ N.faults sink.new }
    ensures fault { OnErr result (Rose (N.faults sink.old) (N.faults sink.new)) }
    ensures room { (n : ℕ) → length (ppm plane.now.width plane.now.height plane.now.pixels) ≤ n → N.takes sink.old n
        → IsOk result × (N.faults sink.new ≡ N.faults sink.old) × N.takes sink.new (n - length (ppm plane.now.width plane.now.height plane.now.pixels)) }
{
    let columns = plane.width() as usize;
    let pixels = plane.pixels();
    let header = header_of(plane.width(), plane.height());
    write_all(sink, header.as_str().as_bytes())?;
    for y in 0..plane.height() as usize {
        let row = row_of(&pixels[y * columns..(y + 1) * columns]);
        write_all(sink, row.as_slice())?;
    }
    Ok(())
}
