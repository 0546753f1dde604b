//! Pictures of two pixels, as a plane and as a list of pixels.

use dri_base::{Bytes, Rgb, Sequence};
use dri_io::{CallList, MemorySink};
use dri_meaning::Picture;
use dri_plane::Plane;
use dri_ppm::{picture_bytes, ppm_bytes, write_ppm};
use std::alloc::Global;
use std::test::Fail;

const DARK: Rgb = Rgb { r: 1, g: 2, b: 3 };

const LIGHT: Rgb = Rgb {
    r: 254,
    g: 255,
    b: 10,
};

/// A dark column, and a row of both.
const COLUMN: &[u8] = b"P6\n1 2\n255\n\x01\x02\x03\x01\x02\x03";

const ROW: &[u8] = b"P6\n2 1\n255\n\x01\x02\x03\xfe\xff\x0a";

fn column(alloc: Global) -> Result<Bytes, Fail> {
    let plane = Plane::new(alloc, 1, 2, DARK)?;
    Ok(ppm_bytes(alloc, &plane)?)
}

fn row(alloc: Global) -> Result<Bytes, Fail> {
    let mut pixels = Sequence::new(alloc);
    pixels.push(DARK)?;
    pixels.push(LIGHT)?;
    let picture = Picture {
        width: 2,
        height: 1,
        pixels,
    };
    Ok(picture_bytes(alloc, &picture)?)
}

#[test]
fn bytes(rt: HostRuntime) -> Result<(), Fail> {
    let dark = column(rt.alloc())?;
    assert!(rt; dark.as_slice() == COLUMN);
    let both = row(rt.alloc())?;
    assert!(rt; both.as_slice() == ROW);
    Ok(())
}

#[test]
fn written(rt: HostRuntime) -> Result<(), Fail> {
    let plane = Plane::new(rt.alloc(), 1, 2, DARK)?;
    let mut sink = MemorySink::new(rt.alloc(), 17, 4, CallList::new(rt.alloc()))?;
    assert!(rt; write_ppm(&plane, &mut sink).is_ok() && sink.bytes() == COLUMN);
    Ok(())
}
