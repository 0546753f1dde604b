//! An image worked by hand, and images that go wrong.

ghost use Rattle.std.specs.Prelude.{◌≤◌, All, IsTrue};

use dri_base::Bytes;
use dri_sarea::{Drawable, Sarea, SareaFault, rows_follow_on};
use dri_texheap::Regions;
use std::alloc::Global;
use std::process::Abort;

/// Whether all flags are 0 or 1.
fn are_flags(drawables: &[Drawable]) -> bool
    ensures { IsTrue result → All (λ d. d.flags ≤ 1) drawables.now }
{
    drawables.iter().all(|drawable| drawable.flags <= 1)
}

/// Takes k regions.
fn allocate(rt: &impl Abort, regions: &mut Regions, k: u32) {
    assert!(rt; k >= 1);
    assert!(rt; regions.age() <= 4_294_967_000);
    assert!(rt; regions.allocate(k).is_ok());
}

/// A shared area whose numbers have different bytes. Its regions have, from the most recently used on: region 6 age 6,
/// regions 0 to 2 age 5, regions 3 to 5 age 3, and region 7, which is free, age 0.
fn example(rt: &impl Abort, alloc: Global) -> Sarea {
    let mut regions = Regions::new(8);
    for k in [1, 2, 3, 3, 1] {
        allocate(rt, &mut regions, k);
    }
    let mut drawables = [Drawable { stamp: 0, flags: 0 }; 256];
    drawables[1] = Drawable {
        stamp: 258,
        flags: 1,
    };
    let shown = drawables.as_slice();
    assert!(rt; shown.len() == 256);
    assert!(rt; are_flags(shown));
    let area = Sarea::new(
        alloc,
        0x0102_0304,
        shown,
        640,
        480,
        33,
        70_000,
        4096,
        &regions,
    );
    area.expect(rt, "memory")
}

/// Its image.
fn example_image(rt: &impl Abort, alloc: Global) -> Bytes {
    example(rt, alloc).to_bytes(alloc).expect(rt, "memory")
}

/// Expects these bytes of the image from a place on.
fn expect_part(rt: &impl Abort, image: &[u8], start: usize, part: &[u8]) {
    assert!(rt; start <= 4096 && part.len() <= 4096);
    assert!(rt; start + part.len() <= image.len());
    let here = &image[start..start + part.len()];
    assert!(rt; here == part);
}

/// Parts of the image, each with the place where it begins.
const PARTS: [(usize, &[u8]); 5] = [
    (0, &[4, 3, 2, 1, 0, 0, 0, 0]),
    (136, &[2, 1, 0, 0, 1, 0, 0, 0]),
    (2176, &[0, 0, 0, 0, 0, 0, 0, 0, 128, 2, 0, 0, 224, 1, 0, 0]),
    (
        2192,
        &[
            0, 0, 0, 0, 0, 0, 0, 0, 33, 0, 0, 0, 112, 17, 1, 0, 8, 0, 0, 0, 0, 16, 0, 0,
        ],
    ),
    (
        2216,
        &[
            1, 6, 1, 0, 5, 0, 0, 0, 2, 0, 1, 0, 5, 0, 0, 0, 3, 1, 1, 0, 5, 0, 0, 0, 4, 2, 1, 0, 3,
            0, 0, 0, 5, 3, 1, 0, 3, 0, 0, 0, 7, 4, 1, 0, 3, 0, 0, 0, 0, 8, 1, 0, 6, 0, 0, 0, 8, 5,
            0, 0, 0, 0, 0, 0, 6, 7, 0, 0, 0, 0, 0, 0, 0, 0, 0, 0,
        ],
    ),
];

#[test]
fn worked_image(rt: HostRuntime) {
    rows_follow_on();
    let image = example_image(&rt, rt.alloc());
    assert!(rt; image.len() == 8192);
    for (start, part) in &PARTS {
        expect_part(&rt, image.as_slice(), *start, part);
    }
}

/// What an area has of the example's numbers.
fn is_example(area: &Sarea) -> bool {
    let shown = area.drawable(1);
    area.word() == 0x0102_0304
        && (shown.stamp, shown.flags) == (258, 1)
        && (area.width(), area.height()) == (640, 480)
        && (area.owner(), area.age()) == (33, 70_000)
        && (area.region_count(), area.region_size()) == (8, 4096)
}

#[test]
fn there_and_back(rt: HostRuntime) {
    let image = example_image(&rt, rt.alloc());
    match Sarea::from_bytes(rt.alloc(), image.as_slice()) {
        Ok(area) => {
            assert!(rt; is_example(&area));
            expect_last(&rt, &area);
        }
        Err(_) => assert!(rt; false),
    }
}

/// The entry behind the example's eight regions leads to the one that was used last.
fn expect_last(rt: &impl Abort, area: &Sarea) {
    assert!(rt; area.region_count() == 8);
    assert!(rt; area.region(8).next == 6);
}

/// Where an image goes wrong with another byte at a place.
fn bad_at(rt: &impl Abort, alloc: Global, image: &[u8], at: usize, byte: u8) -> Option<u32> {
    let mut bytes = image.to_vec(alloc).expect(rt, "memory");
    assert!(rt; at < bytes.len());
    bytes[at] = byte;
    place_of(&Sarea::from_bytes(alloc, bytes.as_slice()).err())
}

/// The place of a fault.
fn place_of(fault: &Option<SareaFault>) -> Option<u32> {
    match fault {
        Some(SareaFault::Bad(bad)) => Some(bad.at),
        Some(SareaFault::OutOfMemory) => Some(9999),
        None => None,
    }
}

/// Places, another byte there, and where the image goes wrong then.
const BAD: [(usize, u8, Option<u32>); 18] = [
    (0, 255, None),
    (4, 1, Some(4)),
    (5, 255, Some(5)),
    (127, 1, Some(127)),
    (141, 1, Some(140)),
    (2185, 5, Some(2184)),
    (2196, 1, Some(2196)),
    (2200, 34, Some(2200)),
    (2208, 65, Some(2208)),
    (2212, 1, Some(2212)),
    (2216, 9, Some(2216)),
    (2218, 2, None),
    (2218, 3, Some(2218)),
    (2219, 1, Some(2219)),
    (2290, 1, Some(2290)),
    (2293, 1, Some(2293)),
    (2737, 1, Some(2737)),
    (8191, 1, Some(8191)),
];

#[test]
fn bad_images(rt: HostRuntime) {
    let image = example_image(&rt, rt.alloc());
    for (at, byte, bad) in &BAD {
        assert!(rt; bad_at(&rt, rt.alloc(), image.as_slice(), *at, *byte) == *bad);
    }
}
