//! Small regions by their rectangles: what each operation answers, and a move.

ghost use Rattle.std.specs.Prelude.{pos, ◌≡◌, ◌≤ℤ◌};
ghost use Rattle.dri_rect.specs.Pixels.{IsInRange};

use Operation::{Intersect, Subtract, Unite};
use dri_base::{OutOfMemory, Rect, Steps};
use dri_rect::Region;
use std::alloc::Global;
use std::marker::Brand;
use std::process::Abort;
use std::sync::ledger::{Blank, Ledger};
use std::test::Fail;

/// What is asked of two regions.
#[derive(Clone, Copy)]
enum Operation {
    Unite,
    Subtract,
    Intersect,
}

/// An operation, the two regions as rectangles (x1, y1, x2, y2), and the rectangles of the answer.
#[derive(Clone, Copy)]
struct Case(
    Operation,
    &'static [[u8; 4]],
    &'static [[u8; 4]],
    &'static [[u8; 4]],
);

const CASES: [Case; 22] = [
    Case(
        Subtract,
        &[[0, 0, 2, 2]],
        &[[1, 0, 2, 1]],
        &[[0, 0, 1, 1], [0, 1, 2, 2]],
    ),
    Case(
        Unite,
        &[[0, 0, 1, 1], [0, 1, 2, 2]],
        &[[1, 0, 2, 1]],
        &[[0, 0, 2, 2]],
    ),
    Case(Intersect, &[[0, 0, 2, 2]], &[[1, 1, 3, 3]], &[[1, 1, 2, 2]]),
    Case(Unite, &[], &[], &[]),
    Case(Unite, &[[0, 0, 2, 2]], &[], &[[0, 0, 2, 2]]),
    Case(Unite, &[], &[[0, 0, 2, 2]], &[[0, 0, 2, 2]]),
    Case(Subtract, &[], &[[0, 0, 2, 2]], &[]),
    Case(Subtract, &[[0, 0, 2, 2]], &[], &[[0, 0, 2, 2]]),
    Case(Intersect, &[[0, 0, 2, 2]], &[], &[]),
    Case(Unite, &[[0, 0, 2, 2]], &[[0, 0, 2, 2]], &[[0, 0, 2, 2]]),
    Case(Subtract, &[[0, 0, 2, 2]], &[[0, 0, 2, 2]], &[]),
    Case(Intersect, &[[0, 0, 2, 2]], &[[0, 0, 2, 2]], &[[0, 0, 2, 2]]),
    Case(
        Unite,
        &[[0, 0, 1, 1]],
        &[[1, 1, 2, 2]],
        &[[0, 0, 1, 1], [1, 1, 2, 2]],
    ),
    Case(Intersect, &[[0, 0, 1, 1]], &[[1, 1, 2, 2]], &[]),
    Case(Unite, &[[0, 0, 1, 1]], &[[1, 0, 2, 1]], &[[0, 0, 2, 1]]),
    Case(
        Unite,
        &[[0, 0, 1, 1]],
        &[[2, 0, 3, 1]],
        &[[0, 0, 1, 1], [2, 0, 3, 1]],
    ),
    Case(
        Unite,
        &[[0, 0, 2, 1], [0, 2, 2, 3]],
        &[[0, 1, 2, 2]],
        &[[0, 0, 2, 3]],
    ),
    Case(
        Subtract,
        &[[0, 0, 3, 3]],
        &[[1, 1, 2, 2]],
        &[[0, 0, 3, 1], [0, 1, 1, 2], [2, 1, 3, 2], [0, 2, 3, 3]],
    ),
    Case(
        Unite,
        &[[0, 0, 3, 1], [0, 1, 1, 2], [2, 1, 3, 2], [0, 2, 3, 3]],
        &[[1, 1, 2, 2]],
        &[[0, 0, 3, 3]],
    ),
    Case(
        Intersect,
        &[[0, 0, 1, 3], [2, 0, 3, 3]],
        &[[0, 1, 3, 2]],
        &[[0, 1, 1, 2], [2, 1, 3, 2]],
    ),
    Case(
        Unite,
        &[[0, 0, 2, 2]],
        &[[1, 1, 3, 3]],
        &[[0, 0, 2, 1], [0, 1, 3, 2], [1, 2, 3, 3]],
    ),
    Case(Unite, &[[1, 1, 1, 5]], &[[0, 0, 9, 0]], &[]),
];

fn rect(numbers: &[u8; 4]) -> Rect
    ensures range { IsInRange result }
    ensures left { pos 0 ≤ℤ result.x1 }
    ensures right { result.x2 ≤ℤ pos 255 }
{
    Rect {
        x1: i32::from(numbers[0]),
        y1: i32::from(numbers[1]),
        x2: i32::from(numbers[2]),
        y2: i32::from(numbers[3]),
    }
}

fn region<L: Ledger>(
    alloc: Global,
    rects: &[[u8; 4]],
    steps: &mut Steps<L>,
) -> Result<Region, OutOfMemory> {
    let mut all = Region::empty(alloc, steps);
    for numbers in rects {
        let one = Region::of_rect(alloc, &rect(numbers), steps)?;
        all = all.unite(alloc, &one, steps)?;
    }
    Ok(all)
}

fn has_rects(region: &Region, rects: &[[u8; 4]]) -> bool {
    if region.len() != rects.len() {
        return false;
    }
    for i in 0..rects.len() {
        if region.rect(i) != rect(&rects[i]) {
            return false;
        }
    }
    true
}

fn answer<L: Ledger>(
    alloc: Global,
    case: &Case,
    steps: &mut Steps<L>,
) -> Result<Region, OutOfMemory> {
    let first = region(alloc, case.1, steps)?;
    let second = region(alloc, case.2, steps)?;
    match case.0 {
        Unite => first.unite(alloc, &second, steps),
        Subtract => first.subtract(alloc, &second, steps),
        Intersect => first.intersect(alloc, &second, steps),
    }
}

fn each_case<L: Ledger, R: Abort>(rt: &R, alloc: Global, blank: Blank) -> Result<(), Fail>
    requires name { blank.name ≡ L.name }
    requires parts { blank.parts ≡ L.parts }
    requires one { L.parts ≡ 1 }
{
    let mut steps = Steps::<L>::new(blank);
    for case in &CASES {
        assert!(rt; has_rects(&answer(alloc, case, &mut steps)?, case.3));
    }
    Ok(())
}

#[test]
fn operations(rt: HostRuntime) -> Result<(), Fail> {
    each_case::<Brand, _>(&rt, rt.alloc(), Blank::new(1))
}

/// A rectangle's pixels, moved to the right by up to 255.
fn moved_right<L: Ledger>(
    alloc: Global,
    numbers: &[u8; 4],
    dx: u8,
    steps: &mut Steps<L>,
) -> Result<Region, OutOfMemory> {
    let place = rect(numbers);
    let region = Region::of_rect(alloc, &place, steps)?;
    region.translate(alloc, i32::from(dx), 0, steps)
}

/// Whether its pixels are those of columns 3 and 4 in two rows.
fn is_moved(region: &Region) -> bool {
    has_rects(region, &[[3, 0, 5, 2]]) && region.contains(3, 0) && !region.contains(5, 0)
}

fn move_one<L: Ledger, R: Abort>(rt: &R, alloc: Global, blank: Blank) -> Result<(), Fail>
    requires name { blank.name ≡ L.name }
    requires parts { blank.parts ≡ L.parts }
    requires one { L.parts ≡ 1 }
{
    let mut steps = Steps::<L>::new(blank);
    let moved = moved_right(alloc, &[0, 0, 2, 2], 3, &mut steps)?;
    let same = moved.copy(alloc, &mut steps)?;
    assert!(rt; is_moved(&moved) && is_moved(&same));
    same.canonical(&moved);
    same.arranged();
    Ok(())
}

#[test]
fn moves(rt: HostRuntime) -> Result<(), Fail> {
    move_one::<Brand, _>(&rt, rt.alloc(), Blank::new(1))
}
