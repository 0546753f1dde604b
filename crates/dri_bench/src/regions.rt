//! A set operation on two regions, again and again: on two grids of rectangles, or on a grid and the rectangle in its middle.

ghost use Rattle.std.specs.Prelude.{◌≡◌, ◌≤◌};
ghost use Rattle.dri_rect.specs.Pixels.{IsInRange};

use dri_base::{OutOfMemory, Rect, Steps};
use dri_rect::Region;
use std::alloc::Global;
use std::marker::Brand;
use std::sync::ledger::{Blank, Ledger};

/// From one rectangle of a grid to the next.
const PITCH: i32 = 8;

/// The side of a rectangle of a grid.
const SIDE: i32 = 4;

/// How far the second grid is shifted.
const SHIFT: u8 = 2;

/// What is made of two regions.
#[derive(Clone, Copy, Drop)]
pub enum Operation {
    Unite,
    Subtract,
    Intersect,
}

/// The rows and columns of a grid.
#[derive(Clone, Copy, Drop)]
struct Sides {
    rows: u8,
    columns: u8,
}

/// The sides of a grid of so many rectangles: 1, 10, 100 or 1,000.
fn sides_of(count: u32) -> Option<Sides> {
    match count {
        1 => Some(Sides {
            rows: 1,
            columns: 1,
        }),
        10 => Some(Sides {
            rows: 2,
            columns: 5,
        }),
        100 => Some(Sides {
            rows: 10,
            columns: 10,
        }),
        1000 => Some(Sides {
            rows: 25,
            columns: 40,
        }),
        _ => None,
    }
}

/// A rectangle of a grid.
fn cell(row: u8, column: u8, shift: u8) -> Rect
    requires { shift ≤ 2 }
    ensures { IsInRange result }
{
    let x1 = i32::from(column) * PITCH + i32::from(shift);
    let y1 = i32::from(row) * PITCH + i32::from(shift);
    Rect {
        x1,
        y1,
        x2: x1 + SIDE,
        y2: y1 + SIDE,
    }
}

/// The region with the rectangles of one more row.
fn with_row<L: Ledger>(
    alloc: Global,
    above: Region,
    row: u8,
    columns: u8,
    shift: u8,
    steps: &mut Steps<L>,
) -> Result<Region, OutOfMemory>
    requires { shift ≤ 2 }
{
    let mut all = above;
    for column in 0..columns {
        let one = Region::of_rect(alloc, &cell(row, column, shift), steps)?;
        all = all.unite(alloc, &one, steps)?;
    }
    Ok(all)
}

/// A grid.
fn grid<L: Ledger>(
    alloc: Global,
    sides: Sides,
    shift: u8,
    steps: &mut Steps<L>,
) -> Result<Region, OutOfMemory>
    requires { shift ≤ 2 }
{
    let mut all = Region::empty(alloc, steps);
    for row in 0..sides.rows {
        all = with_row(alloc, all, row, sides.columns, shift, steps)?;
    }
    Ok(all)
}

/// The rectangle in the middle of a grid.
fn middle<L: Ledger>(
    alloc: Global,
    sides: Sides,
    steps: &mut Steps<L>,
) -> Result<Region, OutOfMemory> {
    let quarter_x = i32::from(sides.columns) * PITCH / 4;
    let quarter_y = i32::from(sides.rows) * PITCH / 4;
    let rect = Rect {
        x1: quarter_x,
        y1: quarter_y,
        x2: quarter_x * 3,
        y2: quarter_y * 3,
    };
    Region::of_rect(alloc, &rect, steps)
}

/// One operation.
fn combine<L: Ledger>(
    alloc: Global,
    operation: Operation,
    first: &Region,
    second: &Region,
    steps: &mut Steps<L>,
) -> Result<Region, OutOfMemory> {
    match operation {
        Operation::Unite => first.unite(alloc, second, steps),
        Operation::Subtract => first.subtract(alloc, second, steps),
        Operation::Intersect => first.intersect(alloc, second, steps),
    }
}

/// The rectangles of the results of so many operations, summed.
fn rectangles<L: Ledger>(
    alloc: Global,
    operation: Operation,
    first: &Region,
    second: &Region,
    times: u32,
    steps: &mut Steps<L>,
) -> Result<u64, OutOfMemory> {
    let mut sum: u64 = 0;
    for _ in 0..times {
        let result = combine(alloc, operation, first, second, steps)?;
        sum = sum.wrapping_add(result.len() as u64);
    }
    Ok(sum)
}

/// The second region: a shifted grid, or the middle of the first where it is only one rectangle.
fn second_region<L: Ledger>(
    alloc: Global,
    first: Sides,
    second: Sides,
    steps: &mut Steps<L>,
) -> Result<Region, OutOfMemory> {
    if second.rows < first.rows {
        middle(alloc, first, steps)
    } else {
        grid(alloc, second, SHIFT, steps)
    }
}

fn counted<L: Ledger>(
    alloc: Global,
    operation: Operation,
    first: Sides,
    second: Sides,
    times: u32,
    blank: Blank,
) -> Result<u64, OutOfMemory>
    requires name { blank.name ≡ L.name }
    requires parts { blank.parts ≡ L.parts }
    requires one { L.parts ≡ 1 }
{
    let mut steps = Steps::<L>::new(blank);
    let other = second_region(alloc, first, second, &mut steps)?;
    let one = grid(alloc, first, 0, &mut steps)?;
    rectangles(alloc, operation, &one, &other, times, &mut steps)
}

/// An operation on two regions of so many rectangles, so many times: the rectangles of the results, summed. `None` for want
/// of memory, and where there is no such region.
pub fn run(
    alloc: Global,
    operation: Operation,
    first: u32,
    second: u32,
    times: u32,
) -> Option<u64> {
    let first = sides_of(first)?;
    let second = sides_of(second)?;
    counted::<Brand>(alloc, operation, first, second, times, Blank::new(1)).ok()
}
