//! A run of a row of two planes, colours and depths, is painted in one call: both lists are taken hold of once, and each access
//! to a pixel is a step.

ghost use Rattle.std.specs.Prelude.{◌≡◌, ◌≤◌, ◌<◌, ◌+◌, ◌-◌, ◌*◌, ℕ, Option, length};
ghost use Rattle.dri_base.specs.declared.colour.Pixel.{Pixel};
ghost use Rattle.dri_plane.specs.Formats.{pair_kept, shown_by};
ghost use Rattle.dri_plane.specs.Runs.{HoldPairs, accesses, grid, place_painted, run_accesses, run_painted};

use crate::counting::count;
use crate::format::ColourFormat;
use crate::plane::Plane;
use dri_base::{Pixel, Steps};
use std::sync::ledger::Ledger;

/// The accesses that read a pair, and those that write one.
const READS: usize = 2;

const WRITES: usize = 2;

/// What paints the pixels of a row, from left to right. It stands at a column, and goes on to the next one before its end.
pub trait Painter {
    ghost end: { Self → ℕ };

    ghost ready: { Self → ℕ → Type 0 };

    ghost paints: { Self → ℕ → Pixel → Option Pixel };

    /// What is painted at column x, where it stands, over the pair under it; `None` where that pair stays.
    fn paint(&self, x: u16, under: Pixel) -> Option<Pixel>
        requires { ready self.now x }
        ensures { result ≡ paints self.now x under };

    /// Goes on from column x, where it stands, to the next.
    fn step(&mut self, x: u16)
        requires ready { ready self.old x }
        requires more { x + 1 < end self.old }
        ensures ready { ready self.new (x + 1) }
        ensures paints { paints self.new ≡ paints self.old }
        ensures end { end self.new ≡ end self.old };
}

/// Where the pixel in column x and row y stands in a list of rows.
#[inline(always)]
fn place_of(width: usize, height: usize, x: u16, y: u16) -> usize
    requires column { x < width }
    requires row { y < height }
    requires most { width ≤ 1024 }
    ensures value { result ≡ y * width + x }
    ensures within { result < width * height }
    ensures small { result < 67108864 }
{
    usize::from(y) * width + usize::from(x)
}

/// Paints the place where the painter stands. It takes two steps where the pair stays, and four where it is painted.
#[inline(always)]
fn paint_place<F: ColourFormat, P: Painter, L: Ledger>(
    colours: &mut [F::Kept],
    depths: &mut [u16],
    width: usize,
    height: usize,
    x: u16,
    y: u16,
    painter: &P,
    steps: &mut Steps<L>,
)
    requires colours { length colours.old ≡ width * height }
    requires depths { length depths.old ≡ width * height }
    requires column { x < width }
    requires row { y < height }
    requires most { width ≤ 1024 }
    requires ready { P.ready painter.now x }
    ensures colours { length colours.new ≡ length colours.old }
    ensures depths { length depths.new ≡ length depths.old }
    ensures pairs { (f : ℕ → ℕ → Pixel) → HoldPairs (grid width height (F.all_shown colours.old)) (grid width height depths.old) f → HoldPairs (grid width height (F.all_shown colours.new)) (grid width height depths.new) (place_painted (pair_kept F.shown F.kept) (P.paints painter.now) x y f) }
    ensures accesses { (f : ℕ → ℕ → Pixel) → HoldPairs (grid width height (F.all_shown colours.old)) (grid width height depths.old) f → steps.new ≡ steps.old + accesses (P.paints painter.now x (f x y)) }
    ensures cost { steps.new ≤ steps.old + 4 }
{
    let place = place_of(width, height, x, y);
    let under = Pixel {
        colour: F::shown(colours[place]),
        depth: depths[place],
    };
    count(READS, steps);
    if let Some(pixel) = painter.paint(x, under) {
        F::keep(&mut colours[place], pixel.colour);
        depths[place] = pixel.depth;
        count(WRITES, steps);
    }
}

/// Paints the places of row y from column `left` up to column `right`, where the painter ends.
#[inline(always)]
fn paint_run<F: ColourFormat, P: Painter, L: Ledger>(
    colours: &mut [F::Kept],
    depths: &mut [u16],
    width: usize,
    height: usize,
    y: u16,
    left: u16,
    right: u16,
    painter: &mut P,
    steps: &mut Steps<L>,
)
    requires colours { length colours.old ≡ width * height }
    requires depths { length depths.old ≡ width * height }
    requires row { y < height }
    requires most { width ≤ 1024 }
    requires some { left < right }
    requires columns { right ≤ width }
    requires ready { P.ready painter.old left }
    requires end { P.end painter.old ≡ right }
    ensures colours { length colours.new ≡ length colours.old }
    ensures depths { length depths.new ≡ length depths.old }
    ensures pairs { (f : ℕ → ℕ → Pixel) → HoldPairs (grid width height (F.all_shown colours.old)) (grid width height depths.old) f → HoldPairs (grid width height (F.all_shown colours.new)) (grid width height depths.new) (run_painted (pair_kept F.shown F.kept) (P.paints painter.old) y left right f) }
    ensures accesses { (f : ℕ → ℕ → Pixel) → HoldPairs (grid width height (F.all_shown colours.old)) (grid width height depths.old) f → steps.new ≡ steps.old + run_accesses (P.paints painter.old) y left (right - left) f }
    ensures cost { steps.new ≤ steps.old + 4 * (right - left) }
{
    paint_place::<F, P, L>(colours, depths, width, height, left, y, painter, steps);
    for x in left + 1..right {
        painter.step(x - 1);
        paint_place::<F, P, L>(colours, depths, width, height, x, y, painter, steps);
    }
}

/// Paints the places of row y from column `left` up to column `right`, where the painter ends, on a plane of colours and a plane
/// of depths with the same sides. A place shows what the format of the colours keeps. Each access to a pixel is a step: two a place are read, and two are written where the painter
/// paints.
#[inline(always)]
pub fn paint_row<F: ColourFormat, P: Painter, L: Ledger>(
    colours: &mut Plane<F::Kept>,
    depths: &mut Plane<u16>,
    y: u16,
    left: u16,
    right: u16,
    painter: &mut P,
    steps: &mut Steps<L>,
)
    requires width { depths.old.width ≡ colours.old.width }
    requires height { depths.old.height ≡ colours.old.height }
    requires row { y < colours.old.height }
    requires some { left < right }
    requires columns { right ≤ colours.old.width }
    requires ready { P.ready painter.old left }
    requires end { P.end painter.old ≡ right }
    ensures colours { (colours.new.width ≡ colours.old.width) × (colours.new.height ≡ colours.old.height) }
    ensures depths { (depths.new.width ≡ depths.old.width) × (depths.new.height ≡ depths.old.height) }
    ensures pairs { (f : ℕ → ℕ → Pixel) → HoldPairs (shown_by F.all_shown colours.old) depths.old f → HoldPairs (shown_by F.all_shown colours.new) depths.new (run_painted (pair_kept F.shown F.kept) (P.paints painter.old) y left right f) }
    ensures accesses { (f : ℕ → ℕ → Pixel) → HoldPairs (shown_by F.all_shown colours.old) depths.old f → steps.new ≡ steps.old + run_accesses (P.paints painter.old) y left (right - left) f }
    ensures cost { steps.new ≤ steps.old + 4 * (right - left) }
{
    let width = colours.width as usize;
    let height = colours.height as usize;
    paint_run::<F, P, L>(
        colours.pixels.as_mut_slice(),
        depths.pixels.as_mut_slice(),
        width,
        height,
        y,
        left,
        right,
        painter,
        steps,
    );
}
