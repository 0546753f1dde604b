//! What is done once in each of some rectangles.

ghost use Rattle.std.specs.Prelude.{◌≡◌, ◌≤◌, ◌+◌, ◌*◌, ℕ, All, AllPairs, length};
ghost use Rattle.std.specs.List.{sum_by};
ghost use Rattle.dri_base.specs.declared.colour.Pixel.{Pixel};
ghost use Rattle.dri_base.specs.declared.colour.Rgb.{Rgb};
ghost use Rattle.dri_base.specs.Planes.{plane};
ghost use Rattle.dri_base.specs.Ranges.{IsPlace, TriangleInRange};
ghost use Rattle.dri_base.specs.Rectangles.{AreApart, in_rects};
ghost use Rattle.dri_model.specs.Words.{IsBoundInRange, IsScissorInRange, card_image, rules_in};
ghost use Rattle.dri_plane.specs.Grids.{IsInside};
ghost use Rattle.dri_plane.specs.Moves.{pixel_counts};
ghost use Rattle.dri_plane.specs.Runs.{HoldPairs};
ghost use Rattle.dri_walk.specs.Clips.{covered_places};
ghost use Rattle.dri_walk.specs.Samplings.{IsImageWithin, byte_in};
ghost use Rattle.dri_flip.specs.Calls.{cleared_in, drawn_in, swapped_in};

use dri_base::{ClipRect, Point, Registers, Rgb, Steps, Triangle};
use dri_card::Target;
use dri_plane::Plane;
use dri_walk::draw_triangle;
use std::sync::ledger::Ledger;

/// Writes one pair into each place of the rectangles. It takes two steps a place.
pub fn clear_all<L: Ledger>(
    target: &mut Target<Rgb>,
    rects: &[ClipRect],
    colour: Rgb,
    depth: u16,
    steps: &mut Steps<L>,
)
    requires inside { All (λ r. IsInside r target.old.back.width target.old.back.height) rects.now }
    ensures pairs { (f : ℕ → ℕ → Pixel) → HoldPairs target.old.back target.old.depth f → HoldPairs target.new.back target.new.depth (cleared_in rects.now colour depth f) }
    ensures width { target.new.back.width ≡ target.old.back.width }
    ensures height { target.new.back.height ≡ target.old.back.height }
    ensures cost { steps.new ≡ steps.old + 2 * pixel_counts rects.now }
{
    for rect in rects {
        target.clear(rect, colour, depth, steps);
    }
}

/// Draws a triangle by the registers and the memory, once at each place of the rectangles. It takes at most four steps a place
/// whose pixel the triangle covers.
pub fn draw_all<L: Ledger>(
    target: &mut Target<Rgb>,
    registers: &Registers,
    memory: &[u8],
    rects: &[ClipRect],
    origin: Point,
    triangle: &Triangle,
    steps: &mut Steps<L>,
)
    requires inside { All (λ r. IsInside r target.old.back.width target.old.back.height) rects.now }
    requires apart { AllPairs AreApart rects.now }
    requires wide { target.old.back.width ≤ 1024 }
    requires high { target.old.back.height ≤ 1024 }
    requires x { IsPlace origin.x }
    requires y { IsPlace origin.y }
    requires triangle { TriangleInRange triangle.now }
    requires bound { IsBoundInRange registers.now.bound }
    requires scissor { IsScissorInRange registers.now.scissor }
    requires image { IsImageWithin (length memory.now) registers.now.bound }
    ensures pairs { (f : ℕ → ℕ → Pixel) → HoldPairs target.old.back target.old.depth f → HoldPairs target.new.back target.new.depth (drawn_in rects.now origin (rules_in registers.now) (card_image (byte_in memory.now) registers.now.bound) triangle.now f) }
    ensures width { target.new.back.width ≡ target.old.back.width }
    ensures height { target.new.back.height ≡ target.old.back.height }
    ensures cost { steps.new ≤ steps.old + 4 * sum_by (λ r. covered_places triangle.now r origin) rects.now }
{
    for rect in rects {
        draw_triangle(target, registers, memory, rect, origin, triangle, steps);
    }
}

/// Copies each pixel of the rectangles from the same place of another plane with the same sides. It takes two steps a pixel.
pub fn copy_all<L: Ledger>(
    front: &mut Plane<Rgb>,
    back: &Plane<Rgb>,
    rects: &[ClipRect],
    steps: &mut Steps<L>,
)
    requires width { back.now.width ≡ front.old.width }
    requires height { back.now.height ≡ front.old.height }
    requires inside { All (λ r. IsInside r front.old.width front.old.height) rects.now }
    ensures shown { (f : ℕ → ℕ → Pixel) (shown : ℕ → ℕ → Rgb) → back.now.pixels ≡ plane back.now.width back.now.height (λ x y. (f x y).colour) → front.old.pixels ≡ plane front.old.width front.old.height shown → front.new.pixels ≡ plane front.new.width front.new.height (swapped_in rects.now f shown) }
    ensures new_width { front.new.width ≡ front.old.width }
    ensures new_height { front.new.height ≡ front.old.height }
    ensures cost { steps.new ≡ steps.old + 2 * pixel_counts rects.now }
{
    for rect in rects {
        front.copy_from(back, rect, steps);
    }
}
