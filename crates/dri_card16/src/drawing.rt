//! What the card draws of a triangle of a buffer: the line that it is, or else what it covers, by the one walk of every card.

ghost use Rattle.std.specs.Prelude.{◌≡◌, ◌≤◌, ◌+◌, ◌*◌, ℕ, length};
ghost use Rattle.dri_base.specs.Ranges.{IsPlace, TriangleInRange};
ghost use Rattle.dri_base.specs.declared.colour.Pixel.{Pixel};
ghost use Rattle.dri_card16.specs.Calls.{after_drawing16, places16};
ghost use Rattle.dri_card16.specs.Widened.{seen};
ghost use Rattle.dri_model.specs.Words.{IsBoundInRange, IsScissorInRange, card_image, rules_in};
ghost use Rattle.dri_plane.specs.Grids.{IsInside};
ghost use Rattle.dri_plane.specs.Runs.{HoldPairs};
ghost use Rattle.dri_walk.specs.Samplings.{IsImageWithin, byte_in};

use crate::format::FiveSixFive;
use crate::line::is_line;
use crate::line_drawing::draw_line;
use dri_base::{ClipRect, Point, Registers, Steps, Triangle};
use dri_card::Target;
use dri_walk::draw_triangle;
use std::sync::ledger::Ledger;

/// Draws a triangle, or the line that it is, by the registers and the texture memory, at each place of the clip. The window's pixel
/// is the screen's less the origin, the window's upper left corner, whose coordinates are -1,024 to 1,024. The clip lies on the
/// target, whose sides are at most 1,024. It takes at most four steps a place of the clip whose pixel is covered.
pub fn draw16<L: Ledger>(
    target: &mut Target<FiveSixFive>,
    registers: &Registers,
    memory: &[u8],
    clip: &ClipRect,
    origin: Point,
    triangle: &Triangle,
    steps: &mut Steps<L>,
)
    requires x { IsPlace origin.x }
    requires y { IsPlace origin.y }
    requires triangle { TriangleInRange triangle.now }
    requires bound { IsBoundInRange registers.now.bound }
    requires scissor { IsScissorInRange registers.now.scissor }
    requires image { IsImageWithin (length memory.now) registers.now.bound }
    requires within { IsInside clip.now target.old.back.width target.old.back.height }
    requires small { IsInside clip.now 1024 1024 }
    ensures pairs { (f : ℕ → ℕ → Pixel) → HoldPairs (seen target.old.back) target.old.depth f → HoldPairs (seen target.new.back) target.new.depth (after_drawing16 (rules_in registers.now) (card_image (byte_in memory.now) registers.now.bound) triangle.now clip.now origin f) }
    ensures width { target.new.back.width ≡ target.old.back.width }
    ensures height { target.new.back.height ≡ target.old.back.height }
    ensures bound { steps.new ≤ steps.old + 4 * places16 triangle.now clip.now origin }
{
    if is_line(triangle) {
        draw_line(target, registers, memory, clip, origin, triangle, steps);
    } else {
        draw_triangle(target, registers, memory, clip, origin, triangle, steps);
    }
}
