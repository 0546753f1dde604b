//! The drawing of a line. Of the clip, laid along it, only the columns are visited in which it has a pixel. There the pixel is drawn
//! as a dot, a small triangle round its centre, which has the line's quantities in that column at each of its corners: so depth,
//! texels, shading and blending are those of every triangle.

ghost use Rattle.std.specs.Prelude.{◌≡◌, ◌≤◌, ◌<◌, ◌+◌, ◌*◌, ℕ, pos, ◌+ℤ◌, ◌-ℤ◌, true, false, MatchOption, length, if◌then◌else◌};
ghost use Rattle.dri_base.specs.Ranges.{IsPlace, TriangleInRange};
ghost use Rattle.dri_card16.specs.Dots.{AreColumns, DotIsTheLine, IsLineInRange, IsWindowPixel, dot, in_column, is_among, laid_clip, laid_point, placed};
ghost use Rattle.dri_card16.specs.Lines.{after_line, along, has_pixel, has_place, left_on, line_places};
ghost use Rattle.dri_model.specs.Words.{IsBoundInRange, IsScissorInRange, card_image, rules_in};
ghost use Rattle.dri_plane.specs.Grids.{IsInside};
ghost use Rattle.dri_raster.specs.Edges.{IsWithin};
ghost use Rattle.dri_walk.specs.Samplings.{IsImageWithin, byte_in};
ghost use Rattle.dri_walk.specs.Surfaces.{PairsBecome, drawn_at};

use crate::line::{Line, UNITS};
use dri_base::{ClipRect, Point, Registers, Steps, Triangle, Vertex};
use dri_raster::first;
use dri_walk::{Surface, draw_triangle, nearest};
use std::sync::ledger::Ledger;

/// How far a dot's corners lie from the pixel's upper and left sides, in sixteenths: just before the centre, and past it.
const BEFORE: i32 = 7;

const PAST: i32 = 10;

/// Draws the line from a triangle's first vertex to its second by the registers and the texture memory, at each place of the clip
/// on the surface; the flat colour is the third vertex's. The window's pixel is the screen's less the origin, the window's upper
/// left corner, whose coordinates are -1,024 to 1,024. The clip lies within the surface, whose sides are at most 1,024. It takes at
/// most four steps a place of the clip whose pixel the line covers; a scissor only leaves some out.
pub fn draw_line<S: Surface, L: Ledger>(
    surface: &mut S,
    registers: &Registers,
    memory: &[u8],
    clip: &ClipRect,
    origin: Point,
    triangle: &Triangle,
    steps: &mut Steps<L>,
)
    requires x { IsPlace origin.x }
    requires y { IsPlace origin.y }
    requires triangle { TriangleInRange triangle.now }
    requires bound { IsBoundInRange registers.now.bound }
    requires scissor { IsScissorInRange registers.now.scissor }
    requires image { IsImageWithin (length memory.now) registers.now.bound }
    requires within { IsInside clip.now (S.width surface.old) (S.height surface.old) }
    requires small { IsInside clip.now 1024 1024 }
    ensures pairs { PairsBecome S.holds surface.old surface.new (after_line S.kept (rules_in registers.now) (card_image (byte_in memory.now) registers.now.bound) triangle.now clip.now origin) }
    ensures width { S.width surface.new ≡ S.width surface.old }
    ensures height { S.height surface.new ≡ S.height surface.old }
    ensures bound { steps.new ≤ steps.old + 4 * line_places triangle.now clip.now origin }
{
    let line = Line::new(triangle);
    let laid = line.laid_clip(clip);
    let shift = line.laid_point(origin);
    let (start, end) = line.columns(laid.x1, laid.x2, shift.x);
    for n in start..end {
        line.draw_in(surface, registers, memory, clip, origin, n, steps);
    }
}

impl Line {
    /// The clip, laid along the line.
    fn laid_clip(&self, clip: &ClipRect) -> ClipRect
        ensures { result ≡ laid_clip self.now clip.now }
    {
        if self.x_major {
            *clip
        } else {
            ClipRect {
                x1: clip.y1,
                y1: clip.x1,
                x2: clip.y2,
                y2: clip.x2,
            }
        }
    }

    /// A point, laid along the line.
    fn laid_point(&self, point: Point) -> Point
        ensures { result ≡ laid_point self.now point }
    {
        if self.x_major {
            point
        } else {
            Point {
                x: point.y,
                y: point.x,
            }
        }
    }

    /// The rectangle of the one place in column n and row m.
    fn placed(&self, n: u16, m: u16) -> ClipRect
        requires n { n < 1024 }
        requires m { m < 1024 }
        ensures { result ≡ placed self.now n m }
    {
        let (x, y) = if self.x_major { (n, m) } else { (m, n) };
        ClipRect {
            x1: x,
            y1: y,
            x2: x + 1,
            y2: y + 1,
        }
    }

    /// Among the screen's columns from `low` up to `high`, those in which the line has a pixel: from the first of the result up
    /// to the second. The window's column is the screen's less the shift.
    fn columns(&self, low: u16, high: u16, shift: i32) -> (u16, u16)
        requires in_range { IsLineInRange self.now }
        requires order { low ≤ high }
        requires shift { IsPlace shift }
        ensures from { low ≤ result.0 }
        ensures order { result.0 ≤ result.1 }
        ensures to { result.1 ≤ high }
        ensures pixels { AreColumns self.now low high shift result.0 result.1 }
    {
        let start = nearest(first(self.first.x) + shift, low, high);
        (start, nearest(first(self.last.x) + shift, start, high))
    }

    /// Draws what the line has in column n, which is one of the clip's: at most one pixel, in at most four steps.
    fn draw_in<S: Surface, L: Ledger>(
        &self,
        surface: &mut S,
        registers: &Registers,
        memory: &[u8],
        clip: &ClipRect,
        origin: Point,
        n: u16,
        steps: &mut Steps<L>,
    )
        requires in_range { IsLineInRange self.now }
        requires x { IsPlace origin.x }
        requires y { IsPlace origin.y }
        requires bound { IsBoundInRange registers.now.bound }
        requires scissor { IsScissorInRange registers.now.scissor }
        requires image { IsImageWithin (length memory.now) registers.now.bound }
        requires within { IsInside clip.now (S.width surface.old) (S.height surface.old) }
        requires small { IsInside clip.now 1024 1024 }
        requires from { along self.now clip.now.x1 clip.now.y1 ≤ n }
        requires until { n < along self.now clip.now.x2 clip.now.y2 }
        requires pixel { has_pixel self.now (pos n -ℤ along self.now origin.x origin.y) ≡ true }
        ensures pairs { PairsBecome S.holds surface.old surface.new (drawn_at (in_column self.now clip.now n) origin (left_on S.kept (rules_in registers.now) (card_image (byte_in memory.now) registers.now.bound) self.now)) }
        ensures width { S.width surface.new ≡ S.width surface.old }
        ensures height { S.height surface.new ≡ S.height surface.old }
        ensures bound { steps.new ≤ steps.old + 4 * (if has_place self.now clip.now origin n then 1 else 0) }
    {
        let laid = self.laid_clip(clip);
        let shift = self.laid_point(origin);
        let column = less(n, shift.x);
        let Some(m) = place_among(self.row_in(column), shift.y, laid.y1, laid.y2) else {
            return;
        };
        let place = self.placed(n, m);
        let vertex = self.vertex_in(registers.shade, column);
        let dot = dot(&vertex, less(place.x1, origin.x), less(place.y1, origin.y));
        draw_triangle(surface, registers, memory, &place, origin, &dot, steps);
    }
}

/// A coordinate of the screen, less the window's.
fn less(place: u16, origin: i32) -> i32
    requires { IsPlace origin }
    ensures { result ≡ pos place -ℤ origin }
{
    i32::from(place) - origin
}

/// A row of the window on the screen, where that is one from `low` up to `high`.
fn place_among(row: i64, shift: i32, low: u16, high: u16) -> Option<u16>
    requires row { IsWithin 8589934593 row }
    requires shift { IsPlace shift }
    ensures { MatchOption result (is_among low high (row +ℤ shift) ≡ false) (λ m. (pos m ≡ row +ℤ shift) × (low ≤ m) × (m < high)) }
{
    let place = row + i64::from(shift);
    if place < i64::from(low) || i64::from(high) <= place {
        return None;
    }
    Some(place as u16)
}

/// A triangle round the centre of pixel (x, y), with the same quantities at each corner.
fn dot(vertex: &Vertex, x: i32, y: i32) -> Triangle
    requires x { IsWindowPixel x }
    requires y { IsWindowPixel y }
    ensures value { result ≡ dot vertex.now x y }
    ensures in_range { TriangleInRange result }
{
    let (left, right) = (UNITS * x + BEFORE, UNITS * x + PAST);
    let (upper, lower) = (UNITS * y + BEFORE, UNITS * y + PAST);
    Triangle {
        a: Vertex {
            x: left,
            y: upper,
            ..*vertex
        },
        b: Vertex {
            x: right,
            y: upper,
            ..*vertex
        },
        c: Vertex {
            x: left,
            y: lower,
            ..*vertex
        },
    }
}

/// At a pixel of a line, the pixel rule for the small triangle round its centre is what the line leaves: so whatever draws that
/// triangle there draws the line. It does nothing: its contract is the law.
pub fn dot_is_the_line()
    ensures { DotIsTheLine }
{}
