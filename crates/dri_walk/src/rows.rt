//! The walk of a drawing over a rectangle, for each way to colour and to blend. Only rows between the triangle's corners are
//! visited, and of each only the span that the triangle covers.

ghost use Rattle.std.specs.Prelude.{◌≡◌, ◌≤◌, ◌<◌, ◌+◌, ◌*◌, ℕ, ℤ, pos, ◌+ℤ◌, ◌-ℤ◌, ◌≤ℤ◌};
ghost use Rattle.dri_base.specs.Ranges.{IsPlace};
ghost use Rattle.dri_base.specs.Planes.{in_rect};
ghost use Rattle.dri_plane.specs.Grids.{IsInside};
ghost use Rattle.dri_walk.specs.Clips.{HoldSame, covered_in_row, covered_places, in_window};
ghost use Rattle.dri_walk.specs.Drawings.{pair_by};
ghost use Rattle.dri_walk.specs.Surfaces.{PairsBecome, drawn_at, in_row};

use crate::blending::Blending;
use crate::brush::brush_at;
use crate::clipping::nearest;
use crate::colouring::Colouring;
use crate::drawing::Drawing;
use crate::surface::Surface;
use dri_base::{ClipRect, Point, Rect, Steps};
use dri_raster::Setup;
use std::sync::ledger::Ledger;

impl<'a> Drawing<'a> {
    /// Draws at each place of a rectangle. It takes at most four steps a place whose pixel the triangle covers.
    pub fn draw_rows<B: Blending, C: Colouring, S: Surface, L: Ledger>(
        &self,
        colouring: &C,
        surface: &mut S,
        origin: Point,
        rect: &ClipRect,
        steps: &mut Steps<L>,
    )
        requires fits { C.fits colouring.now self.now.setup }
        requires x { IsPlace origin.x }
        requires y { IsPlace origin.y }
        requires within { IsInside rect.now (S.width surface.old) (S.height surface.old) }
        requires small { IsInside rect.now 1024 1024 }
        ensures pairs { PairsBecome S.holds surface.old surface.new (drawn_at (in_rect rect.now) origin (pair_by S.kept self.now (C.colours colouring.now) B.blend)) }
        ensures width { S.width surface.new ≡ S.width surface.old }
        ensures height { S.height surface.new ≡ S.height surface.old }
        ensures bound { steps.new ≤ steps.old + 4 * covered_places self.now.setup rect.now origin }
    {
        let framed = framed(&self.setup, rect, origin);
        self.draw_framed::<B, C, S, L>(colouring, surface, origin, &framed, steps);
    }

    /// Draws at each place of a rectangle, each row of which is visited.
    fn draw_framed<B: Blending, C: Colouring, S: Surface, L: Ledger>(
        &self,
        colouring: &C,
        surface: &mut S,
        origin: Point,
        rect: &ClipRect,
        steps: &mut Steps<L>,
    )
        requires fits { C.fits colouring.now self.now.setup }
        requires x { IsPlace origin.x }
        requires y { IsPlace origin.y }
        requires within { IsInside rect.now (S.width surface.old) (S.height surface.old) }
        requires small { IsInside rect.now 1024 1024 }
        ensures pairs { PairsBecome S.holds surface.old surface.new (drawn_at (in_rect rect.now) origin (pair_by S.kept self.now (C.colours colouring.now) B.blend)) }
        ensures width { S.width surface.new ≡ S.width surface.old }
        ensures height { S.height surface.new ≡ S.height surface.old }
        ensures bound { steps.new ≤ steps.old + 4 * covered_places self.now.setup rect.now origin }
    {
        for y in rect.y1..rect.y2 {
            self.draw_row::<B, C, S, L>(colouring, surface, origin, rect, y, steps);
        }
    }

    /// Draws in row y, between the columns of a rectangle.
    fn draw_row<B: Blending, C: Colouring, S: Surface, L: Ledger>(
        &self,
        colouring: &C,
        surface: &mut S,
        origin: Point,
        rect: &ClipRect,
        y: u16,
        steps: &mut Steps<L>,
    )
        requires fits { C.fits colouring.now self.now.setup }
        requires x { IsPlace origin.x }
        requires y { IsPlace origin.y }
        requires within { IsInside rect.now (S.width surface.old) (S.height surface.old) }
        requires small { IsInside rect.now 1024 1024 }
        requires from { rect.now.y1 ≤ y }
        requires until { y < rect.now.y2 }
        ensures pairs { PairsBecome S.holds surface.old surface.new (drawn_at (in_row y rect.now.x1 rect.now.x2) origin (pair_by S.kept self.now (C.colours colouring.now) B.blend)) }
        ensures width { S.width surface.new ≡ S.width surface.old }
        ensures height { S.height surface.new ≡ S.height surface.old }
        ensures bound { steps.new ≤ steps.old + 4 * covered_in_row self.now.setup rect.now origin y }
    {
        let row = less(y, origin.y);
        let Some(span) = self.setup.span(row, &windowed(rect, origin)) else {
            return;
        };
        let left = on_screen(span.x1, origin.x);
        let right = on_screen(span.x2, origin.x);
        let mut brush = brush_at::<B, C>(self, colouring, origin.x, row, left, right);
        surface.draw_run(y, left, right, &mut brush, steps);
    }
}

/// The rows of a rectangle between the triangle's corners; none where no column's centres lie between them.
fn framed(setup: &Setup, rect: &ClipRect, origin: Point) -> ClipRect
    requires x { IsPlace origin.x }
    requires y { IsPlace origin.y }
    requires columns { rect.now.x1 ≤ rect.now.x2 }
    requires rows { rect.now.y1 ≤ rect.now.y2 }
    ensures same { HoldSame setup.now origin result rect.now }
    ensures inside { IsInside result rect.now.x2 rect.now.y2 }
    ensures left { result.x1 ≡ rect.now.x1 }
    ensures right { result.x2 ≡ rect.now.x2 }
    ensures top { rect.now.y1 ≤ result.y1 }
{
    let frame = setup.frame();
    if frame.x2 <= frame.x1 {
        return ClipRect {
            y2: rect.y1,
            ..*rect
        };
    }
    let y1 = nearest(frame.y1 + origin.y, rect.y1, rect.y2);
    ClipRect {
        x1: rect.x1,
        y1,
        x2: rect.x2,
        y2: nearest(frame.y2 + origin.y, y1, rect.y2),
    }
}

/// A coordinate of the screen, less the window's.
fn less(place: u16, origin: i32) -> i32
    requires { IsPlace origin }
    ensures { result ≡ pos place -ℤ origin }
{
    i32::from(place) - origin
}

/// A rectangle of the screen as the window has it.
fn windowed(rect: &ClipRect, origin: Point) -> Rect
    requires x { IsPlace origin.x }
    requires y { IsPlace origin.y }
    ensures { result ≡ in_window rect.now origin }
{
    Rect {
        x1: less(rect.x1, origin.x),
        y1: less(rect.y1, origin.y),
        x2: less(rect.x2, origin.x),
        y2: less(rect.y2, origin.y),
    }
}

/// A column of the window on the screen.
fn on_screen(x: i32, left: i32) -> u16
    requires low { pos 0 ≤ℤ (x +ℤ left) }
    requires high { (x +ℤ left) ≤ℤ pos 1024 }
    ensures { pos result ≡ (x +ℤ left) }
{
    (x + left) as u16
}
