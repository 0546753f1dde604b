//! A triangle made ready for its pixels. Where its area is negative the second and the third corner change places, so
//! that the inner side of every edge is the positive one; the three edges and twice the area are worked out once.

ghost use Rattle.std.specs.Prelude.{◌≡◌, ◌≤◌, ◌↔◌, IfSome, IsNone, IsTrue, MatchOption, ℤ, true, pos, ◌&&◌, ◌<◌, int_le, int_lt, unsigned_abs};
ghost use Rattle.dri_base.specs.Coverage.{area, centre, covers, quantity, turned, weighed};
ghost use Rattle.dri_raster.specs.Channels.{IsBounded, most, value_of};
ghost use Rattle.dri_raster.specs.Runners.{slope_of};
ghost use Rattle.dri_raster.specs.Standing.{Standing};
ghost use Rattle.dri_raster.specs.Edges.{IsPixel, IsWithin};
ghost use Rattle.dri_raster.specs.Reach.{IsAmid};
ghost use Rattle.dri_raster.specs.Spans.{CoversNone, IsSpan, in_bounds};
ghost use Rattle.dri_raster.specs.Walks.{IsNear, covered_points};
ghost use Rattle.dri_base.specs.Ranges.{TriangleInRange};

use crate::channel::Channel;
use crate::edge::{cross, difference};
use crate::edges::Edges;
use crate::frame::{cut_rows, frame};
use crate::runner::Runner;
use crate::span::Span;
use crate::walk::Walk;
use dri_base::{Rect, Triangle};
use std::marker::Model;

/// A triangle that has an area, ready for its pixels. Contracts see it as the triangle as it was given.
#[derive(Drop)]
pub struct Setup {
    triangle: Triangle,
    turned: Triangle,
    area: u64,
    edges: Edges,
}

impl Model for Setup {
    ghost use Rattle.dri_base.specs.declared.shape.Triangle.{Triangle};

    ghost Value = { Triangle };

    ghost use Rattle.dri_raster.specs.Setups.{IsSetUp};

    ghost view = { λ s. s.triangle };

    ghost invariant = { IsSetUp };
}

impl Setup {
    /// The triangle made ready, and `None` exactly where its area is zero. The corners' coordinates are -32,768 to
    /// 32,767.
    pub fn new(triangle: &Triangle) -> Option<Setup>
        requires { TriangleInRange triangle.now }
        ensures none { IsNone result ↔ (area triangle.now ≡ pos 0) }
        ensures some { IfSome result (λ setup. setup ≡ triangle.now) }
    {
        let area = area(triangle);
        if area == 0 {
            return None;
        }
        let turned = turned(triangle, area);
        Some(Setup {
            triangle: *triangle,
            turned,
            area: area.unsigned_abs(),
            edges: Edges::new(&turned),
        })
    }

    /// Whether the triangle covers the centre of pixel (x, y), each -4,096 to 4,096.
    pub fn covers(&self, x: i32, y: i32) -> bool
        requires x { IsPixel x }
        requires y { IsPixel y }
        ensures { result ≡ covers self.now x y }
    {
        self.edges.contain(x, y)
    }

    /// A channel's quantity at the centre of pixel (x, y), which the triangle covers: the corners' quantities weighed
    /// by the three edges, divided by twice the area, rounded down: at most 255 for a channel of the colour, at most
    /// 65,535 for any other.
    pub fn value_at(&self, channel: Channel, x: i32, y: i32) -> u32
        requires { IsTrue (covers self.now x y) }
        ensures value { result ≡ quantity self.now (value_of channel) x y }
        ensures bounded { result ≤ most channel }
    {
        (self.sum_at(channel, x, y) / self.area) as u32
    }

    /// The corners' quantities weighed by the three edges, at the centre of pixel (x, y), which the triangle covers.
    pub(crate) fn sum_at(&self, channel: Channel, x: i32, y: i32) -> u64
        requires { IsTrue (covers self.now x y) }
        ensures value { pos result ≡ weighed (turned self.now) (value_of channel) (centre x y) }
        ensures bounded { IsBounded (turned self.now) (value_of channel) (most channel) }
    {
        let sum = self.edges.weighed(&self.turned, channel, x, y);
        sum.unsigned_abs()
    }

    /// What that sum grows by from a column to the next.
    pub(crate) fn slope(&self, channel: Channel) -> i64
        ensures value { result ≡ slope_of self.now (value_of channel) }
        ensures small { IsWithin 108086391056891904 result }
    {
        self.edges.slope(&self.turned, channel)
    }

    /// Twice the area, which isn't zero.
    pub(crate) fn twice_area(&self) -> u64
        ensures value { result ≡ unsigned_abs (area self.now) }
        ensures some { 0 < result }
        ensures small { result ≤ 8589672450 }
        ensures in_range { TriangleInRange self.now }
    {
        self.area
    }

    /// A runner of a channel that stands at pixel (x, y), whose centre the triangle covers.
    #[inline(always)]
    pub fn runner(&self, channel: Channel, x: i32, y: i32) -> Runner<'_>
        requires { IsTrue (covers self.now x y) }
        ensures { result ≡ record { triangle = self.now; channel = channel; x = x; y = y } }
    {
        Runner::new(self, channel, x, y)
    }

    /// The pixels whose centres lie between the triangle's corners, in columns and in rows: a rectangle that holds each pixel
    /// whose centre the triangle covers.
    pub fn frame(&self) -> Rect
        ensures pixels { (x y : ℤ) → IsAmid self.now (centre x y) ↔ (in_bounds result x y ≡ true) }
        ensures holds { (x y : ℤ) → covers self.now x y ≡ true → in_bounds result x y ≡ true }
        ensures near { IsNear result }
    {
        frame(&self.triangle)
    }

    /// The pixels of row y that the triangle covers in the rectangle, and `None` exactly where there are none. The row
    /// and the rectangle lie within -4,096 to 4,096.
    pub fn span(&self, y: i32, rect: &Rect) -> Option<Span>
        requires y { IsPixel y }
        requires rect { IsNear rect.now }
        ensures { MatchOption result (CoversNone self.now rect.now y) (IsSpan self.now rect.now y) }
    {
        if !has_row(rect, y) {
            return None;
        }
        let whole = Span {
            x1: rect.x1,
            x2: rect.x2,
        };
        let span = self.edges.narrowed(y, whole);
        if span.x2 <= span.x1 {
            return None;
        }
        Some(span)
    }

    /// The pixels of the rectangle whose centres the triangle covers, row by row, each once. The rectangle lies within
    /// -4,096 to 4,096.
    pub fn for_rect(&self, rect: &Rect) -> Walk
        requires { IsNear rect.now }
        ensures { result ≡ covered_points self.now rect.now }
    {
        let frame = frame(&self.triangle);
        Walk::new(self.edges, &cut_rows(rect, frame.y1, frame.y2))
    }
}

/// Whether row y is one of the rectangle's.
fn has_row(rect: &Rect, y: i32) -> bool
    ensures { result ≡ (int_le rect.now.y1 y && int_lt y rect.now.y2) }
{
    rect.y1 <= y && y < rect.y2
}

/// Twice the area, with its sign.
fn area(triangle: &Triangle) -> i64
    requires { TriangleInRange triangle.now }
    ensures value { result ≡ area triangle.now }
    ensures small { IsWithin 137438953472 result }
{
    let (a, b, c) = (&triangle.a, &triangle.b, &triangle.c);
    cross(
        difference(b.x, a.x),
        difference(b.y, a.y),
        difference(c.x, a.x),
        difference(c.y, a.y),
    )
}

/// The triangle, where its area is negative with its second and third corner exchanged.
fn turned(triangle: &Triangle, doubled: i64) -> Triangle
    requires in_range { TriangleInRange triangle.now }
    requires value { doubled ≡ area triangle.now }
    ensures value { result ≡ turned triangle.now }
    ensures in_range { TriangleInRange result }
{
    if doubled < 0 {
        Triangle {
            a: triangle.a,
            b: triangle.c,
            c: triangle.b,
        }
    } else {
        *triangle
    }
}
