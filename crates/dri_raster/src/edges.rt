//! The three edges of a triangle whose corners go round the inner side.

ghost use Rattle.std.specs.Prelude.{◌≡◌, ◌≤◌, ◌+ℤ◌, ◌*ℤ◌, ℤ, pos, ◌&&◌};
ghost use Rattle.dri_base.specs.Ranges.{TriangleInRange};
ghost use Rattle.dri_raster.specs.Channels.{IsBounded, most, slope_by, value_of, weighed_by};
ghost use Rattle.dri_raster.specs.Edges.{AreSmallEdges, IsPixel, IsWithin, are_within, edges_of};
ghost use Rattle.dri_raster.specs.Spans.{in_span};

use crate::channel::Channel;
use crate::edge::Edge;
use crate::span::Span;
use dri_base::Triangle;

/// The edges from each corner to the next.
#[derive(Clone, Copy)]
pub struct Edges {
    pub ab: Edge,
    pub bc: Edge,
    pub ca: Edge,
}

impl Edges {
    /// The edges of a triangle whose corners' coordinates are -32,768 to 32,767.
    pub fn new(triangle: &Triangle) -> Edges
        requires { TriangleInRange triangle.now }
        ensures value { result ≡ edges_of triangle.now }
        ensures small { AreSmallEdges result }
    {
        Edges {
            ab: Edge::new(&triangle.a, &triangle.b),
            bc: Edge::new(&triangle.b, &triangle.c),
            ca: Edge::new(&triangle.c, &triangle.a),
        }
    }

    /// Whether the centre of pixel (x, y) lies within all three.
    pub fn contain(&self, x: i32, y: i32) -> bool
        requires small { AreSmallEdges self.now }
        requires x { IsPixel x }
        requires y { IsPixel y }
        ensures { result ≡ are_within self.now x y }
    {
        self.ab.contains(x, y) && self.bc.contains(x, y) && self.ca.contains(x, y)
    }

    /// The columns of a span whose centres in row y lie within all three.
    pub fn narrowed(&self, y: i32, span: Span) -> Span
        requires small { AreSmallEdges self.now }
        requires y { IsPixel y }
        requires span { IsPixel span.x1 × IsPixel span.x2 }
        ensures columns { (x : ℤ) → in_span result x ≡ (in_span span x && are_within self.now x y) }
        ensures near { IsPixel result.x1 × IsPixel result.x2 }
    {
        let within_ab = self.ab.narrowed(y, span);
        let within_both = self.bc.narrowed(y, within_ab);
        self.ca.narrowed(y, within_both)
    }

    /// The corners' quantities, each by the distance of the centre of pixel (x, y) to the edge across from it.
    pub fn weighed(&self, corners: &Triangle, channel: Channel, x: i32, y: i32) -> i64
        requires small { AreSmallEdges self.now }
        requires x { IsPixel x }
        requires y { IsPixel y }
        ensures value { result ≡ weighed_by self.now corners.now (value_of channel) x y }
        ensures bounded { IsBounded corners.now (value_of channel) (most channel) }
    {
        weighed(
            corners,
            channel,
            self.bc.distance(x, y),
            self.ca.distance(x, y),
            self.ab.distance(x, y),
        )
    }

    /// What those weighed quantities grow by from a column to the next.
    pub fn slope(&self, corners: &Triangle, channel: Channel) -> i64
        requires small { AreSmallEdges self.now }
        ensures value { result ≡ slope_by self.now corners.now (value_of channel) }
        ensures small { IsWithin 108086391056891904 result }
    {
        -weighed(
            corners,
            channel,
            self.bc.column,
            self.ca.column,
            self.ab.column,
        )
    }
}

/// The corners' quantities by three numbers.
fn weighed(corners: &Triangle, channel: Channel, for_a: i64, for_b: i64, for_c: i64) -> i64
    requires a { IsWithin 549755813888 for_a }
    requires b { IsWithin 549755813888 for_b }
    requires c { IsWithin 549755813888 for_c }
    ensures value { result ≡ ((for_a *ℤ pos (value_of channel corners.now.a)) +ℤ (for_b *ℤ pos (value_of channel corners.now.b))) +ℤ (for_c *ℤ pos (value_of channel corners.now.c)) }
    ensures small { IsWithin 108086391056891904 result }
    ensures bounded { IsBounded corners.now (value_of channel) (most channel) }
{
    let a = weight(for_a, channel.of(&corners.a));
    let b = weight(for_b, channel.of(&corners.b));
    let c = weight(for_c, channel.of(&corners.c));
    a + b + c
}

fn weight(distance: i64, value: u32) -> i64
    requires distance { IsWithin 549755813888 distance }
    requires value { value ≤ 65535 }
    ensures value { result ≡ distance *ℤ pos value }
    ensures small { IsWithin 36028797018963968 result }
{
    distance * i64::from(value)
}
