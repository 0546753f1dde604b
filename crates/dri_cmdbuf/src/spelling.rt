//! The words of a triangle: a header, and then four words for each vertex.

ghost use Rattle.std.specs.Prelude.{◌≡◌, ◌≤◌, ◌+◌, ◌*◌};
ghost use Rattle.dri_model.specs.CommandWords.{low_half, colour_word, vertex_words, triangle_words, IsColour, IsVertex, IsTriangle};
ghost use Rattle.dri_base.specs.Ranges.{IsVertexPlace, TriangleInRange, VertexInRange};
ghost use Rattle.dri_model.specs.Words.{halves};

use dri_base::{Rgba, Triangle, Vertex};

/// The word that begins a triangle.
pub const HEADER: u32 = 0x5400_0003;

/// How many words a triangle has.
pub const WORDS: usize = 13;

// The low sixteen bits of a coordinate, in two's complement.
fn coordinate(value: i32) -> u32
    requires { IsVertexPlace value }
    ensures value { result ≡ low_half value }
    ensures small { result ≤ 65535 }
{
    if value < 0 {
        (value + 65_536) as u32
    } else {
        value as u32
    }
}

// Two numbers of sixteen bits in one word.
fn two(low: u32, high: u32) -> u32
    requires low { low ≤ 65535 }
    requires high { high ≤ 65535 }
    ensures { result ≡ halves low high }
{
    low + 65_536 * high
}

fn colour(colour: &Rgba) -> u32
    ensures value { result ≡ colour_word colour.now }
    ensures held { IsColour colour.now }
{
    u32::from(colour.r)
        + (256 * u32::from(colour.g)
            + (65_536 * u32::from(colour.b) + 16_777_216 * u32::from(colour.a)))
}

fn vertex(vertex: &Vertex) -> [u32; 4]
    requires { VertexInRange vertex.now }
    ensures value { result ≡ vertex_words vertex.now }
    ensures held { IsVertex vertex.now }
{
    [
        two(coordinate(vertex.x), coordinate(vertex.y)),
        u32::from(vertex.z),
        colour(&vertex.colour),
        two(u32::from(vertex.s), u32::from(vertex.t)),
    ]
}

/// The thirteen words of a triangle.
pub fn triangle(triangle: &Triangle) -> [u32; 13]
    requires { TriangleInRange triangle.now }
    ensures value { result ≡ triangle_words triangle.now }
    ensures held { IsTriangle triangle.now }
{
    let a = vertex(&triangle.a);
    let b = vertex(&triangle.b);
    let c = vertex(&triangle.c);
    [
        HEADER, a[0], a[1], a[2], a[3], b[0], b[1], b[2], b[3], c[0], c[1], c[2], c[3],
    ]
}
