//! The worked triangles.

ghost use Rattle.std.specs.Prelude.{◌≡◌, neg_ℤ, pos};
ghost use Rattle.dri_base.specs.Coverage.{area, centre, turned, weighed};
ghost use Rattle.dri_base.specs.Ranges.{IsVertexPlace, TriangleInRange, VertexInRange};
ghost use Rattle.dri_card_tests.specs.Largest.{largest};

use dri_base::{Point, Rect, Rgba, Triangle, Vertex};
use dri_raster::{Channel, Setup, Span, common_edge, covered_is_amid};
use std::alloc::Global;
use std::process::Abort;
use std::test::Fail;

/// The first four rows' first four pixels.
const SQUARE: Rect = Rect {
    x1: 0,
    y1: 0,
    x2: 4,
    y2: 4,
};

fn corner(x: i32, y: i32) -> Vertex
    requires x { IsVertexPlace x }
    requires y { IsVertexPlace y }
    ensures x { result.x ≡ x }
    ensures y { result.y ≡ y }
{
    Vertex {
        x,
        y,
        z: 65535,
        colour: Rgba {
            r: 255,
            g: 128,
            b: 64,
            a: 0,
        },
        s: 16,
        t: 32,
    }
}

fn deep(x: i32, y: i32, z: u16) -> Vertex
    requires x { IsVertexPlace x }
    requires y { IsVertexPlace y }
    ensures x { result.x ≡ x }
    ensures y { result.y ≡ y }
{
    let mut vertex = corner(x, y);
    vertex.z = z;
    vertex
}

/// Two halves of a square of four by four pixels share its diagonal.
#[test]
fn halves(rt: HostRuntime) -> Result<(), Fail> {
    let upper = Triangle {
        a: corner(64, 0),
        b: corner(0, 64),
        c: corner(0, 0),
    };
    let lower = Triangle {
        a: corner(64, 0),
        b: corner(0, 64),
        c: corner(64, 64),
    };
    common_edge(&upper, &lower);
    let first = Setup::new(&upper).expect(&rt, "the upper half has an area");
    let second = Setup::new(&lower).expect(&rt, "the lower half has an area");
    assert!(rt; second.for_rect(&SQUARE).count() == 10);
    upper_half(&rt, rt.alloc(), &first)
}

/// The upper half's pixels, row by row.
const UPPER: [Point; 6] = [
    Point { x: 0, y: 0 },
    Point { x: 1, y: 0 },
    Point { x: 2, y: 0 },
    Point { x: 0, y: 1 },
    Point { x: 1, y: 1 },
    Point { x: 0, y: 2 },
];

/// Expects the upper half's pixels and spans.
fn upper_half(rt: &impl Abort, alloc: Global, setup: &Setup) -> Result<(), Fail> {
    let points: Vec<Point> = setup.for_rect(&SQUARE).collect(alloc)?;
    assert!(rt; points.as_slice() == UPPER.as_slice());
    assert!(rt; setup.span(0, &SQUARE) == Some(Span { x1: 0, x2: 3 }));
    assert!(rt; setup.span(2, &SQUARE) == Some(Span { x1: 0, x2: 1 }));
    assert!(rt; setup.span(3, &SQUARE).is_none());
    Ok(())
}

/// Of the largest triangle: twice its area, and the sum of its depths at the centre of the pixel (-1, -1) before it is divided.
fn largest_numbers()
    ensures doubled { area largest ≡ pos 4294836225 }
    ensures sum { weighed (turned largest) (λ v. v.z) (centre (neg_ℤ (pos 1)) (neg_ℤ (pos 1))) ≡ pos 281462092005375 }
{}

/// What its corners carry, and so each of its pixels.
const CARRIED: [(Channel, u32); 7] = [
    (Channel::Z, 65535),
    (Channel::R, 255),
    (Channel::G, 128),
    (Channel::B, 64),
    (Channel::A, 0),
    (Channel::S, 16),
    (Channel::T, 32),
];

/// The largest triangle, at a pixel of its middle.
#[test]
fn largest(rt: HostRuntime) {
    largest_numbers();
    let triangle = Triangle {
        a: corner(-32768, -32768),
        b: corner(32767, -32768),
        c: corner(-32768, 32767),
    };
    let setup = Setup::new(&triangle).expect(&rt, "the triangle has an area");
    assert!(rt; setup.covers(-1, -1));
    for (channel, value) in &CARRIED {
        assert!(rt; setup.value_at(*channel, -1, -1) == *value);
    }
}

/// A quantity along a row, by steps.
#[test]
fn running(rt: HostRuntime) {
    covered_is_amid();
    let triangle = Triangle {
        a: deep(0, 0, 0),
        b: deep(64, 0, 64),
        c: deep(0, 64, 0),
    };
    let setup = Setup::new(&triangle).expect(&rt, "the triangle has an area");
    assert!(rt; setup.covers(0, 0) && setup.covers(1, 0) && setup.covers(2, 0));
    let mut runner = setup.runner(Channel::Z, 0, 0);
    assert!(rt; runner.value() == 8);
    runner.step();
    runner.step();
    assert!(rt; runner.value() == 40);
}

/// Three equal points have no area.
#[test]
fn empty(rt: HostRuntime) {
    let triangle = Triangle {
        a: corner(5, 5),
        b: corner(5, 5),
        c: corner(5, 5),
    };
    assert!(rt; Setup::new(&triangle).is_none());
}

/// The middle of the plane.
const MIDDLE: Rect = Rect {
    x1: -2,
    y1: -2,
    x2: 2,
    y2: 2,
};

/// A corner at a place in range.
fn placed<R: Abort>(rt: &R, place: (i32, i32)) -> Vertex
    ensures { VertexInRange result }
{
    let (x, y) = place;
    assert!(rt; -32768 <= x && x <= 32767);
    assert!(rt; -32768 <= y && y <= 32767);
    corner(x, y)
}

/// A triangle of three places in range.
fn triangle<R: Abort>(rt: &R, places: [(i32, i32); 3]) -> Triangle
    ensures { TriangleInRange result }
{
    Triangle {
        a: placed(rt, places[0]),
        b: placed(rt, places[1]),
        c: placed(rt, places[2]),
    }
}

/// The places of a triangle's corners, and how many pixels it covers of the square and of the middle.
type Covered = ([(i32, i32); 3], usize, usize);

/// Of the square: one a pixel wide, one of a row, and those that lie wholly left, right, above and below; of the middle: one
/// whose corners are as far apart as can be.
const ODD: [Covered; 7] = [
    ([(16, 0), (32, 0), (16, 64)], 2, 2),
    ([(0, 0), (64, 0), (0, 16)], 2, 2),
    ([(-64, 0), (-16, 0), (-64, 64)], 0, 1),
    ([(80, 0), (144, 0), (80, 64)], 0, 0),
    ([(0, -64), (64, -64), (0, -16)], 0, 1),
    ([(0, 80), (64, 80), (0, 144)], 0, 0),
    ([(-32768, -32768), (32767, -32768), (-32768, 32767)], 0, 6),
];

#[test]
fn odd(rt: HostRuntime) -> Result<(), Fail> {
    for (places, in_square, in_middle) in &ODD {
        let setup = Setup::new(&triangle(&rt, *places)).expect(&rt, "the triangle has an area");
        let square: Vec<Point> = setup.for_rect(&SQUARE).collect(rt.alloc())?;
        let middle: Vec<Point> = setup.for_rect(&MIDDLE).collect(rt.alloc())?;
        assert!(rt; square.len() == *in_square && middle.len() == *in_middle);
    }
    Ok(())
}
