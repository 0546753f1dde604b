//! The rows and columns that hold what a triangle covers: those whose centres lie between its corners.

ghost use Rattle.std.specs.Prelude.{◌≡◌, ◌↔◌, ℤ, pos, ◌+ℤ◌, ◌*ℤ◌, ◌≤ℤ◌, ◌<ℤ◌, true};
ghost use Rattle.dri_base.specs.Coverage.{centre, covers};
ghost use Rattle.dri_base.specs.Ranges.{IsVertexPlace, TriangleInRange};
ghost use Rattle.dri_raster.specs.Edges.{IsPixel};
ghost use Rattle.dri_raster.specs.Reach.{IsAmid};
ghost use Rattle.dri_raster.specs.Spans.{in_bounds};
ghost use Rattle.dri_raster.specs.Walks.{IsNear};

use crate::grid::{HALF, ROUNDED_UP, UNITS};
use crate::span::Span;
use dri_base::{Rect, Triangle};

/// The pixels whose centres lie between the triangle's corners, among them each that it covers.
pub fn frame(triangle: &Triangle) -> Rect
    requires { TriangleInRange triangle.now }
    ensures pixels { (x y : ℤ) → IsAmid triangle.now (centre x y) ↔ (in_bounds result x y ≡ true) }
    ensures holds { (x y : ℤ) → covers triangle.now x y ≡ true → in_bounds result x y ≡ true }
    ensures near { IsNear result }
{
    let (a, b, c) = (&triangle.a, &triangle.b, &triangle.c);
    let columns = among(a.x, b.x, c.x);
    let rows = among(a.y, b.y, c.y);
    Rect {
        x1: columns.x1,
        y1: rows.x1,
        x2: columns.x2,
        y2: rows.x2,
    }
}

/// The columns or rows whose centres lie among three places.
fn among(a: i32, b: i32, c: i32) -> Span
    requires a { IsVertexPlace a }
    requires b { IsVertexPlace b }
    requires c { IsVertexPlace c }
    ensures first { (n : ℤ) → ((k : ℤ) → k ≤ℤ a → k ≤ℤ b → k ≤ℤ c → k ≤ℤ ((pos 16 *ℤ n) +ℤ pos 8)) ↔ (result.x1 ≤ℤ n) }
    ensures past { (n : ℤ) → ((k : ℤ) → a ≤ℤ k → b ≤ℤ k → c ≤ℤ k → ((pos 16 *ℤ n) +ℤ pos 8) ≤ℤ k) ↔ (n <ℤ result.x2) }
    ensures near { IsPixel result.x1 × IsPixel result.x2 }
{
    let x1 = first(least(a, b, c));
    let x2 = past(greatest(a, b, c));
    Span { x1, x2 }
}

/// The rectangle, cut down to the rows from `top` up to `bottom`.
pub fn cut_rows(rect: &Rect, top: i32, bottom: i32) -> Rect
    requires near { IsNear rect.now }
    requires top { IsPixel top }
    requires bottom { IsPixel bottom }
    ensures near { IsNear result }
    ensures x1 { result.x1 ≡ rect.now.x1 }
    ensures x2 { result.x2 ≡ rect.now.x2 }
    ensures above { rect.now.y1 ≤ℤ result.y1 }
    ensures below { result.y2 ≤ℤ rect.now.y2 }
    ensures from { (y : ℤ) → top ≤ℤ y → rect.now.y1 ≤ℤ y → result.y1 ≤ℤ y }
    ensures until { (y : ℤ) → y <ℤ bottom → y <ℤ rect.now.y2 → y <ℤ result.y2 }
{
    Rect {
        x1: rect.x1,
        y1: later(rect.y1, top),
        x2: rect.x2,
        y2: earlier(rect.y2, bottom),
    }
}

fn earlier(a: i32, b: i32) -> i32
    requires a { IsPixel a }
    requires b { IsPixel b }
    ensures a { result ≤ℤ a }
    ensures one { (n : ℤ) → n <ℤ a → n <ℤ b → n <ℤ result }
    ensures near { IsPixel result }
{
    if a < b { a } else { b }
}

fn later(a: i32, b: i32) -> i32
    requires a { IsPixel a }
    requires b { IsPixel b }
    ensures a { a ≤ℤ result }
    ensures one { (n : ℤ) → a ≤ℤ n → b ≤ℤ n → result ≤ℤ n }
    ensures near { IsPixel result }
{
    if a < b { b } else { a }
}

/// The first column or row whose centre isn't before a place of -32,768 to 32,767, in sixteenths of a pixel.
pub fn first(place: i32) -> i32
    requires { IsVertexPlace place }
    ensures first { (n : ℤ) → (place ≤ℤ ((pos 16 *ℤ n) +ℤ pos 8)) ↔ (result ≤ℤ n) }
    ensures near { IsPixel result }
{
    (place + ROUNDED_UP).div_euclid(UNITS)
}

/// The first column or row whose centre is past a place.
fn past(place: i32) -> i32
    requires { IsVertexPlace place }
    ensures past { (n : ℤ) → (((pos 16 *ℤ n) +ℤ pos 8) ≤ℤ place) ↔ (n <ℤ result) }
    ensures near { IsPixel result }
{
    (place + HALF).div_euclid(UNITS)
}

fn least(a: i32, b: i32, c: i32) -> i32
    requires a { IsVertexPlace a }
    requires b { IsVertexPlace b }
    requires c { IsVertexPlace c }
    ensures a { result ≤ℤ a }
    ensures b { result ≤ℤ b }
    ensures c { result ≤ℤ c }
    ensures one { (k : ℤ) → k ≤ℤ a → k ≤ℤ b → k ≤ℤ c → k ≤ℤ result }
    ensures in_range { IsVertexPlace result }
{
    if a < b {
        if a < c { a } else { c }
    } else if b < c {
        b
    } else {
        c
    }
}

fn greatest(a: i32, b: i32, c: i32) -> i32
    requires a { IsVertexPlace a }
    requires b { IsVertexPlace b }
    requires c { IsVertexPlace c }
    ensures a { a ≤ℤ result }
    ensures b { b ≤ℤ result }
    ensures c { c ≤ℤ result }
    ensures one { (k : ℤ) → a ≤ℤ k → b ≤ℤ k → c ≤ℤ k → result ≤ℤ k }
    ensures in_range { IsVertexPlace result }
{
    if b < a {
        if c < a { a } else { c }
    } else if c < b {
        b
    } else {
        c
    }
}
