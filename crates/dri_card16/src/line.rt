//! A line: a triangle that a card with lines draws from its first vertex to its second. A line is laid along x: one that is
//! y-major has x and y exchanged, so that a column, below, is a row for it. It has a span of columns, and in each one pixel with
//! quantities of its own.

ghost use Rattle.std.specs.Prelude.{◌≡◌, ◌/◌, ◌≤◌, ◌<◌, ◌+◌, ◌*◌, ℕ, ℤ, pos, ◌+ℤ◌, ◌-ℤ◌, ◌*ℤ◌, ◌≤ℤ◌, ◌<ℤ◌, neg_ℤ, true, false};
ghost use Rattle.std.specs.Int.{int_div_euclid};
ghost use Rattle.dri_base.specs.Ranges.{TriangleInRange};
ghost use Rattle.dri_base.specs.declared.state.Shade.TheVariants as Shade_is;
ghost use Rattle.dri_card16.specs.Dots.{IsLineInRange, vertex_in};
ghost use Rattle.dri_card16.specs.LineExamples.{as_long, line_between, steep, steep_upwards, to_the_left, to_the_right, upwards};
ghost use Rattle.dri_card16.specs.Lines.{between, colour_in, exchanged, has_pixel, is_line, is_x_major, line_covers, line_of, line_quantity, middle, rising, row_in};
ghost use Rattle.dri_raster.specs.Edges.{IsPixel, IsWithin};

use dri_base::{Rgba, Shade, Triangle, Vertex};

/// How many sixteenths a pixel has along a side.
pub const UNITS: i32 = 16;

/// How far a pixel's centre lies from its sides, in sixteenths.
const HALF: i32 = 8;

/// Whether a triangle is a line: its second and third vertices stand at one place, and its first at another.
pub fn is_line(triangle: &Triangle) -> bool
    ensures { result ≡ is_line triangle.now }
{
    let (a, b, c) = (&triangle.a, &triangle.b, &triangle.c);
    b.x == c.x && b.y == c.y && !(a.x == b.x && a.y == b.y)
}

/// A line that is laid along x, from its lower end to its upper one, and the colour that it has where it is flat.
#[derive(Clone, Copy)]
pub struct Line {
    pub first: Vertex,
    pub last: Vertex,
    pub x_major: bool,
    pub flat: Rgba,
}

/// A vertex with x and y exchanged.
fn exchanged(vertex: &Vertex) -> Vertex
    ensures { result ≡ exchanged vertex.now }
{
    Vertex {
        x: vertex.y,
        y: vertex.x,
        ..*vertex
    }
}

/// The line between two vertices that are laid along x.
fn rising(x_major: bool, flat: Rgba, a: &Vertex, b: &Vertex) -> Line
    ensures { result ≡ rising x_major flat a.now b.now }
{
    if b.x < a.x {
        Line {
            first: *b,
            last: *a,
            x_major,
            flat,
        }
    } else {
        Line {
            first: *a,
            last: *b,
            x_major,
            flat,
        }
    }
}

/// Whether a triangle's line goes at least as far across as down. Coordinates are -32,768 to 32,767.
fn is_x_major(triangle: &Triangle) -> bool
    requires { TriangleInRange triangle.now }
    ensures { result ≡ is_x_major triangle.now }
{
    let (a, b) = (&triangle.a, &triangle.b);
    (b.y - a.y).unsigned_abs() <= (b.x - a.x).unsigned_abs()
}

/// The centre of column n.
fn middle(n: i32) -> i32
    requires { IsPixel n }
    ensures value { result ≡ middle n }
    ensures small { IsWithin 65544 result }
{
    UNITS * n + HALF
}

/// How far one place lies behind another, which isn't before it.
fn ahead_of(place: i32, of: i32) -> u32
    requires place { IsWithin 65544 place }
    requires other { IsWithin 65544 of }
    requires behind { of ≤ℤ place }
    ensures { pos result ≡ place -ℤ of }
{
    (place - of).unsigned_abs()
}

/// Two numbers by their weights, rounded down.
fn weighed(p: u32, u: u16, q: u32, v: u16) -> u16
    requires some { 0 < p }
    requires p { p ≤ 65535 }
    requires q { q ≤ 65535 }
    ensures value { result ≡ (p * u + q * v) / (p + q) }
    ensures most { (k : ℕ) → u ≤ k → v ≤ k → result ≤ k }
{
    let sum = times(p, u) + times(q, v);
    (sum / u64::from(p + q)) as u16
}

fn times(p: u32, u: u16) -> u64
    requires { p ≤ 65535 }
    ensures value { result ≡ p * u }
    ensures small { result ≤ 4294836225 }
{
    u64::from(p) * u64::from(u)
}

/// The product of two numbers.
fn product(a: i64, b: i64) -> i64
    requires a { IsWithin 65535 a }
    requires b { IsWithin 65535 b }
    ensures value { result ≡ a *ℤ b }
    ensures small { IsWithin 4294836225 result }
{
    a * b
}

/// The pixel of a height in sixteenths, rounded down.
fn pixel_of(height: i64) -> i64
    requires height { IsWithin 8589934592 height }
    ensures value { result ≡ int_div_euclid height (pos 16) }
    ensures small { IsWithin 8589934593 result }
{
    height.div_euclid(i64::from(UNITS))
}

/// The quotient, rounded down.
fn floor(number: i64, divisor: i64) -> i64
    requires number { IsWithin 4294901769 number }
    requires positive { pos 0 <ℤ divisor }
    requires small { IsWithin 1048576 divisor }
    ensures value { result ≡ int_div_euclid number divisor }
    ensures small { IsWithin 4294901770 result }
{
    number.div_euclid(divisor)
}

impl Line {
    /// The line from a triangle's first vertex to its second, flat in the colour of the third. Coordinates are -32,768 to 32,767.
    pub fn new(triangle: &Triangle) -> Line
        requires { TriangleInRange triangle.now }
        ensures value { result ≡ line_of triangle.now }
        ensures in_range { IsLineInRange result }
    {
        let (a, b) = (&triangle.a, &triangle.b);
        let flat = triangle.c.colour;
        if is_x_major(triangle) {
            rising(true, flat, a, b)
        } else {
            rising(false, flat, &exchanged(a), &exchanged(b))
        }
    }

    /// How far column n's centre lies from the lower end.
    fn behind(&self, n: i32) -> u32
        requires in_range { IsLineInRange self.now }
        requires near { IsPixel n }
        requires pixel { has_pixel self.now n ≡ true }
        ensures value { pos result ≡ middle n -ℤ self.now.first.x }
        ensures small { result ≤ 65535 }
    {
        ahead_of(middle(n), self.first.x)
    }

    /// How far the upper end lies from column n's centre.
    fn ahead(&self, n: i32) -> u32
        requires in_range { IsLineInRange self.now }
        requires near { IsPixel n }
        requires pixel { has_pixel self.now n ≡ true }
        ensures value { pos result ≡ self.now.last.x -ℤ middle n }
        ensures some { 0 < result }
        ensures small { result ≤ 65535 }
    {
        ahead_of(self.last.x, middle(n))
    }

    /// The row of the line's pixel in column n, which has one.
    pub fn row_in(&self, n: i32) -> i64
        requires in_range { IsLineInRange self.now }
        requires near { IsPixel n }
        requires pixel { has_pixel self.now n ≡ true }
        ensures value { result ≡ row_in self.now n }
        ensures small { IsWithin 8589934593 result }
    {
        let behind = i64::from(self.behind(n));
        let length = behind + i64::from(self.ahead(n));
        let rise = i64::from(self.last.y) - i64::from(self.first.y);
        let height = i64::from(self.first.y) + floor(product(rise, behind), length);
        pixel_of(height)
    }

    /// Two numbers of the ends in column n, which has a pixel. What both are at most it is too.
    fn between(&self, u: u16, v: u16, n: i32) -> u16
        requires in_range { IsLineInRange self.now }
        requires near { IsPixel n }
        requires pixel { has_pixel self.now n ≡ true }
        ensures value { result ≡ between self.now u v n }
        ensures most { (k : ℕ) → u ≤ k → v ≤ k → result ≤ k }
    {
        weighed(self.ahead(n), u, self.behind(n), v)
    }

    /// One channel of the ends' colours in column n, which has a pixel.
    fn channel(&self, u: u8, v: u8, n: i32) -> u8
        requires in_range { IsLineInRange self.now }
        requires near { IsPixel n }
        requires pixel { has_pixel self.now n ≡ true }
        ensures { result ≡ between self.now u v n }
    {
        self.between(u16::from(u), u16::from(v), n) as u8
    }

    /// The line's own colour in column n, which has a pixel.
    fn colour_in(&self, shade: Shade, n: i32) -> Rgba
        requires in_range { IsLineInRange self.now }
        requires near { IsPixel n }
        requires pixel { has_pixel self.now n ≡ true }
        ensures { result ≡ colour_in shade self.now n }
    {
        let (u, v) = (&self.first.colour, &self.last.colour);
        match shade {
            Shade::Flat => self.flat,
            Shade::Smooth => Rgba {
                r: self.channel(u.r, v.r, n),
                g: self.channel(u.g, v.g, n),
                b: self.channel(u.b, v.b, n),
                a: self.channel(u.a, v.a, n),
            },
        }
    }

    /// The line's quantities in column n, which has a pixel, as those of a vertex.
    pub fn vertex_in(&self, shade: Shade, n: i32) -> Vertex
        requires in_range { IsLineInRange self.now }
        requires near { IsPixel n }
        requires pixel { has_pixel self.now n ≡ true }
        ensures { result ≡ vertex_in shade self.now n }
    {
        let (u, v) = (&self.first, &self.last);
        Vertex {
            x: 0,
            y: 0,
            z: self.between(u.z, v.z, n),
            colour: self.colour_in(shade, n),
            s: self.between(u.s, v.s, n),
            t: self.between(u.t, v.t, n),
        }
    }
}

/// Lines that were worked by hand. One goes across, four pixels long, and covers the same pixels from either end, each with the
/// values of its own end; one is y-major; one goes up; of one as long across as down the height rounds down in its column; one is a
/// sixteenth long, and covers the pixel whose centre it begins at. A flat line has the colour of the third vertex. They do nothing.
pub fn worked_lines()
    ensures line { is_line to_the_right ≡ true }
    ensures point { is_line (line_between (pos 8) (pos 8) (pos 8) (pos 8)) ≡ false }
    ensures first { line_covers to_the_right (pos 0) (pos 0) ≡ true }
    ensures last { line_covers to_the_right (pos 3) (pos 0) ≡ true }
    ensures past { line_covers to_the_right (pos 4) (pos 0) ≡ false }
    ensures below { line_covers to_the_right (pos 0) (pos 1) ≡ false }
    ensures red { line_quantity to_the_right (λ v. v.colour.r) (pos 0) (pos 0) ≡ 223 }
    ensures green { line_quantity to_the_right (λ v. v.colour.g) (pos 0) (pos 0) ≡ 31 }
    ensures back_first { line_covers to_the_left (pos 0) (pos 0) ≡ true }
    ensures back_past { line_covers to_the_left (pos 4) (pos 0) ≡ false }
    ensures back_red { line_quantity to_the_left (λ v. v.colour.r) (pos 0) (pos 0) ≡ 31 }
    ensures steep_first { line_covers steep (pos 0) (pos 0) ≡ true }
    ensures steep_last { line_covers steep (pos 1) (pos 3) ≡ true }
    ensures steep_red { line_quantity steep (λ v. v.colour.r) (pos 1) (pos 3) ≡ 31 }
    ensures steep_beside { line_covers steep (pos 1) (pos 0) ≡ false }
    ensures steep_up { line_covers steep_upwards (pos 1) (pos 3) ≡ true }
    ensures steep_up_red { line_quantity steep_upwards (λ v. v.colour.r) (pos 1) (pos 3) ≡ 223 }
    ensures up_first { line_covers upwards (pos 0) (neg_ℤ (pos 1)) ≡ true }
    ensures up_last { line_covers upwards (pos 1) (neg_ℤ (pos 2)) ≡ true }
    ensures equal { line_covers as_long (pos 0) (pos 1) ≡ true }
    ensures not_y_major { line_covers as_long (pos 0) (pos 0) ≡ false }
    ensures short { line_covers (line_between (pos 8) (pos 8) (pos 9) (pos 8)) (pos 0) (pos 0) ≡ true }
    ensures short_back { line_covers (line_between (pos 9) (pos 8) (pos 8) (pos 8)) (pos 0) (pos 0) ≡ true }
    ensures between_centres { line_covers (line_between (pos 9) (pos 8) (pos 24) (pos 8)) (pos 0) (pos 0) ≡ false }
    ensures flat { colour_in Shade_is.Flat (line_of to_the_right) (pos 0) ≡ record { r = 0; g = 0; b = 255; a = 255 } }
{}
