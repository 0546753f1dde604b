//! The colour of a triangle's pixel before it is blended: the triangle's own, or what a texel makes of that. Each way has a
//! type, so that the one of a triangle is decided once, and another for what it keeps along a row, where only the quantities
//! that it needs are stepped. All are inlined into the walk.

ghost use Rattle.std.specs.Prelude.{◌≡◌, ℤ, pos, ◌+ℤ◌, IsTrue};
ghost use Rattle.dri_base.specs.declared.colour.Rgba.{Rgba};
ghost use Rattle.dri_base.specs.declared.shape.Triangle.{Triangle};
ghost use Rattle.dri_base.specs.declared.state.Shade.TheVariants as shades;
ghost use Rattle.dri_base.specs.declared.state.TexMode.TheVariants as modes;
ghost use Rattle.dri_base.specs.Coverage.{covers, quantity};
ghost use Rattle.dri_base.specs.Fragments.{shaded, textured};
ghost use Rattle.dri_walk.specs.Rows.{AreColoursAt, AreTexturedAt};
ghost use Rattle.dri_walk.specs.Samplings.{sampled};

use crate::sampler::Sampler;
use dri_base::Rgba;
use dri_raster::{Channel, Runner, Setup};
use dri_texel::{modulated, replaced};

/// A way to colour a triangle's pixels.
pub trait Colouring {
    type Row: ColourRow + Drop;

    ghost colours: { Self → Triangle → ℤ → ℤ → Rgba };

    ghost fits: { Self → Triangle → Type 0 };

    /// The colours along a row of the triangle that it was made for, from a pixel on that the triangle covers.
    fn start(&self, setup: &Setup, x: i32, y: i32) -> Self::Row
        requires fits { fits self.now setup.now }
        requires covered { IsTrue (covers setup.now x y) }
        ensures at { Self.Row.stands result setup.now x y }
        ensures same { Self.Row.colour_at result ≡ colours self.now };
}

/// The colours of a triangle's pixels along a row, from left to right.
pub trait ColourRow {
    ghost colour_at: { Self → Triangle → ℤ → ℤ → Rgba };

    ghost stands: { Self → Triangle → ℤ → ℤ → Type 0 };

    /// The colour at pixel (x, y), where it stands.
    fn colour(&self, setup: &Setup, x: i32, y: i32) -> Rgba
        requires { stands self.now setup.now x y }
        ensures { result ≡ colour_at self.now setup.now x y };

    /// Goes on from pixel (x, y), where it stands, to the next, which the triangle covers.
    fn step(&mut self, setup: &Setup, x: i32, y: i32)
        requires at { stands self.old setup.now x y }
        requires covered { IsTrue (covers setup.now (x +ℤ pos 1) y) }
        ensures at { stands self.new setup.now (x +ℤ pos 1) y }
        ensures same { colour_at self.new ≡ colour_at self.old };
}

/// One colour for all pixels.
#[derive(Clone, Copy)]
pub struct Flat {
    pub colour: Rgba,
}

/// The colours of the corners, by the distances to them.
#[derive(Drop)]
pub struct Smooth<'a> {
    pub setup: &'a Setup,
}

/// Those along a row.
#[derive(Drop)]
pub struct SmoothRow<'a> {
    r: Runner<'a>,
    g: Runner<'a>,
    b: Runner<'a>,
    a: Runner<'a>,
}

/// The texel in place of the triangle's own colour.
#[derive(Drop)]
pub struct Replaced<'c, 'a, C> {
    pub own: &'c C,
    pub setup: &'a Setup,
    pub sampler: &'a Sampler<'a>,
}

/// Those along a row.
#[derive(Drop)]
pub struct ReplacedRow<'a, R> {
    own: R,
    s: Runner<'a>,
    t: Runner<'a>,
    sampler: &'a Sampler<'a>,
}

/// The product of the texel and the triangle's own colour.
#[derive(Drop)]
pub struct Modulated<'c, 'a, C> {
    pub own: &'c C,
    pub setup: &'a Setup,
    pub sampler: &'a Sampler<'a>,
}

/// Those along a row.
#[derive(Drop)]
pub struct ModulatedRow<'a, R> {
    own: R,
    s: Runner<'a>,
    t: Runner<'a>,
    sampler: &'a Sampler<'a>,
}

impl Colouring for Flat {
    type Row = Flat;

    ghost colours = { λ it t x y. it.colour };

    ghost fits = { λ it t. Unit {0} };

    #[inline(always)]
    fn start(&self, _setup: &Setup, _x: i32, _y: i32) -> Flat {
        *self
    }
}

impl ColourRow for Flat {
    ghost colour_at = { λ it t x y. it.colour };

    ghost stands = { λ it t x y. Unit {0} };

    #[inline(always)]
    fn colour(&self, _setup: &Setup, _x: i32, _y: i32) -> Rgba {
        self.colour
    }

    #[inline(always)]
    fn step(&mut self, _setup: &Setup, _x: i32, _y: i32) {}
}

impl<'a> Colouring for Smooth<'a> {
    type Row = SmoothRow<'a>;

    ghost colours = { λ it t x y. shaded shades.Smooth t x y };

    ghost fits = { λ it t. it.setup.now ≡ t };

    #[inline(always)]
    fn start(&self, _setup: &Setup, x: i32, y: i32) -> SmoothRow<'a> {
        SmoothRow {
            r: self.setup.runner(Channel::R, x, y),
            g: self.setup.runner(Channel::G, x, y),
            b: self.setup.runner(Channel::B, x, y),
            a: self.setup.runner(Channel::A, x, y),
        }
    }
}

impl<'a> ColourRow for SmoothRow<'a> {
    ghost colour_at = { λ it t x y. shaded shades.Smooth t x y };

    ghost stands = { λ it t x y. AreColoursAt it.r it.g it.b it.a t x y };

    #[inline(always)]
    fn colour(&self, _setup: &Setup, _x: i32, _y: i32) -> Rgba {
        Rgba {
            r: self.r.value() as u8,
            g: self.g.value() as u8,
            b: self.b.value() as u8,
            a: self.a.value() as u8,
        }
    }

    #[inline(always)]
    fn step(&mut self, _setup: &Setup, _x: i32, _y: i32) {
        self.r.step();
        self.g.step();
        self.b.step();
        self.a.step();
    }
}

impl<'c, 'a, C: Colouring> Colouring for Replaced<'c, 'a, C> {
    type Row = ReplacedRow<'a, C::Row>;

    ghost colours = { λ it t x y. textured modes.Replace (sampled it.sampler.now (quantity t (λ v. v.s) x y) (quantity t (λ v. v.t) x y)) (C.colours it.own.now t x y) };

    ghost fits = { λ it t. (C.fits it.own.now t) × (it.setup.now ≡ t) };

    #[inline(always)]
    fn start(&self, setup: &Setup, x: i32, y: i32) -> ReplacedRow<'a, C::Row> {
        ReplacedRow {
            own: self.own.start(setup, x, y),
            s: self.setup.runner(Channel::S, x, y),
            t: self.setup.runner(Channel::T, x, y),
            sampler: self.sampler,
        }
    }
}

impl<'a, R: ColourRow> ColourRow for ReplacedRow<'a, R> {
    ghost colour_at = { λ it t x y. textured modes.Replace (sampled it.sampler.now (quantity t (λ v. v.s) x y) (quantity t (λ v. v.t) x y)) (R.colour_at it.own t x y) };

    ghost stands = { λ it t x y. AreTexturedAt (R.stands it.own) it.s it.t t x y };

    #[inline(always)]
    fn colour(&self, setup: &Setup, x: i32, y: i32) -> Rgba {
        let texel = self.sampler.texel_at(self.s.value(), self.t.value());
        replaced(texel, self.own.colour(setup, x, y))
    }

    #[inline(always)]
    fn step(&mut self, setup: &Setup, x: i32, y: i32) {
        self.own.step(setup, x, y);
        self.s.step();
        self.t.step();
    }
}

impl<'c, 'a, C: Colouring> Colouring for Modulated<'c, 'a, C> {
    type Row = ModulatedRow<'a, C::Row>;

    ghost colours = { λ it t x y. textured modes.Modulate (sampled it.sampler.now (quantity t (λ v. v.s) x y) (quantity t (λ v. v.t) x y)) (C.colours it.own.now t x y) };

    ghost fits = { λ it t. (C.fits it.own.now t) × (it.setup.now ≡ t) };

    #[inline(always)]
    fn start(&self, setup: &Setup, x: i32, y: i32) -> ModulatedRow<'a, C::Row> {
        ModulatedRow {
            own: self.own.start(setup, x, y),
            s: self.setup.runner(Channel::S, x, y),
            t: self.setup.runner(Channel::T, x, y),
            sampler: self.sampler,
        }
    }
}

impl<'a, R: ColourRow> ColourRow for ModulatedRow<'a, R> {
    ghost colour_at = { λ it t x y. textured modes.Modulate (sampled it.sampler.now (quantity t (λ v. v.s) x y) (quantity t (λ v. v.t) x y)) (R.colour_at it.own t x y) };

    ghost stands = { λ it t x y. AreTexturedAt (R.stands it.own) it.s it.t t x y };

    #[inline(always)]
    fn colour(&self, setup: &Setup, x: i32, y: i32) -> Rgba {
        let texel = self.sampler.texel_at(self.s.value(), self.t.value());
        modulated(texel, self.own.colour(setup, x, y))
    }

    #[inline(always)]
    fn step(&mut self, setup: &Setup, x: i32, y: i32) {
        self.own.step(setup, x, y);
        self.s.step();
        self.t.step();
    }
}
