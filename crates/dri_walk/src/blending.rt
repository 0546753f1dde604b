//! The blendings, a type for each, so that the one of a triangle is decided once.

ghost use Rattle.std.specs.Prelude.{◌≡◌};
ghost use Rattle.dri_base.specs.declared.state.Blend.{Blend};
ghost use Rattle.dri_base.specs.declared.state.Blend.TheVariants as blends;
ghost use Rattle.dri_base.specs.Fragments.{over};

use dri_base::{Rgb, Rgba};
use dri_texel::{added, mixed, opaque};

/// A blending: what a colour becomes over the one under it.
pub trait Blending {
    ghost blend: { Blend };

    /// The colour over the one under it.
    fn blended(colour: Rgba, under: Rgb) -> Rgb
        ensures { result ≡ over blend colour under };
}

/// The colour itself.
pub struct Opaque;

/// The colour mixed with the one under it by its alpha.
pub struct Mixed;

/// The sum of both.
pub struct Added;

impl Blending for Opaque {
    ghost blend = { blends.Off };

    fn blended(colour: Rgba, _under: Rgb) -> Rgb {
        opaque(colour)
    }
}

impl Blending for Mixed {
    ghost blend = { blends.Alpha };

    fn blended(colour: Rgba, under: Rgb) -> Rgb {
        mixed(colour, under)
    }
}

impl Blending for Added {
    ghost blend = { blends.Add };

    fn blended(colour: Rgba, under: Rgb) -> Rgb {
        added(colour, under)
    }
}
