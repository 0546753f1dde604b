//! The texture that a triangle is drawn with: where its image lies in the texture memory, what is beyond its sides, and what
//! its texels do to the triangle's colour.

ghost use Rattle.std.specs.Prelude.{◌≡◌, ◌≤◌, ℕ, Some, length};
ghost use Rattle.dri_base.specs.declared.colour.Rgba.{Rgba};
ghost use Rattle.dri_model.specs.Words.{IsBoundInRange, card_image};
ghost use Rattle.dri_texel.specs.Pixels.{coloured, texel_used};
ghost use Rattle.dri_walk.specs.Drawings.{turned};
ghost use Rattle.dri_walk.specs.Samplings.{IsImageWithin, Sampling, byte_in, sampled};

use dri_base::{BoundTexture, Registers, Rgb, TexMode, Wrap};
use dri_texel::{Side, texel_at};
use std::marker::Model;

/// An image in the texture memory. Contracts see the memory's bytes, where the image begins, its shape, and the wrapping.
#[derive(Drop)]
pub struct Sampler<'a> {
    memory: &'a [u8],
    bound: BoundTexture,
    wrap: Wrap,
    columns: Side,
    rows: Side,
}

impl<'a> Model for Sampler<'a> {
    ghost use Rattle.dri_walk.specs.Samplings.{Sampling};
    ghost use Rattle.dri_walk.specs.Samplers.{IsSampler, sampling};

    ghost Value = { Sampling };

    ghost view = { sampling };

    ghost invariant = { IsSampler };
}

impl<'a> Sampler<'a> {
    /// A bound image has sides of 1 to 256 and lies within the memory.
    fn new(memory: &'a [u8], bound: BoundTexture, wrap: Wrap) -> Sampler<'a>
        requires bound { IsBoundInRange (Some bound) }
        requires within { IsImageWithin (length memory.now) (Some bound) }
        ensures { result ≡ record { memory = memory.now; bound = bound; wrap = wrap } }
    {
        Sampler {
            memory,
            bound,
            wrap,
            columns: Side::new(wrap, bound.shape.width),
            rows: Side::new(wrap, bound.shape.height),
        }
    }

    /// The texel at the coordinates `s` and `t`, in sixteenths of a texel, each at most 65,535.
    #[inline(always)]
    pub fn texel_at(&self, s: u32, t: u32) -> Rgb
        requires s { s ≤ 65535 }
        requires t { t ≤ 65535 }
        ensures { result ≡ sampled self.now s t }
    {
        let shape = &self.bound.shape;
        let row = self.rows.wrapped(t / 16);
        let column = self.columns.wrapped(s / 16);
        texel_at(
            self.memory,
            self.bound.base,
            shape,
            row * shape.width + column,
        )
    }
}

/// What a texture does to a triangle's own colour: nothing, or a texel takes its place or is multiplied with it.
#[derive(Drop)]
pub enum Texture<'a> {
    Off,
    Replace(Sampler<'a>),
    Modulate(Sampler<'a>),
}

impl<'a> Texture<'a> {
    /// The texture that the registers use: none where the mode is off or nothing is bound. A bound image has sides of 1 to
    /// 256 and lies within the memory.
    pub fn new(registers: &Registers, memory: &'a [u8]) -> Texture<'a>
        requires bound { IsBoundInRange registers.now.bound }
        requires within { IsImageWithin (length memory.now) registers.now.bound }
        ensures { (s t : ℕ) (c : Rgba) → turned result s t c ≡ coloured registers.now.tex_mode (texel_used registers.now.tex_mode (card_image (byte_in memory.now) registers.now.bound) registers.now.wrap s t) c }
    {
        let Some(bound) = registers.bound else {
            return Texture::Off;
        };
        let wrap = registers.wrap;
        match registers.tex_mode {
            TexMode::Off => Texture::Off,
            TexMode::Replace => Texture::Replace(Sampler::new(memory, bound, wrap)),
            TexMode::Modulate => Texture::Modulate(Sampler::new(memory, bound, wrap)),
        }
    }
}
