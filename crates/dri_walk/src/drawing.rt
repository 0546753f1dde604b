//! The drawing of one triangle. What the registers say is looked up once. The shading, the texture mode and the blending are
//! types, which `draw` chooses, and the walk over the pixels is made for each choice of them. The rest is kept as values: at
//! each pixel the depth test reads one of its three flags, what is drawn asks whether depth is written, and a texel asks
//! each side for its wrapping and the image for its format.

ghost use Rattle.std.specs.Prelude.{◌≡◌, ◌≤◌, ◌+◌, ◌*◌, ℕ, length, IsNone, IfSome, IsTrue, ◌↔◌, pos};
ghost use Rattle.dri_base.specs.Coverage.{area, covers};
ghost use Rattle.dri_base.specs.Ranges.{IsPlace, TriangleInRange};
ghost use Rattle.dri_model.specs.Words.{IsBoundInRange, IsScissorInRange, card_image, rules_in};
ghost use Rattle.dri_base.specs.Planes.{in_rect};
ghost use Rattle.dri_plane.specs.Grids.{IsInside};
ghost use Rattle.dri_walk.specs.Clips.{covered_places};
ghost use Rattle.dri_walk.specs.Drawings.{after_drawing, fragment_kept, pair_by, pair_left, turned_at, unscissored};
ghost use Rattle.dri_walk.specs.Rows.{IsDepthAt};
ghost use Rattle.dri_walk.specs.Samplings.{IsImageWithin, byte_in};
ghost use Rattle.dri_walk.specs.Surfaces.{PairsBecome, drawn_at};

use crate::blending::{Added, Mixed, Opaque};
use crate::clipping::narrowed;
use crate::colouring::{Colouring, Flat, Modulated, Replaced, Smooth};
use crate::depth_test::DepthTest;
use crate::sampler::Texture;
use crate::surface::Surface;
use dri_base::{Blend, ClipRect, Pixel, Point, Registers, Rgba, Shade, Steps, Triangle};
use dri_raster::{Channel, Runner, Setup};
use dri_texel::pixel_rule;
use std::sync::ledger::Ledger;

/// Draws a triangle by the registers and the texture memory, at each place of the clip on the surface. The window's pixel is
/// the screen's less the origin, the window's upper left corner, whose coordinates are -1,024 to 1,024. The clip lies within
/// the surface, whose sides are at most 1,024. It takes at most four steps a place of the clip whose pixel the triangle covers;
/// a scissor only leaves some out.
pub fn draw_triangle<S: Surface, L: Ledger>(
    surface: &mut S,
    registers: &Registers,
    memory: &[u8],
    clip: &ClipRect,
    origin: Point,
    triangle: &Triangle,
    steps: &mut Steps<L>,
)
    requires x { IsPlace origin.x }
    requires y { IsPlace origin.y }
    requires triangle { TriangleInRange triangle.now }
    requires bound { IsBoundInRange registers.now.bound }
    requires scissor { IsScissorInRange registers.now.scissor }
    requires image { IsImageWithin (length memory.now) registers.now.bound }
    requires within { IsInside clip.now (S.width surface.old) (S.height surface.old) }
    requires small { IsInside clip.now 1024 1024 }
    ensures pairs { PairsBecome S.holds surface.old surface.new (after_drawing S.kept (rules_in registers.now) (card_image (byte_in memory.now) registers.now.bound) triangle.now clip.now origin) }
    ensures width { S.width surface.new ≡ S.width surface.old }
    ensures height { S.height surface.new ≡ S.height surface.old }
    ensures bound { steps.new ≤ steps.old + 4 * covered_places triangle.now clip.now origin }
{
    if let Some(drawing) = Drawing::new(registers, memory, triangle) {
        let rect = narrowed(clip, &registers.scissor, origin);
        drawing.draw(surface, origin, &rect, steps);
    }
}

/// A triangle with an area, ready to be drawn.
#[derive(Drop)]
pub struct Drawing<'a> {
    pub setup: Setup,
    pub depth_test: DepthTest,
    pub depth_write: bool,
    blend: Blend,
    flat: Option<Rgba>,
    texture: Texture<'a>,
}

impl<'a> Drawing<'a> {
    /// The drawing of a triangle by the registers, the scissor left out, and `None` exactly where the triangle has no
    /// area.
    pub fn new(registers: &Registers, memory: &'a [u8], triangle: &Triangle) -> Option<Drawing<'a>>
        requires triangle { TriangleInRange triangle.now }
        requires bound { IsBoundInRange registers.now.bound }
        requires within { IsImageWithin (length memory.now) registers.now.bound }
        ensures none { IsNone result ↔ (area triangle.now ≡ pos 0) }
        ensures setup { IfSome result (λ drawing. drawing.setup ≡ triangle.now) }
        ensures some { IfSome result (λ drawing. (kept : Pixel → Pixel) → pair_left kept drawing ≡ fragment_kept kept (unscissored registers.now) (card_image (byte_in memory.now) registers.now.bound) triangle.now) }
    {
        pixel_rule();
        let setup = Setup::new(triangle)?;
        Some(Drawing {
            setup,
            depth_test: DepthTest::new(registers.depth_func),
            depth_write: registers.depth_write,
            blend: registers.blend,
            flat: match registers.shade {
                Shade::Flat => Some(triangle.c.colour),
                Shade::Smooth => None,
            },
            texture: Texture::new(registers, memory),
        })
    }

    /// A runner of the depth that stands at pixel (x, y), which the triangle covers; `None` where every depth is drawn and none
    /// is written.
    #[inline(always)]
    pub fn depth_runner(&self, x: i32, y: i32) -> Option<Runner<'_>>
        requires { IsTrue (covers self.now.setup x y) }
        ensures { IsDepthAt self.now.depth_test self.now.depth_write result self.now.setup x y }
    {
        if self.depth_test.is_always() && !self.depth_write {
            return None;
        }
        Some(self.setup.runner(Channel::Z, x, y))
    }

    /// Draws at each place of a rectangle of the surface. The origin is the window's upper left corner on the screen.
    fn draw<S: Surface, L: Ledger>(
        &self,
        surface: &mut S,
        origin: Point,
        rect: &ClipRect,
        steps: &mut Steps<L>,
    )
        requires x { IsPlace origin.x }
        requires y { IsPlace origin.y }
        requires within { IsInside rect.now (S.width surface.old) (S.height surface.old) }
        requires small { IsInside rect.now 1024 1024 }
        ensures pairs { PairsBecome S.holds surface.old surface.new (drawn_at (in_rect rect.now) origin (pair_left S.kept self.now)) }
        ensures width { S.width surface.new ≡ S.width surface.old }
        ensures height { S.height surface.new ≡ S.height surface.old }
        ensures bound { steps.new ≤ steps.old + 4 * covered_places self.now.setup rect.now origin }
    {
        match self.flat {
            Some(colour) => self.draw_own(&Flat { colour }, surface, origin, rect, steps),
            None => self.draw_own(&Smooth { setup: &self.setup }, surface, origin, rect, steps),
        }
    }

    /// Draws in these own colours, with the texture.
    fn draw_own<C: Colouring, S: Surface, L: Ledger>(
        &self,
        own: &C,
        surface: &mut S,
        origin: Point,
        rect: &ClipRect,
        steps: &mut Steps<L>,
    )
        requires fits { C.fits own.now self.now.setup }
        requires x { IsPlace origin.x }
        requires y { IsPlace origin.y }
        requires within { IsInside rect.now (S.width surface.old) (S.height surface.old) }
        requires small { IsInside rect.now 1024 1024 }
        ensures pairs { PairsBecome S.holds surface.old surface.new (drawn_at (in_rect rect.now) origin (pair_by S.kept self.now (turned_at self.now.texture (C.colours own.now)) self.now.blend)) }
        ensures width { S.width surface.new ≡ S.width surface.old }
        ensures height { S.height surface.new ≡ S.height surface.old }
        ensures bound { steps.new ≤ steps.old + 4 * covered_places self.now.setup rect.now origin }
    {
        match &self.texture {
            Texture::Off => self.draw_coloured(own, surface, origin, rect, steps),
            Texture::Replace(sampler) => {
                let colouring = Replaced {
                    own,
                    setup: &self.setup,
                    sampler,
                };
                self.draw_coloured(&colouring, surface, origin, rect, steps);
            }
            Texture::Modulate(sampler) => {
                let colouring = Modulated {
                    own,
                    setup: &self.setup,
                    sampler,
                };
                self.draw_coloured(&colouring, surface, origin, rect, steps);
            }
        }
    }

    /// Draws in these colours, by the blending.
    fn draw_coloured<C: Colouring, S: Surface, L: Ledger>(
        &self,
        colouring: &C,
        surface: &mut S,
        origin: Point,
        rect: &ClipRect,
        steps: &mut Steps<L>,
    )
        requires fits { C.fits colouring.now self.now.setup }
        requires x { IsPlace origin.x }
        requires y { IsPlace origin.y }
        requires within { IsInside rect.now (S.width surface.old) (S.height surface.old) }
        requires small { IsInside rect.now 1024 1024 }
        ensures pairs { PairsBecome S.holds surface.old surface.new (drawn_at (in_rect rect.now) origin (pair_by S.kept self.now (C.colours colouring.now) self.now.blend)) }
        ensures width { S.width surface.new ≡ S.width surface.old }
        ensures height { S.height surface.new ≡ S.height surface.old }
        ensures bound { steps.new ≤ steps.old + 4 * covered_places self.now.setup rect.now origin }
    {
        match self.blend {
            Blend::Off => {
                self.draw_rows::<Opaque, C, S, L>(colouring, surface, origin, rect, steps);
            }
            Blend::Alpha => {
                self.draw_rows::<Mixed, C, S, L>(colouring, surface, origin, rect, steps);
            }
            Blend::Add => {
                self.draw_rows::<Added, C, S, L>(colouring, surface, origin, rect, steps);
            }
        }
    }
}
