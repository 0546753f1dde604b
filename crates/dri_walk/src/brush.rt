//! What draws a triangle along a run of a row: it stands at a column, with the runners of the quantities that the drawing
//! needs. The depth is tested before anything else is worked out.

ghost use Rattle.std.specs.Prelude.{◌≡◌, ◌≤◌, ◌<◌, ◌+◌, ℕ, ℤ, pos, ◌+ℤ◌, ◌-ℤ◌, true, IsTrue, if◌then◌else◌};
ghost use Rattle.dri_base.specs.Coverage.{covers, quantity};
ghost use Rattle.dri_base.specs.Ranges.{IsPlace};
ghost use Rattle.dri_raster.specs.Edges.{IsPixel};
ghost use Rattle.dri_walk.specs.Drawings.{depth_left, painted};
ghost use Rattle.dri_walk.specs.Rows.{CanStep, IsDepthAt, IsReady, one_on};

use crate::blending::Blending;
use crate::colouring::{ColourRow, Colouring};
use crate::depth_test::DepthTest;
use crate::drawing::Drawing;
use dri_base::Pixel;
use dri_plane::Painter;
use dri_raster::{Runner, Setup};
use std::marker::PhantomData;

/// A triangle's painter along a run of the window's row `row`, whose column 0 is the screen's column `left`.
#[derive(Drop)]
pub struct Brush<'a, B, R> {
    pub setup: &'a Setup,
    pub depth_test: DepthTest,
    pub depth_write: bool,
    pub z: Option<Runner<'a>>,
    pub colours: R,
    pub left: i32,
    pub row: i32,
    pub end: u16,
    pub blending: PhantomData<B>,
}

/// The window's column of a column of the screen.
fn window_column(x: u16, left: i32) -> i32
    requires { IsPlace left }
    ensures { result ≡ pos x -ℤ left }
{
    i32::from(x) - left
}

/// A brush that stands at column x of the screen, ready to paint what comes until its end.
pub fn brush_at<'a, B: Blending, C: Colouring>(
    drawing: &'a Drawing<'_>,
    colouring: &C,
    left: i32,
    row: i32,
    x: u16,
    end: u16,
) -> Brush<'a, B, C::Row>
    requires fits { C.fits colouring.now drawing.now.setup }
    requires place { IsPlace left }
    requires near { IsPixel row }
    requires some { x < end }
    requires covered { (a : ℕ) → x ≤ a → a < end → covers drawing.now.setup (pos a -ℤ left) row ≡ true }
    ensures ready { IsReady (C.Row.stands result.colours) result.depth_test result.depth_write result.setup.now result.z result.left result.row x result.end }
    ensures setup { result.setup.now ≡ drawing.now.setup }
    ensures depth_test { result.depth_test ≡ drawing.now.depth_test }
    ensures depth_write { result.depth_write ≡ drawing.now.depth_write }
    ensures colours { C.Row.colour_at result.colours ≡ C.colours colouring.now }
    ensures left { result.left ≡ left }
    ensures row { result.row ≡ row }
    ensures end { result.end ≡ end }
{
    let setup = &drawing.setup;
    let column = window_column(x, left);
    Brush {
        setup,
        depth_test: drawing.depth_test,
        depth_write: drawing.depth_write,
        z: drawing.depth_runner(column, row),
        colours: colouring.start(setup, column, row),
        left,
        row,
        end,
        blending: PhantomData,
    }
}

/// The depth's runner goes on to the next column, where there is one.
#[inline(always)]
fn step_depth(z: &mut Option<Runner<'_>>)
    requires { CanStep z.old }
    ensures { z.new ≡ one_on z.old }
{
    if let Some(z) = z {
        z.step();
    }
}

impl<'a, B, R> Brush<'a, B, R> {
    /// The depth that is left over the one under it at column x, where it stands; `None` where nothing is drawn.
    #[inline(always)]
    fn depth_over(&self, x: i32, under: u16) -> Option<u16>
        requires { IsDepthAt self.now.depth_test self.now.depth_write self.now.z self.now.setup.now x self.now.row }
        ensures { result ≡ depth_left self.now.depth_test self.now.depth_write (quantity self.now.setup.now (λ v. v.z) x self.now.row) under }
    {
        let Some(z) = &self.z else {
            return Some(under);
        };
        let z = z.value() as u16;
        if !self.depth_test.passes(z, under) {
            return None;
        }
        Some(if self.depth_write { z } else { under })
    }
}

impl<'a, B: Blending, R: ColourRow> Painter for Brush<'a, B, R> {
    ghost end = { λ it. it.end };

    ghost ready = { λ it x. IsReady (R.stands it.colours) it.depth_test it.depth_write it.setup.now it.z it.left it.row x it.end };

    ghost paints = { λ it x under. painted it.depth_test it.depth_write (R.colour_at it.colours) B.blend it.setup.now (pos x -ℤ it.left) it.row under };

    #[inline(always)]
    fn paint(&self, x: u16, under: Pixel) -> Option<Pixel> {
        let column = window_column(x, self.left);
        let depth = self.depth_over(column, under.depth)?;
        let colour = self.colours.colour(self.setup, column, self.row);
        Some(Pixel {
            colour: B::blended(colour, under.colour),
            depth,
        })
    }

    #[inline(always)]
    fn step(&mut self, x: u16) {
        let column = window_column(x, self.left);
        step_depth(&mut self.z);
        self.colours.step(self.setup, column, self.row);
    }
}
