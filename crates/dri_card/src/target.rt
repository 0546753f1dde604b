//! What triangles are drawn on: the back plane and the depth plane, a pair of colour and depth for each place. The colours are
//! kept in a format: contracts speak of the pairs that the planes show.

ghost use Rattle.std.specs.Prelude.{◌≡◌, ◌≤◌, ◌+◌, ◌-◌, ◌*◌, ℕ, IfOk};
ghost use Rattle.dri_base.specs.declared.colour.Pixel.{Pixel};
ghost use Rattle.dri_base.specs.Ranges.{IsSide};
ghost use Rattle.dri_plane.specs.Grids.{pixel_count, IsInside};
ghost use Rattle.dri_card.specs.Contents.{HoldPairs, blank};
ghost use Rattle.dri_card.specs.Drawing.{cleared};
ghost use Rattle.dri_plane.specs.Formats.{pair_kept, shown_by};
ghost use Rattle.dri_plane.specs.Runs.{run_painted};

use dri_base::{ClipRect, OutOfMemory, Rgb, Steps};
use dri_plane::{ColourFormat, Painter, Plane, paint_row};
use dri_walk::Surface;
use std::alloc::Global;
use std::sync::ledger::Ledger;

/// Two planes with the same sides.
#[derive(Drop)]
pub struct Target<F: ColourFormat> {
    pub back: Plane<F::Kept>,
    pub depth: Plane<u16>,
    ghost same_width: { depth.width ≡ back.width },
    ghost same_height: { depth.height ≡ back.height },
}

impl<F: ColourFormat> Target<F> {
    /// Black, as the format keeps it, and as deep as can be. The sides are 1 to 1,024.
    pub fn new(alloc: Global, width: u32, height: u32) -> Result<Target<F>, OutOfMemory>
        requires wide { IsSide width }
        requires high { IsSide height }
        ensures pairs { IfOk result (λ target. HoldPairs (shown_by F.all_shown target.back) target.depth (λ x y. pair_kept F.shown F.kept blank)) }
        ensures width { IfOk result (λ target. target.back.width ≡ width) }
        ensures height { IfOk result (λ target. target.back.height ≡ height) }
    {
        let back = Plane::new(alloc, width, height, F::kept(Rgb { r: 0, g: 0, b: 0 }))?;
        let depth = Plane::new(alloc, width, height, 65_535)?;
        Ok(Target { back, depth })
    }

    /// Writes one pair into each place of a rectangle, the colour as the format keeps it. It takes two steps a place.
    pub fn clear<L: Ledger>(
        &mut self,
        rect: &ClipRect,
        colour: Rgb,
        depth: u16,
        steps: &mut Steps<L>,
    )
        requires inside { IsInside rect.now self.old.back.width self.old.back.height }
        ensures pairs { (f : ℕ → ℕ → Pixel) → HoldPairs (shown_by F.all_shown self.old.back) self.old.depth f → HoldPairs (shown_by F.all_shown self.new.back) self.new.depth (cleared rect.now (F.shown (F.kept colour)) depth f) }
        ensures width { self.new.back.width ≡ self.old.back.width }
        ensures height { self.new.back.height ≡ self.old.back.height }
        ensures cost { steps.new ≡ steps.old + 2 * pixel_count rect.now }
    {
        self.back.fill(rect, F::kept(colour), steps);
        self.depth.fill(rect, depth, steps);
    }
}

impl<F: ColourFormat> Surface for Target<F> {
    ghost use Rattle.dri_plane.specs.Alike.{pairs_same};
    ghost use Rattle.dri_plane.specs.Formats.{pair_kept, shown_by};

    ghost width = { λ target. target.back.width };

    ghost height = { λ target. target.back.height };

    ghost holds = { λ target f. HoldPairs (shown_by F.all_shown target.back) target.depth f };

    ghost kept = { pair_kept F.shown F.kept };

    ghost alike = { λ target f g same. pairs_same (shown_by F.all_shown target.back) target.depth f g same };

    #[inline(always)]
    fn draw_run<P: Painter, L: Ledger>(
        &mut self,
        y: u16,
        left: u16,
        right: u16,
        painter: &mut P,
        steps: &mut Steps<L>,
    ) {
        paint_row::<F, P, L>(
            &mut self.back,
            &mut self.depth,
            y,
            left,
            right,
            painter,
            steps,
        );
    }
}
