//! What triangles are drawn on.

ghost use Rattle.std.specs.Prelude.{◌≡◌, ◌≤◌, ◌<◌, ◌+◌, ◌-◌, ◌*◌, ℕ};
ghost use Rattle.dri_base.specs.declared.colour.Pixel.{Pixel};
ghost use Rattle.dri_plane.specs.Runs.{run_painted};
ghost use Rattle.dri_walk.specs.Surfaces.{PairsBecome};

use dri_base::Steps;
use dri_plane::Painter;
use std::sync::ledger::Ledger;

/// A surface of pairs of a colour and a depth, one for each place, whose accesses are counted. What a place keeps of a pair
/// that is written may be less than the pair: `kept`.
pub trait Surface {
    ghost width: { Self → ℕ };

    ghost height: { Self → ℕ };

    ghost holds: { Self → (ℕ → ℕ → Pixel) → Type 0 };

    ghost kept: { Pixel → Pixel };

    /// Paints the places of row y from column `left` up to column `right`, where the painter ends. It takes at most four
    /// steps a place.
    fn draw_run<P: Painter, L: Ledger>(
        &mut self,
        y: u16,
        left: u16,
        right: u16,
        painter: &mut P,
        steps: &mut Steps<L>,
    )
        requires row { y < height self.old }
        requires some { left < right }
        requires columns { right ≤ width self.old }
        requires ready { P.ready painter.old left }
        requires end { P.end painter.old ≡ right }
        ensures pairs { PairsBecome holds self.old self.new (run_painted kept (P.paints painter.old) y left right) }
        ensures width { width self.new ≡ width self.old }
        ensures height { height self.new ≡ height self.old }
        ensures cost { steps.new ≤ steps.old + 4 * (right - left) };

    ghost alike: { (s : Self) (f g : ℕ → ℕ → Pixel) → ((x y : ℕ) → f x y ≡ g x y) → holds s f → holds s g };
}
