//! Rectangles that are cut to others.

ghost use Rattle.std.specs.Prelude.{◌≡◌, ◌≤◌, ◌<◌, ◌≤ℤ◌, ℕ, neg_ℤ, pos, ◌-ℤ◌, ◌+ℤ◌, nat_le, int_le};
ghost use Rattle.dri_base.specs.Ranges.{IsPlace};
ghost use Rattle.dri_model.specs.Words.{IsScissorInRange};
ghost use Rattle.dri_plane.specs.Grids.{IsInside};
ghost use Rattle.dri_walk.specs.Clips.{IsNarrowed};

use dri_base::{ClipRect, Point};

/// The number of a range that is nearest: the places of the range from it on are those that aren't before the number.
pub fn nearest(number: i32, low: u16, high: u16) -> u16
    requires { low ≤ high }
    ensures from { low ≤ result }
    ensures to { result ≤ high }
    ensures cuts { (k : ℕ) → low ≤ k → k < high → nat_le result k ≡ int_le number (pos k) }
{
    if number <= i32::from(low) {
        low
    } else if number >= i32::from(high) {
        high
    } else {
        number as u16
    }
}

/// The places of the clip whose pixels of the window lie in the scissor, where there is one.
pub fn narrowed(clip: &ClipRect, scissor: &Option<ClipRect>, origin: Point) -> ClipRect
    requires x { IsPlace origin.x }
    requires y { IsPlace origin.y }
    requires scissor { IsScissorInRange scissor.now }
    requires columns { clip.now.x1 ≤ clip.now.x2 }
    requires rows { clip.now.y1 ≤ clip.now.y2 }
    ensures places { IsNarrowed clip.now scissor.now origin result }
    ensures inside { IsInside result clip.now.x2 clip.now.y2 }
    ensures left { clip.now.x1 ≤ result.x1 }
    ensures top { clip.now.y1 ≤ result.y1 }
{
    let Some(scissor) = scissor else {
        return *clip;
    };
    let x1 = nearest(i32::from(scissor.x1) + origin.x, clip.x1, clip.x2);
    let y1 = nearest(i32::from(scissor.y1) + origin.y, clip.y1, clip.y2);
    ClipRect {
        x1,
        y1,
        x2: nearest(i32::from(scissor.x2) + origin.x, x1, clip.x2),
        y2: nearest(i32::from(scissor.y2) + origin.y, y1, clip.y2),
    }
}
