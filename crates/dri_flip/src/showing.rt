//! What a new stack leaves on the card: a moved window takes along what it shows, and then front is painted.

ghost use Rattle.std.specs.Prelude.{◌≡◌, ◌<◌, ◌&&◌, ℕ, All, IfSome, is_some, length, nat_lt, not};
ghost use Rattle.dri_base.specs.declared.colour.Pixel.{Pixel};
ghost use Rattle.dri_base.specs.declared.colour.Rgb.{Rgb};
ghost use Rattle.dri_clips.specs.Paints.{IsOnScreen, filled};
ghost use Rattle.dri_flip.specs.Calls.{OnlyShown};
ghost use Rattle.dri_flip.specs.Follows.{IsScreen};
ghost use Rattle.dri_flip.specs.Meanings.{Holds, KeepSides, Shows};
ghost use Rattle.dri_replay.specs.Makings.{CanCarry, carried_along};

use crate::card::FlipCard;
use dri_base::Steps;
use dri_clips::{Paint, Touched};
use std::sync::ledger::Ledger;

/// Takes along what a moved window carries, if there is something: front, and back with its depth.
pub fn carry_along<L: Ledger>(card: &mut FlipCard, touched: &Touched, steps: &mut Steps<L>)
    requires { IfSome touched.now.carry (CanCarry card.old.front.width card.old.front.height) }
    ensures shown { (shown : ℕ → ℕ → Rgb) → Shows card.old shown → Shows card.new (carried_along touched.now.carry shown) }
    ensures held { (f : ℕ → ℕ → Pixel) → Holds card.old f → Holds card.new (carried_along touched.now.carry f) }
    ensures sides { KeepSides card.old card.new }
    ensures owed { card.new.owed ≡ (card.old.owed && not (is_some touched.now.carry)) }
{
    match &touched.carry {
        None => {}
        Some(carry) => card.carry(carry.rects.as_slice(), carry.dx, carry.dy, steps),
    }
}

/// Makes the paints in front, one after the other.
pub fn paint<L: Ledger>(card: &mut FlipCard, paints: &[Paint], steps: &mut Steps<L>)
    requires sides { IsScreen card.old }
    requires on { All (λ p. IsOnScreen card.old.front.width card.old.front.height p.rect) paints.now }
    ensures shown { (shown : ℕ → ℕ → Rgb) → Shows card.old shown → Shows card.new (filled paints.now shown) }
    ensures others { OnlyShown card.old card.new }
    ensures sides { KeepSides card.old card.new }
    ensures owed { card.new.owed ≡ (card.old.owed && not (nat_lt 0 (length paints.now))) }
{
    for paint in paints {
        card.paint(paint.rect, paint.colour, steps);
    }
}
