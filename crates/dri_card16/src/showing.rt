//! What a new stack leaves on the card: a moved window takes along what it shows, and then front is painted.

ghost use Rattle.std.specs.Prelude.{◌≡◌, ℕ, All, IfSome};
ghost use Rattle.dri_base.specs.declared.colour.Pixel.{Pixel};
ghost use Rattle.dri_base.specs.declared.colour.Rgb.{Rgb};
ghost use Rattle.dri_card.specs.Contents.{Holds, KeepSides, Shows};
ghost use Rattle.dri_card.specs.Drawing.{OnlyCarried, OnlyShown};
ghost use Rattle.dri_card16.specs.Following.{ShowsKept};
ghost use Rattle.dri_clips.specs.Paints.{IsOnScreen, filled};
ghost use Rattle.dri_draw.specs.Drawing.{IsScreen};
ghost use Rattle.dri_replay.specs.Makings.{CanCarry, CanShow, carried_along};

use crate::card::Card16;
use dri_base::Steps;
use dri_clips::{Paint, Touched};
use std::sync::ledger::{Blank, Ledger};

/// Takes along what a moved window carries, if there is something: front, and back with its depth.
fn carry_along<L: Ledger>(card: &mut Card16, touched: &Touched, steps: &mut Steps<L>)
    requires screen { IsScreen card.old }
    requires can { IfSome touched.now.carry (CanCarry card.old.front.width card.old.front.height) }
    ensures shown { (front : ℕ → ℕ → Rgb) → Shows card.old front → Shows card.new (carried_along touched.now.carry front) }
    ensures held { (back : ℕ → ℕ → Pixel) → Holds card.old back → Holds card.new (carried_along touched.now.carry back) }
    ensures others { OnlyCarried card.old card.new }
    ensures sides { KeepSides card.old card.new }
{
    match &touched.carry {
        None => {}
        Some(carry) => card
            .carry(carry.rects.as_slice(), carry.dx, carry.dy, steps)
            .unwrap(),
    }
}

/// Makes the paints in front, one after the other.
fn paint<L: Ledger>(card: &mut Card16, paints: &[Paint], steps: &mut Steps<L>)
    requires screen { IsScreen card.old }
    requires shown { All (λ p. IsOnScreen card.old.front.width card.old.front.height p.rect) paints.now }
    ensures shown { (front : ℕ → ℕ → Rgb) → ShowsKept card.old front → ShowsKept card.new (filled paints.now front) }
    ensures others { OnlyShown card.old card.new }
    ensures sides { KeepSides card.old card.new }
{
    for paint in paints {
        card.paint(paint.rect, paint.colour, steps).unwrap();
    }
}

/// Takes along what a moved window carries, and then makes the paints. The steps are counted from the blank on.
pub fn show<L: Ledger>(blank: Blank, card: &mut Card16, touched: &Touched)
    requires name { blank.name ≡ L.name }
    requires parts { blank.parts ≡ L.parts }
    requires one { L.parts ≡ 1 }
    requires screen { IsScreen card.old }
    requires can { CanShow card.old.front.width card.old.front.height touched.now }
    ensures shown { (front : ℕ → ℕ → Rgb) → ShowsKept card.old front → ShowsKept card.new (filled touched.now.paints (carried_along touched.now.carry front)) }
    ensures held { (back : ℕ → ℕ → Pixel) → Holds card.old back → Holds card.new (carried_along touched.now.carry back) }
    ensures others { OnlyCarried card.old card.new }
    ensures sides { KeepSides card.old card.new }
{
    let mut steps = Steps::<L>::new(blank);
    carry_along(card, touched, &mut steps);
    paint(card, touched.paints.as_slice(), &mut steps);
}
