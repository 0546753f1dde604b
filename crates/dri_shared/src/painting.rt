//! What a new stack leaves on the card: a moved window takes along what it shows, and then front is painted where the
//! topmost window has changed. And the board's changes with that.

ghost use Rattle.std.specs.Prelude.{◌≡◌, ◌≤◌, ◌+◌, ◌*◌, ℕ, None, All, IfSome, OnOk, OnErr};
ghost use Rattle.dri_base.specs.declared.colour.Pixel.{Pixel};
ghost use Rattle.dri_base.specs.declared.colour.Rgb.{Rgb};
ghost use Rattle.dri_base.specs.Limits.{last_stamp};
ghost use Rattle.dri_card.specs.Contents.{Holds, KeepSides, Shows};
ghost use Rattle.dri_card.specs.Drawing.{OnlyCarried, OnlyShown};
ghost use Rattle.dri_clips.specs.Paints.{IsOnScreen, filled};
ghost use Rattle.dri_model.specs.Stacks.{moved_by, stack_after, without_owner};
ghost use Rattle.dri_draw.specs.Drawing.{IsScreen};
ghost use Rattle.dri_shared.specs.Drawing.{CanCarry, accesses, carried_along, carry_accesses, painted_pixels};
ghost use Rattle.dri_shared.specs.Holdings.{IsRestackedOn};

use dri_base::{Change, OutOfMemory, Steps};
use dri_card::Card;
use dri_clips::{Board, Paint, Touched};
use std::alloc::Global;
use std::sync::ledger::{Blank, Ledger};

/// Takes along what a moved window carries, if there is something: front, and back with its depth.
fn carry_along<L: Ledger>(card: &mut Card, touched: &Touched, steps: &mut Steps<L>)
    requires { IfSome touched.now.carry (CanCarry card.old) }
    ensures shown { (front : ℕ → ℕ → Rgb) → Shows card.old front → Shows card.new (carried_along touched.now.carry front) }
    ensures held { (back : ℕ → ℕ → Pixel) → Holds card.old back → Holds card.new (carried_along touched.now.carry back) }
    ensures others { OnlyCarried card.old card.new }
    ensures sides { KeepSides card.old card.new }
    ensures cost { steps.new ≡ steps.old + carry_accesses touched.now.carry }
{
    match &touched.carry {
        None => {}
        Some(carry) => card
            .carry(carry.rects.as_slice(), carry.dx, carry.dy, steps)
            .unwrap(),
    }
}

/// Makes the paints in front, one after the other.
fn paint<L: Ledger>(card: &mut Card, paints: &[Paint], steps: &mut Steps<L>)
    requires screen { IsScreen card.old }
    requires shown { All (λ p. IsOnScreen card.old.front.width card.old.front.height p.rect) paints.now }
    ensures shown { (front : ℕ → ℕ → Rgb) → Shows card.old front → Shows card.new (filled paints.now front) }
    ensures others { OnlyShown card.old card.new }
    ensures sides { KeepSides card.old card.new }
    ensures cost { steps.new ≡ steps.old + painted_pixels paints.now }
{
    for paint in paints {
        card.paint(paint.rect, paint.colour, steps).unwrap();
    }
}

/// Takes along what a moved window carries, and then makes the paints: so a pixel that the window left is painted only
/// once what stood there was carried. A step is an access of a plane: it takes two for each carried pixel in each plane,
/// and one for each painted pixel.
fn show<L: Ledger>(card: &mut Card, touched: &Touched, steps: &mut Steps<L>)
    requires screen { IsScreen card.old }
    requires carry { IfSome touched.now.carry (CanCarry card.old) }
    requires paints { All (λ p. IsOnScreen card.old.front.width card.old.front.height p.rect) touched.now.paints }
    ensures shown { (front : ℕ → ℕ → Rgb) → Shows card.old front → Shows card.new (filled touched.now.paints (carried_along touched.now.carry front)) }
    ensures held { (back : ℕ → ℕ → Pixel) → Holds card.old back → Holds card.new (carried_along touched.now.carry back) }
    ensures others { OnlyCarried card.old card.new }
    ensures sides { KeepSides card.old card.new }
    ensures cost { steps.new ≡ steps.old + accesses touched.now }
{
    carry_along(card, touched, steps);
    paint(card, touched.paints.as_slice(), steps);
}

/// Makes a change of the windows, on the board and on the card. One that the board refuses changes nothing. The steps are
/// counted from the blank on.
pub(crate) fn change_windows<L: Ledger>(
    blank: Blank,
    alloc: Global,
    board: &mut Board,
    card: &mut Card,
    change: &Change,
) -> Result<(), OutOfMemory>
    requires name { blank.name ≡ L.name }
    requires parts { blank.parts ≡ L.parts }
    requires one { L.parts ≡ 1 }
    requires counter { board.old.counter ≤ last_stamp }
    requires screen { IsScreen card.old }
    requires width { card.old.front.width ≡ board.old.width }
    requires height { card.old.front.height ≡ board.old.height }
    ensures ok { OnOk result (IsRestackedOn (stack_after change.now board.old.stack) (moved_by change.now board.old.stack) board.old board.new card.old card.new) }
    ensures err { OnErr result ((board.new ≡ board.old) × (card.new ≡ card.old)) }
{
    let mut steps = Steps::<L>::new(blank);
    match board.apply(alloc, change, &mut steps) {
        Ok(touched) => {
            show(card, &touched, &mut steps);
            Ok(())
        }
        Err(fault) => fault.refused(),
    }
}

/// Unmaps the windows of an owner, on the board and on the card. Nothing is carried. The steps are counted from the blank
/// on.
pub(crate) fn unmap_windows<L: Ledger>(
    blank: Blank,
    alloc: Global,
    board: &mut Board,
    card: &mut Card,
    owner: u32,
) -> Result<(), OutOfMemory>
    requires name { blank.name ≡ L.name }
    requires parts { blank.parts ≡ L.parts }
    requires one { L.parts ≡ 1 }
    requires counter { board.old.counter ≤ last_stamp }
    requires screen { IsScreen card.old }
    requires width { card.old.front.width ≡ board.old.width }
    requires height { card.old.front.height ≡ board.old.height }
    ensures ok { OnOk result (IsRestackedOn (without_owner owner board.old.stack) None board.old board.new card.old card.new) }
    ensures err { OnErr result ((board.new ≡ board.old) × (card.new ≡ card.old)) }
{
    let mut steps = Steps::<L>::new(blank);
    let touched = board.unmap_owner(alloc, owner, &mut steps)?;
    show(card, &touched, &mut steps);
    Ok(())
}
