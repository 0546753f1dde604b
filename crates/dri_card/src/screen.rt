//! Rectangles that a card takes: those that lie on its screen, and those that still do once they are moved. They are told by
//! the sides of the screen alone, so that each card asks here and all refuse alike.

ghost use Rattle.std.specs.Prelude.{◌≡◌, ◌≤◌, All, IfErr, IsOk, IsTrue, ◌↔◌, pos, ◌+ℤ◌, ◌≤ℤ◌};
ghost use Rattle.dri_plane.specs.Grids.{IsInside};
ghost use Rattle.dri_plane.specs.Moves.{StaysInside};
ghost use Rattle.dri_card.specs.Drawing.{IsCarry, IsFirstOut};
ghost use Rattle.dri_card.specs.declared.faults.OutsideCard.TheVariants.{Clip};

use crate::faults::OutsideCard;
use dri_base::ClipRect;

/// Refuses a rectangle exactly where it doesn't lie on a screen with these sides: a side is before the one across from it, or
/// beyond the screen.
pub fn expect_inside(rect: ClipRect, width: u32, height: u32) -> Result<(), OutsideCard>
    ensures inside { IsOk result ↔ IsInside rect width height }
    ensures outside { IfErr result (λ outside. outside ≡ Clip rect) }
{
    let columns = rect.x1 <= rect.x2 && u32::from(rect.x2) <= width;
    let rows = rect.y1 <= rect.y2 && u32::from(rect.y2) <= height;
    if columns && rows {
        return Ok(());
    }
    Err(OutsideCard::Clip { rect })
}

// Refuses a rectangle that isn't on the screen, or isn't once it is moved by (dx, dy).
fn expect_stays(
    rect: ClipRect,
    dx: i32,
    dy: i32,
    width: u32,
    height: u32,
) -> Result<(), OutsideCard>
    requires dx { IsCarry dx }
    requires dy { IsCarry dy }
    requires wide { width ≤ 1024 }
    requires high { height ≤ 1024 }
    ensures stays { IsOk result ↔ StaysInside dx dy width height rect }
    ensures off { IfErr result (λ outside. outside ≡ Clip rect) }
{
    expect_inside(rect, width, height)?;
    let columns = stays_within(rect.x1, rect.x2, dx, width);
    let rows = stays_within(rect.y1, rect.y2, dy, height);
    if columns && rows {
        return Ok(());
    }
    Err(OutsideCard::Clip { rect })
}

/// Refuses the first rectangle that doesn't lie on a screen with these sides, or doesn't once it is moved by (dx, dy), exactly
/// where there is one. The sides are at most 1,024, and dx and dy are -2,048 to 2,048.
pub fn expect_all_stay(
    rects: &[ClipRect],
    dx: i32,
    dy: i32,
    width: u32,
    height: u32,
) -> Result<(), OutsideCard>
    requires dx { IsCarry dx }
    requires dy { IsCarry dy }
    requires wide { width ≤ 1024 }
    requires high { height ≤ 1024 }
    ensures stay { IsOk result ↔ All (StaysInside dx dy width height) rects.now }
    ensures off { IfErr result (IsFirstOut dx dy width height rects.now) }
{
    for rect in rects {
        expect_stays(*rect, dx, dy, width, height)?;
    }
    Ok(())
}

// A span from low up to high lies within a side of the screen once it is moved.
fn stays_within(low: u16, high: u16, by: i32, side: u32) -> bool
    requires by { IsCarry by }
    requires side { side ≤ 1024 }
    ensures { IsTrue result ↔ ((pos 0 ≤ℤ (pos low +ℤ by)) × ((pos high +ℤ by) ≤ℤ pos side)) }
{
    0 <= i32::from(low) + by && i32::from(high) + by <= side as i32
}
