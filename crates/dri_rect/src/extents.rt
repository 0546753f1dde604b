//! Rectangles that hold regions: what two of them share, what holds both, and how they lie to one another.

ghost use Rattle.std.specs.Prelude.{◌≡◌, ◌&&◌, int_le};
ghost use Rattle.dri_rect.specs.Extents.{shared_by, hull_of, reaches_round, is_nowhere};

use crate::rows::{greater, lesser};
use dri_base::Rect;

/// The rectangle of the pixels that two rectangles share.
pub fn shared(first: &Rect, second: &Rect) -> Rect
    ensures { result ≡ shared_by first.now second.now }
{
    Rect {
        x1: greater(first.x1, second.x1),
        y1: greater(first.y1, second.y1),
        x2: lesser(first.x2, second.x2),
        y2: lesser(first.y2, second.y2),
    }
}

/// A rectangle that holds two rectangles.
pub fn hull(first: &Rect, second: &Rect) -> Rect
    ensures { result ≡ hull_of first.now second.now }
{
    Rect {
        x1: lesser(first.x1, second.x1),
        y1: lesser(first.y1, second.y1),
        x2: greater(first.x2, second.x2),
        y2: greater(first.y2, second.y2),
    }
}

/// Whether the numbers from low up to high have those from least up to most.
fn spans(low: i32, high: i32, least: i32, most: i32) -> bool
    ensures { result ≡ (int_le low least && int_le most high) }
{
    low <= least && most <= high
}

/// Whether a rectangle reaches as far as another on each side.
pub fn reaches_round(outer: &Rect, inner: &Rect) -> bool
    ensures { result ≡ reaches_round outer.now inner.now }
{
    if !spans(outer.y1, outer.y2, inner.y1, inner.y2) {
        return false;
    }
    spans(outer.x1, outer.x2, inner.x1, inner.x2)
}

/// Whether the rectangle has no pixel.
pub fn is_nowhere(rect: &Rect) -> bool
    ensures { result ≡ is_nowhere rect.now }
{
    rect.x2 <= rect.x1 || rect.y2 <= rect.y1
}
