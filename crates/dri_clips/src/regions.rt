//! Regions compared as lists of rectangles.

ghost use Rattle.std.specs.Prelude.{◌≡◌, ◌↔◌, IsTrue};

use dri_base::Rect;
use dri_rect::Region;

/// Whether two rectangles are one.
fn same_rect(a: &Rect, b: &Rect) -> bool
    ensures { IsTrue result ↔ (a.now ≡ b.now) }
{
    a == b
}

/// Whether two regions have the same rectangles.
pub fn same_region(a: &Region, b: &Region) -> bool
    ensures { IsTrue result ↔ (a.now ≡ b.now) }
{
    if a.len() != b.len() {
        return false;
    }
    for i in 0..a.len() {
        if !same_rect(&a.rect(i), &b.rect(i)) {
            return false;
        }
    }
    true
}
