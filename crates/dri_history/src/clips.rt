//! The rectangle of a clip list that has a place.

ghost use Rattle.std.specs.Prelude.{◌≡◌, pos, IfSome, is_some};
ghost use Rattle.dri_history.specs.Touches.{IsRectAt};
ghost use Rattle.dri_rect.specs.Pixels.{has_pixel, inside};

use dri_base::Rect;
use dri_rect::Region;

/// Whether the rectangle has the place.
fn has_place(rect: &Rect, x: u32, y: u32) -> bool
    ensures { result ≡ has_pixel rect.now (pos x) (pos y) }
{
    let (x, y) = (i64::from(x), i64::from(y));
    if i64::from(rect.y1) > y || y >= i64::from(rect.y2) {
        return false;
    }
    i64::from(rect.x1) <= x && x < i64::from(rect.x2)
}

/// The rectangle of the list that has the place; none where none has.
pub fn rect_at(clips: &Region, x: u32, y: u32) -> Option<Rect>
    ensures one { IfSome result (IsRectAt clips.now x y) }
    ensures found { is_some result ≡ inside clips.now (pos x) (pos y) }
{
    for i in 0..clips.len() {
        let rect = clips.rect(i);
        if has_place(&rect, x, y) {
            return Some(rect);
        }
    }
    None
}
