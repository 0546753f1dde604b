//! What a deed does at a place of the screen. It is looked up once the entry was taken: neither the clips nor the stamps of a
//! client's window are changed by what the client runs.

ghost use Rattle.std.specs.Prelude.{◌≡◌, ◌-ℤ◌, pos, is_some, Contains};
ghost use Rattle.std.specs.List.{list_any};
ghost use Rattle.dri_base.specs.Planes.{in_rect};
ghost use Rattle.dri_base.specs.Ranges.{client_numbers};
ghost use Rattle.dri_base.specs.Rectangles.{in_rects};
ghost use Rattle.dri_history.specs.Follows.{IsChanged, IsDrawn, IsWay, comes_to};
ghost use Rattle.dri_model.specs.Stacks.{pixel_in};
ghost use Rattle.dri_replay.specs.Makings.{MayMake};

use crate::clips::rect_at;
use crate::touch::{Clip, Kind};
use dri_base::ClipRect;
use dri_clips::{Carry, Paint, Touched};
use dri_journal::{Deed, Replay};

/// What is done to a place, and the clip where it is a drawing.
#[derive(Clone, Copy)]
pub struct Way {
    pub kind: Kind,
    pub clip: Option<Clip>,
}

/// Whether the rectangle has the pixel with this column and this row.
fn has_pixel(rect: &ClipRect, x: i64, y: i64) -> bool
    ensures { result ≡ is_some (pixel_in (in_rect rect.now) x y) }
{
    let in_columns = i64::from(rect.x1) <= x && x < i64::from(rect.x2);
    let in_rows = i64::from(rect.y1) <= y && y < i64::from(rect.y2);
    in_columns && in_rows
}

/// Whether one of the rectangles has it.
fn have_pixel(rects: &[ClipRect], x: i64, y: i64) -> bool
    ensures { result ≡ list_any (λ r. is_some (pixel_in (in_rect r) x y)) rects.now }
{
    for rect in rects {
        if has_pixel(rect, x, y) {
            return true;
        }
    }
    false
}

/// Where a column or a row was before it moved by so many.
fn before(at: u32, by: i32) -> i64
    ensures { result ≡ pos at -ℤ by }
{
    i64::from(at) - i64::from(by)
}

/// Whether one of the carried rectangles comes to the place.
fn comes_by(carry: &Carry, x: u32, y: u32) -> bool
    ensures { result ≡ list_any (λ r. is_some (pixel_in (in_rect r) (pos x -ℤ carry.now.dx) (pos y -ℤ carry.now.dy))) carry.now.rects }
{
    let column = before(x, carry.dx);
    let row = before(y, carry.dy);
    have_pixel(carry.rects.as_slice(), column, row)
}

/// Whether what is carried, if there is something, comes to the place.
fn comes_to(carry: &Option<Carry>, x: u32, y: u32) -> bool
    ensures { result ≡ comes_to carry.now x y }
{
    match carry {
        None => false,
        Some(carry) => comes_by(carry, x, y),
    }
}

/// Whether one of the paints has the place.
fn is_painted(paints: &[Paint], x: u32, y: u32) -> bool
    ensures { result ≡ list_any (λ p. is_some (pixel_in (in_rect p.rect) (pos x) (pos y))) paints.now }
{
    for paint in paints {
        if has_pixel(&paint.rect, i64::from(x), i64::from(y)) {
            return true;
        }
    }
    false
}

/// What a new stack does at a place.
fn changed(touched: &Touched, x: u32, y: u32) -> Option<Way>
    ensures { IsChanged touched.now x y result }
{
    if comes_to(&touched.carry, x, y) {
        return Some(Way {
            kind: Kind::Carry,
            clip: None,
        });
    }
    if is_painted(touched.paints.as_slice(), x, y) {
        return Some(Way {
            kind: Kind::Paint,
            clip: None,
        });
    }
    None
}

/// What a drawing of a client does at a place: none where the place isn't in its clips.
fn drawn(replay: &Replay<'_>, client: u32, kind: Kind, x: u32, y: u32) -> Option<Way>
    requires { Contains (client_numbers replay.now.scene.clients) client }
    ensures { IsDrawn replay.now client kind x y result }
{
    let clips = replay.clips(client);
    clips.arranged();
    let Some(rect) = rect_at(clips, x, y) else {
        return None;
    };
    let window = replay.script(client).window;
    let stamp = replay.board().stamp(window);
    Some(Way {
        kind,
        clip: Some(Clip { stamp, rect }),
    })
}

/// What a deed of a client does at a place of the screen, where it does something.
pub fn way_of(replay: &Replay<'_>, client: u32, deed: &Deed, x: u32, y: u32) -> Option<Way>
    requires { MayMake replay.now client deed.now }
    ensures { IsWay replay.now client deed.now x y result }
{
    match deed {
        Deed::Nothing => None,
        Deed::Clear {
            colour: _,
            depth: _,
        } => drawn(replay, client, Kind::Clear, x, y),
        Deed::Triangle(_) => drawn(replay, client, Kind::Triangle, x, y),
        Deed::Swap => drawn(replay, client, Kind::Swap, x, y),
        Deed::Touched(touched) => changed(touched, x, y),
    }
}
