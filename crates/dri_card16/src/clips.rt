//! Drawing in a client's clips, a rectangle at a time. The rectangles lie on the card, and no two of them share a pixel,
//! so each pixel of the clips is drawn once.

ghost use Rattle.std.specs.Prelude.{◌≡◌, ℕ};
ghost use Rattle.dri_base.specs.Ranges.{IsPlace, TriangleInRange};
ghost use Rattle.dri_base.specs.declared.colour.Pixel.{Pixel};
ghost use Rattle.dri_base.specs.declared.colour.Rgb.{Rgb};
ghost use Rattle.dri_card.specs.Contents.{Holds, KeepSides, Shows};
ghost use Rattle.dri_card.specs.Drawing.{OnlyDrawn, OnlyShown};
ghost use Rattle.dri_card16.specs.Following.{drawn16_in};
ghost use Rattle.dri_card16.specs.Packing.{kept};
ghost use Rattle.dri_draw.specs.Drawing.{IsScreen, OnlyDrawnOn, StayOn, cleared_in, swapped_in};

use crate::card::Card16;
use dri_base::{Point, Rgb, Steps, Triangle};
use dri_clips::clip_rect;
use dri_cmdbuf::Buffer;
use dri_rect::Region;
use std::sync::ledger::{Blank, Ledger};

/// Writes what is kept of a colour, and a depth, into each pixel of the clips. The steps are counted from the blank on.
pub fn clear_clips<L: Ledger>(
    blank: Blank,
    card: &mut Card16,
    clips: &Region,
    colour: Rgb,
    depth: u16,
)
    requires name { blank.name ≡ L.name }
    requires parts { blank.parts ≡ L.parts }
    requires one { L.parts ≡ 1 }
    requires screen { IsScreen card.old }
    requires within { StayOn card.old clips.now }
    ensures held { (f : ℕ → ℕ → Pixel) → Holds card.old f → Holds card.new (cleared_in clips.now (kept colour) depth f) }
    ensures others { OnlyDrawn card.old card.new }
    ensures sides { KeepSides card.old card.new }
{
    let mut steps = Steps::<L>::new(blank);
    clips.arranged();
    for n in 0..clips.len() {
        card.clear(clip_rect(&clips.rect(n)), colour, depth, &mut steps)
            .unwrap();
    }
}

/// Copies each pixel of the clips from back to front. The steps are counted from the blank on.
pub fn swap_clips<L: Ledger>(blank: Blank, card: &mut Card16, clips: &Region)
    requires name { blank.name ≡ L.name }
    requires parts { blank.parts ≡ L.parts }
    requires one { L.parts ≡ 1 }
    requires screen { IsScreen card.old }
    requires within { StayOn card.old clips.now }
    ensures shown { (f : ℕ → ℕ → Pixel) (front : ℕ → ℕ → Rgb) → Holds card.old f → Shows card.old front → Shows card.new (swapped_in clips.now f front) }
    ensures others { OnlyShown card.old card.new }
    ensures sides { KeepSides card.old card.new }
{
    let mut steps = Steps::<L>::new(blank);
    clips.arranged();
    for i in 0..clips.len() {
        card.swap(clip_rect(&clips.rect(i)), &mut steps).unwrap();
    }
}

/// Draws a triangle, or the line that it is, at each pixel of the clips, with the card's registers and texture memory. The
/// window's pixel is the screen's less the origin. The steps are counted from the blank on.
pub fn draw_clips<L: Ledger>(
    blank: Blank,
    card: &mut Card16,
    clips: &Region,
    origin: Point,
    triangle: &Triangle,
)
    requires name { blank.name ≡ L.name }
    requires parts { blank.parts ≡ L.parts }
    requires one { L.parts ≡ 1 }
    requires screen { IsScreen card.old }
    requires within { StayOn card.old clips.now }
    requires x { IsPlace origin.x }
    requires y { IsPlace origin.y }
    requires range { TriangleInRange triangle.now }
    ensures held { (f : ℕ → ℕ → Pixel) → Holds card.old f → Holds card.new (drawn16_in card.old origin triangle.now clips.now f) }
    ensures others { OnlyDrawnOn card.old card.new }
    ensures sides { KeepSides card.old card.new }
{
    let mut steps = Steps::<L>::new(blank);
    let mut buffer = Buffer::new();
    buffer.push_triangle(triangle).unwrap();
    clips.arranged();
    for i in 0..clips.len() {
        card.set_clip(clip_rect(&clips.rect(i))).unwrap();
        card.dispatch(&buffer, origin, &mut steps).unwrap();
    }
}
