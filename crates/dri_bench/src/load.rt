//! The load of one client, as scenes for timing have it: twenty frames, over and over, in a window of 280 by 220. Each is a
//! clear, a texture that is bound, two textured triangles with depth, and a swap.

ghost use Rattle.dri_base.specs.Ranges.{TriangleInRange};

use crate::drawing::corner;
use dri_base::{ClipRect, Point, Rgb, Rgba, Steps, Triangle};
use dri_card::Card;
use dri_cmdbuf::Buffer;
use std::alloc::Global;
use std::sync::ledger::Ledger;

/// How many frames there are, one after another.
const FRAMES: u32 = 20;

/// How many textures there are, bound in turn.
const TEXTURES: u8 = 3;

/// The side of a texture, in texels.
const SIDE: u16 = 64;

/// The bytes of a texture.
const BYTES: u16 = SIDE * SIDE;

/// The sides of the window, in sixteenths of a pixel.
const RIGHT: u16 = 16 * 280;

const BOTTOM: u16 = 16 * 220;

/// The last coordinate of a texture, in sixteenths of a texel.
const LAST: u16 = 16 * SIDE - 1;

/// The window's upper left corner on the screen.
const CORNER: Point = Point { x: 61, y: 43 };

/// The window on the screen.
const WINDOW: ClipRect = ClipRect {
    x1: 61,
    y1: 43,
    x2: 341,
    y2: 263,
};

/// What stands behind and in front.
const WHITE: Rgba = Rgba {
    r: 255,
    g: 255,
    b: 255,
    a: 255,
};

const GREENISH: Rgba = Rgba {
    r: 128,
    g: 255,
    b: 128,
    a: 255,
};

/// The words of the registers: less, depth written, modulate.
const WORDS: [u32; 5] = [0x5200_0001, 1, 1, 0x5200_0003, 2];

/// The upper half of the window, behind.
fn far() -> Triangle
    ensures { TriangleInRange result }
{
    Triangle {
        a: corner(0, 0, 1000, WHITE, 0, 0),
        b: corner(RIGHT, 0, 1000, WHITE, LAST, 0),
        c: corner(0, BOTTOM, 1000, WHITE, 0, LAST),
    }
}

/// The lower half, in front, by its frame's place from 0 on; it begins one pixel lower in each frame.
fn near(place: u8) -> Triangle
    ensures { TriangleInRange result }
{
    Triangle {
        a: corner(RIGHT, 16 * (u16::from(place) + 1), 500, GREENISH, 0, 0),
        b: corner(RIGHT, BOTTOM, 500, GREENISH, LAST, 0),
        c: corner(0, BOTTOM, 500, GREENISH, 0, LAST),
    }
}

/// A frame, by its place from 0 on.
fn draw_frame<L: Ledger>(card: &mut Card, place: u8, steps: &mut Steps<L>) -> Option<()> {
    let ground = Rgb {
        r: place.wrapping_add(1).wrapping_mul(10),
        g: 7,
        b: 0,
    };
    let base = base_of(place % TEXTURES);
    let mut buffer = Buffer::new();
    let _ = buffer.push_triangle(&far());
    let _ = buffer.push_triangle(&near(place));
    card.clear(WINDOW, ground, 65_535, steps).ok()?;
    card.load_registers(&[0x5200_0005, 1, base, 64 + 64 * 65_536])
        .ok()?;
    card.dispatch(&buffer, CORNER, steps).ok()?;
    card.swap(WINDOW, steps).ok()
}

/// Where a texture stands in the card's memory, by its place from 0 on.
fn base_of(place: u8) -> u32 {
    u32::from(place) * u32::from(BYTES)
}

/// The bytes of a texture, by its number from 1 on.
fn texels(alloc: Global, number: u16) -> Option<Vec<u8>> {
    let mut bytes = Vec::new(alloc);
    for y in 0..SIDE {
        for x in 0..SIDE {
            bytes
                .push((x.wrapping_mul(number).wrapping_add(y) % 256) as u8)
                .ok()?;
        }
    }
    Some(bytes)
}

/// Sends a texture to its place in the card's memory.
fn upload(alloc: Global, card: &mut Card, place: u8) -> Option<()> {
    let bytes = texels(alloc, u16::from(place) + 1)?;
    if bytes.len() > usize::from(BYTES) {
        return None;
    }
    card.upload(base_of(place), bytes.as_slice()).ok()
}

/// Makes a card ready for the frames.
pub fn prepare(alloc: Global, card: &mut Card) -> Option<()> {
    for place in 0..TEXTURES {
        upload(alloc, card, place)?;
    }
    card.load_registers(&WORDS).ok()?;
    card.set_clip(WINDOW).ok()
}

/// So many frames.
pub fn draw<L: Ledger>(card: &mut Card, times: u32, steps: &mut Steps<L>) -> Option<()> {
    for n in 0..times {
        draw_frame(card, (n % FRAMES) as u8, steps)?;
    }
    Some(())
}
