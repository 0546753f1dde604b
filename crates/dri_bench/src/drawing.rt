//! The card's drawing on a screen of 640 by 480: triangles of some kinds, a clear, a swap, and the load of one client.

ghost use Rattle.std.specs.Prelude.{◌≡◌, ◌≤◌, ◌+◌};
ghost use Rattle.dri_base.specs.Ranges.{TriangleInRange, VertexInRange};

use crate::load;
use dri_base::{
    Changes, Clients, ClipRect, Items, Point, Rgb, Rgba, Scene, Steps, Triangle, Vertex, Windows,
};
use dri_card::Card;
use dri_cmdbuf::Buffer;
use std::alloc::Global;
use std::marker::Brand;
use std::sync::ledger::{Blank, Ledger};

pub const WIDTH: u16 = 640;

pub const HEIGHT: u16 = 480;

/// The sides of the window, in sixteenths of a pixel.
const RIGHT: u16 = 16 * 280;

const BOTTOM: u16 = 16 * 220;

/// From one of the small triangles to the next, in sixteenths of a pixel.
const CELL: u16 = 512;

const CELLS_ACROSS: u16 = 20;

const CELLS_DOWN: u16 = 15;

/// The rectangle that is moved.
const MOVED: ClipRect = ClipRect {
    x1: 0,
    y1: 0,
    x2: 600,
    y2: 400,
};

/// How far it is moved, there and back.
const ACROSS: i32 = 40;

const DOWN: i32 = 80;

/// The side of the texture, in texels.
const SIDE: u16 = 64;

/// The bytes of the texture.
pub const MEMORY: usize = 4096;

pub const BACKGROUND: Rgb = Rgb {
    r: 10,
    g: 20,
    b: 30,
};

/// What is timed.
#[derive(Clone, Copy, Drop, PartialEq, Eq)]
pub enum Work {
    Flat,
    Smooth,
    Blended,
    Textured,
    Cells,
    Tiny,
    Row,
    Nothing,
    Sliver,
    Clear,
    Swap,
    Move,
    Load,
}

impl Work {
    /// The work of a name.
    pub fn of(name: &str) -> Option<Work> {
        match name {
            "flat" => Some(Work::Flat),
            "smooth" => Some(Work::Smooth),
            "blended" => Some(Work::Blended),
            "textured" => Some(Work::Textured),
            "cells" => Some(Work::Cells),
            "tiny" => Some(Work::Tiny),
            "row" => Some(Work::Row),
            "nothing" => Some(Work::Nothing),
            "sliver" => Some(Work::Sliver),
            "clear" => Some(Work::Clear),
            "swap" => Some(Work::Swap),
            "move" => Some(Work::Move),
            "load" => Some(Work::Load),
            _ => None,
        }
    }

    /// The words of its registers: shading, depth, blending, texture mode, wrapping and the image.
    pub fn words(self) -> [u32; 15] {
        let (shade, depth_func, depth_write, blend, mode) = match self {
            Work::Smooth => (1, 7, 0, 0, 0),
            Work::Blended => (1, 7, 0, 1, 0),
            Work::Textured | Work::Cells => (0, 3, 1, 0, 2),
            _ => (0, 7, 0, 0, 0),
        };
        [
            0x5200_0000,
            shade,
            0x5200_0001,
            depth_func,
            depth_write,
            0x5200_0002,
            blend,
            0x5200_0003,
            mode,
            0x5200_0004,
            0,
            0x5200_0005,
            1,
            0,
            64 + 64 * 65_536,
        ]
    }

    /// Its triangles.
    pub fn buffer(self) -> Buffer {
        match self {
            Work::Clear | Work::Swap | Work::Load => Buffer::new(),
            Work::Cells | Work::Move => grid(256, 256),
            Work::Tiny => grid(48, 48),
            Work::Row => grid(256, 16),
            Work::Nothing => grid(6, 6),
            Work::Sliver => slivers(),
            _ => window_halves(),
        }
    }
}

/// A corner of a triangle: its place, depth, colour and texture coordinates.
pub fn corner(x: u16, y: u16, z: u16, colour: Rgba, s: u16, t: u16) -> Vertex
    requires x { x ≤ 32767 }
    requires y { y ≤ 32767 }
    ensures { VertexInRange result }
{
    Vertex {
        x: i32::from(x),
        y: i32::from(y),
        z,
        colour,
        s,
        t,
    }
}

/// A triangle with a right angle at its upper left corner.
fn right_angle(x: u16, y: u16, across: u16, down: u16) -> Triangle
    requires x { x ≤ 16000 }
    requires y { y ≤ 16000 }
    requires across { across ≤ 16000 }
    requires down { down ≤ 16000 }
    ensures { TriangleInRange result }
{
    let last = 16 * SIDE - 1;
    let red = Rgba {
        r: 255,
        g: 0,
        b: 0,
        a: 255,
    };
    let green = Rgba {
        r: 0,
        g: 255,
        b: 0,
        a: 128,
    };
    let blue = Rgba {
        r: 0,
        g: 0,
        b: 255,
        a: 64,
    };
    Triangle {
        a: corner(x, y, 1000, red, 0, 0),
        b: corner(x + across, y, 2000, green, last, 0),
        c: corner(x, y + down, 3000, blue, 0, last),
    }
}

/// The two halves of the window.
fn window_halves() -> Buffer {
    let mut buffer = Buffer::new();
    let upper = right_angle(0, 0, RIGHT, BOTTOM);
    let last = 16 * SIDE - 1;
    let lower = Triangle {
        a: upper.b,
        b: corner(RIGHT, BOTTOM, 1000, upper.a.colour, last, last),
        c: upper.c,
    };
    let _ = buffer.push_triangle(&upper);
    let _ = buffer.push_triangle(&lower);
    buffer
}

/// Triangles of these sides, in sixteenths of a pixel, all over the screen.
fn grid(across: u16, down: u16) -> Buffer
    requires across { across ≤ 16000 }
    requires down { down ≤ 16000 }
{
    let mut buffer = Buffer::new();
    for row in 0..CELLS_DOWN {
        for column in 0..CELLS_ACROSS {
            let _ = buffer.push_triangle(&right_angle(CELL * column, CELL * row, across, down));
        }
    }
    buffer
}

/// Triangles from the top of the screen to its bottom, so thin that they cover nothing.
fn slivers() -> Buffer {
    let mut buffer = Buffer::new();
    for column in 0..CELLS_ACROSS {
        let _ = buffer.push_triangle(&right_angle(CELL * column, 0, 6, 16 * HEIGHT));
    }
    buffer
}

/// A screen without a window.
pub fn scene(alloc: Global) -> Scene {
    Scene {
        width: u32::from(WIDTH),
        height: u32::from(HEIGHT),
        root: Rgb { r: 0, g: 0, b: 0 },
        regions: 16,
        region_size: 4096,
        windows: Windows::new(alloc),
        clients: Clients::new(alloc),
        changes: Changes::new(alloc),
        turns: Items::new(alloc),
    }
}

/// The bytes of the texture.
pub fn texels(alloc: Global) -> Option<Vec<u8>> {
    let mut bytes = Vec::new(alloc);
    for y in 0..SIDE {
        for x in 0..SIDE {
            bytes.push((x.wrapping_mul(y) % 256) as u8).ok()?;
        }
    }
    Some(bytes)
}

/// The rectangle of the screen from its upper left corner on.
pub fn rect(x2: u16, y2: u16) -> ClipRect {
    ClipRect {
        x1: 0,
        y1: 0,
        x2,
        y2,
    }
}

/// A sum of all that the three planes hold.
fn sum(card: &Card) -> u64 {
    let (back, depth, front) = (
        card.back().pixels(),
        card.depth().pixels(),
        card.front().pixels(),
    );
    let mut all: u64 = 0;
    for ((back, depth), front) in back.iter().zip(depth).zip(front) {
        let here = number(back)
            .wrapping_add(u64::from(*depth).wrapping_mul(7))
            .wrapping_add(number(front).wrapping_mul(11));
        all = all.wrapping_mul(31).wrapping_add(here);
    }
    all
}

fn number(pixel: &Rgb) -> u64 {
    u64::from(pixel.r)
        .wrapping_add(u64::from(pixel.g).wrapping_mul(256))
        .wrapping_add(u64::from(pixel.b).wrapping_mul(65_536))
}

/// The work, so many times; the sum of what it leaves. `None` for want of memory.
pub fn run(alloc: Global, work: Work, times: u32) -> Option<u64> {
    let scene = scene(alloc);
    if !scene.in_range() {
        return None;
    }
    let mut card = Card::new(alloc, &scene).ok()?;
    match work {
        Work::Load => load::prepare(alloc, &mut card)?,
        _ => prepare(alloc, &mut card, work)?,
    }
    repeat::<Brand>(&mut card, work, times, Blank::new(1))?;
    Some(sum(&card))
}

/// Makes a card ready for the work.
fn prepare(alloc: Global, card: &mut Card, work: Work) -> Option<()> {
    let texels = texels(alloc)?;
    if texels.len() > MEMORY {
        return None;
    }
    card.upload(0, texels.as_slice()).ok()?;
    card.load_registers(&work.words()).ok()?;
    card.set_clip(rect(WIDTH, HEIGHT)).ok()
}

/// Nobody asks for the steps.
fn repeat<L: Ledger>(card: &mut Card, work: Work, times: u32, blank: Blank) -> Option<()>
    requires name { blank.name ≡ L.name }
    requires parts { blank.parts ≡ L.parts }
    requires one { L.parts ≡ 1 }
{
    let mut steps = Steps::<L>::new(blank);
    let screen = rect(WIDTH, HEIGHT);
    let buffer = work.buffer();
    let origin = Point { x: 0, y: 0 };
    card.clear(screen, BACKGROUND, 65_535, &mut steps).ok()?;
    if work == Work::Load {
        return load::draw(card, times, &mut steps);
    }
    if work == Work::Move {
        card.dispatch(&buffer, origin, &mut steps).ok()?;
        card.swap(screen, &mut steps).ok()?;
    }
    for _ in 0..times {
        match work {
            Work::Clear => card.clear(screen, BACKGROUND, 65_535, &mut steps).ok()?,
            Work::Swap => card.swap(screen, &mut steps).ok()?,
            Work::Move => move_there_and_back(card, &mut steps)?,
            _ => card.dispatch(&buffer, origin, &mut steps).ok()?,
        }
    }
    Some(())
}

/// Carries a rectangle, and carries it back.
fn move_there_and_back<L: Ledger>(card: &mut Card, steps: &mut Steps<L>) -> Option<()> {
    let there = ClipRect {
        x1: 40,
        y1: 80,
        x2: 640,
        y2: 480,
    };
    card.carry(&[MOVED], ACROSS, DOWN, steps).ok()?;
    card.carry(&[there], -ACROSS, -DOWN, steps).ok()
}
