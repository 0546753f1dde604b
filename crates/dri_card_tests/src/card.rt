//! Cards worked by hand, as rows of what is done to each: a window beyond the left edge with a scissor, two blends over two
//! clip rectangles, a texture, and what is refused.

ghost use Rattle.std.specs.Prelude.{◌≡◌};
ghost use Rattle.dri_base.specs.Ranges.{InRange, TriangleInRange};

use dri_base::{
    Changes, Clients, ClipRect, Items, OutOfMemory, Point, Rgb, Rgba, Scene, Steps, Triangle,
    Vertex, Window, Windows,
};
use dri_card::Card;
use dri_cmdbuf::Buffer;
use std::alloc::Global;
use std::marker::Brand;
use std::process::Abort;
use std::sync::ledger::{Blank, Ledger};
use std::test::Fail;

const BLACK: Rgb = Rgb { r: 0, g: 0, b: 0 };

pub(crate) const RED: Rgb = Rgb { r: 255, g: 0, b: 0 };

const GREEN: Rgb = Rgb { r: 0, g: 255, b: 0 };

/// Greys.
const UPPER: Rgb = Rgb {
    r: 0x22,
    g: 0x22,
    b: 0x22,
};

const LOWER: Rgb = Rgb {
    r: 0x11,
    g: 0x11,
    b: 0x11,
};

const MIXED: Rgb = Rgb {
    r: 0xc0,
    g: 0xc0,
    b: 0xc0,
};

const SEVEN: Rgb = Rgb { r: 7, g: 7, b: 7 };

/// A rectangle of one row.
pub(crate) fn row(x1: u16, x2: u16) -> ClipRect {
    ClipRect {
        x1,
        y1: 0,
        x2,
        y2: 1,
    }
}

/// A window's number, its left column, its width and its background.
pub(crate) type Placed = (u32, i32, u32, Rgb);

fn window(number: u32, x: i32, width: u32, background: Rgb) -> Window {
    Window {
        number,
        x,
        y: 0,
        width,
        height: 1,
        background,
        owner: 0,
        mapped: true,
    }
}

/// A screen of one black row with windows.
pub(crate) fn scene(alloc: Global, width: u32, windows: &[Placed]) -> Result<Scene, OutOfMemory> {
    let mut scene = Scene {
        width,
        height: 1,
        root: BLACK,
        regions: 1,
        region_size: 256,
        windows: Windows::new(alloc),
        clients: Clients::new(alloc),
        changes: Changes::new(alloc),
        turns: Items::new(alloc),
    };
    for (number, x, width, background) in windows {
        scene
            .windows
            .push(window(*number, *x, *width, *background))?;
    }
    Ok(scene)
}

/// The card of a scene that is in range.
fn card<R: Abort>(rt: &R, alloc: Global, width: u32, windows: &[Placed]) -> Result<Card, Fail> {
    let scene = scene(alloc, width, windows)?;
    assert!(rt; scene.in_range());
    Ok(Card::new(alloc, &scene)?)
}

/// Twenty pixels wide and high, at the window's corner.
fn triangle(colour: Rgba) -> Triangle
    ensures { TriangleInRange result }
{
    let corner = Vertex {
        x: 0,
        y: 0,
        z: 0,
        colour,
        s: 0,
        t: 0,
    };
    Triangle {
        a: corner,
        b: Vertex { x: 320, ..corner },
        c: Vertex { y: 320, ..corner },
    }
}

pub(crate) fn buffer<R: Abort>(rt: &R, triangle: &Triangle) -> Buffer
    requires { TriangleInRange triangle.now }
{
    let mut buffer = Buffer::new();
    assert!(rt; buffer.push_triangle(triangle).is_ok());
    buffer
}

/// What is done to a card, in columns of its one row.
enum Deed {
    Upload(u32, u8),
    Load(&'static [u32]),
    Clip(u16, u16),
    Clear(Rgb, u16, u16),
    /// A triangle of this colour, drawn at this column.
    Draw(Rgba, i32),
    /// A buffer that has this word alone.
    DrawWord(u32),
    Swap(u16, u16),
    Paint(Rgb, u16, u16),
}

/// Draws a buffer at a column, and tells whether it is taken.
fn draw<L: Ledger, R: Abort>(
    rt: &R,
    card: &mut Card,
    buffer: &Buffer,
    x: i32,
    steps: &mut Steps<L>,
) -> bool {
    assert!(rt; -1024 <= x && x <= 1024);
    card.dispatch(buffer, Point { x, y: 0 }, steps).is_ok()
}

/// A buffer with this word alone.
fn word_alone<R: Abort>(rt: &R, word: u32) -> Buffer {
    let mut buffer = Buffer::new();
    assert!(rt; buffer.push_word(word).is_ok());
    buffer
}

/// Does it, and tells whether the card takes it.
fn perform<L: Ledger, R: Abort>(
    rt: &R,
    card: &mut Card,
    deed: &Deed,
    steps: &mut Steps<L>,
) -> bool {
    match *deed {
        Deed::Upload(base, byte) => card.upload(base, &[byte]).is_ok(),
        Deed::Load(words) => card.load_registers(words).is_ok(),
        Deed::Clip(x1, x2) => card.set_clip(row(x1, x2)).is_ok(),
        Deed::Clear(colour, x1, x2) => card.clear(row(x1, x2), colour, 65_535, steps).is_ok(),
        Deed::Draw(colour, x) => {
            let buffer = buffer(rt, &triangle(colour));
            draw(rt, card, &buffer, x, steps)
        }
        Deed::DrawWord(word) => draw(rt, card, &word_alone(rt, word), 0, steps),
        Deed::Swap(x1, x2) => card.swap(row(x1, x2), steps).is_ok(),
        Deed::Paint(colour, x1, x2) => card.paint(row(x1, x2), colour, steps).is_ok(),
    }
}

/// Colours of triangles.
pub(crate) const SOLID: Rgba = Rgba {
    r: 0,
    g: 255,
    b: 0,
    a: 255,
};

const HALF: Rgba = Rgba {
    r: 128,
    g: 128,
    b: 128,
    a: 255,
};

const VEIL: Rgba = Rgba {
    r: 255,
    g: 255,
    b: 255,
    a: 128,
};

const DIM: Rgba = Rgba {
    r: 1,
    g: 2,
    b: 3,
    a: 255,
};

/// A screen's width and windows; what is done to its card, and whether the card takes it; and the scissor's columns and the
/// pixels on the screen then.
struct Case {
    width: u32,
    windows: &'static [Placed],
    deeds: &'static [(Deed, bool)],
    scissor: Option<(u16, u16)>,
    front: &'static [Rgb],
}

/// Words of the registers: the scissor of column 5, both blendings, and a texture of one texel in the last byte.
const SCISSOR: &[u32] = &[0x5200_0006, 1, 5, 65_542];

const ADD: &[u32] = &[0x5200_0002, 2];

const MIX: &[u32] = &[0x5200_0002, 1];

const TEXTURE: &[u32] = &[0x5200_0003, 1, 0x5200_0005, 1, 255, 65_537];

/// A texture of two texels there, which goes beyond the memory, and a shading that isn't there.
const WIDE: &[u32] = &[0x5200_0005, 1, 255, 65_538];

const WRONG: &[u32] = &[0x5200_0000, 9];

const CASES: [Case; 3] = [
    Case {
        width: 8,
        windows: &[(1, -5, 10, LOWER)],
        deeds: &[
            (Deed::Clear(RED, 0, 5), true),
            (Deed::Load(SCISSOR), true),
            (Deed::Clip(0, 5), true),
            (Deed::Draw(SOLID, -5), true),
            (Deed::Swap(0, 5), true),
        ],
        scissor: Some((5, 6)),
        front: &[GREEN, RED, RED, RED, RED, BLACK, BLACK, BLACK],
    },
    Case {
        width: 3,
        windows: &[(2, 1, 1, UPPER), (1, 0, 3, LOWER)],
        deeds: &[
            (Deed::Clear(BLACK, 0, 1), true),
            (Deed::Clear(BLACK, 2, 3), true),
            (Deed::Load(ADD), true),
            (Deed::Clip(0, 1), true),
            (Deed::Draw(HALF, 0), true),
            (Deed::Clip(2, 3), true),
            (Deed::Draw(HALF, 0), true),
            (Deed::Load(MIX), true),
            (Deed::Clip(0, 1), true),
            (Deed::Draw(VEIL, 0), true),
            (Deed::Clip(2, 3), true),
            (Deed::Draw(VEIL, 0), true),
            (Deed::Swap(0, 1), true),
            (Deed::Swap(2, 3), true),
        ],
        scissor: None,
        front: &[MIXED, UPPER, MIXED],
    },
    Case {
        width: 2,
        windows: &[],
        deeds: &[
            (Deed::Upload(255, 7), true),
            (Deed::Upload(256, 8), false),
            (Deed::Load(TEXTURE), true),
            (Deed::Load(WIDE), false),
            (Deed::Load(WRONG), false),
            (Deed::Clip(1, 2), true),
            (Deed::Clip(0, 3), false),
            (Deed::Draw(DIM, 0), true),
            (Deed::DrawWord(5), false),
            (Deed::Swap(0, 2), true),
            (Deed::Swap(0, 3), false),
            (Deed::Paint(RED, 0, 1), true),
        ],
        scissor: None,
        front: &[RED, SEVEN],
    },
];

/// Does all that a case says, and compares what is left.
fn holds<L: Ledger, R: Abort>(
    rt: &R,
    alloc: Global,
    case: &Case,
    steps: &mut Steps<L>,
) -> Result<(), Fail> {
    let mut card = card(rt, alloc, case.width, case.windows)?;
    for (deed, is_taken) in case.deeds {
        assert!(rt; perform(rt, &mut card, deed, steps) == *is_taken);
    }
    assert!(rt; card.front().pixels() == case.front);
    let scissor = case.scissor.map(|(x1, x2)| row(x1, x2));
    assert!(rt; card.registers().scissor == scissor);
    Ok(())
}

fn each_holds<L: Ledger, R: Abort>(rt: &R, alloc: Global, blank: Blank) -> Result<(), Fail>
    requires name { blank.name ≡ L.name }
    requires parts { blank.parts ≡ L.parts }
    requires one { L.parts ≡ 1 }
{
    let mut steps = Steps::<L>::new(blank);
    for case in &CASES {
        holds(rt, alloc, case, &mut steps)?;
    }
    Ok(())
}

#[test]
fn cases(rt: HostRuntime) -> Result<(), Fail> {
    each_holds::<Brand, _>(&rt, rt.alloc(), Blank::new(1))
}
