//! A card of sixteen bits worked by hand, on a screen of one row of four pixels: the words of front after each call, and what is
//! refused.

ghost use Rattle.std.specs.Prelude.{◌≡◌};
ghost use Rattle.dri_base.specs.Ranges.{TriangleInRange};

use crate::card::{RED, SOLID, buffer, row, scene};
use dri_base::{Point, Rgb, Steps, Triangle, Vertex};
use dri_card16::Card16;
use std::alloc::Global;
use std::marker::Brand;
use std::process::Abort;
use std::sync::ledger::{Blank, Ledger};
use std::test::Fail;

/// How many columns the screen has.
const COLUMNS: u16 = 4;

/// A colour of which nothing is kept, and the words of black, red and green.
const FAINT: Rgb = Rgb { r: 7, g: 3, b: 7 };

const BLACK_WORD: u16 = 0;

const RED_WORD: u16 = 0xf800;

const GREEN_WORD: u16 = 0x07e0;

/// Words of the registers: both blendings, and a shading that isn't there.
const ADD: &[u32] = &[0x5200_0002, 2];

const WRONG: &[u32] = &[0x5200_0000, 9];

/// The card of a black screen.
fn card<R: Abort>(rt: &R, alloc: Global) -> Result<Card16, Fail> {
    let scene = scene(alloc, u32::from(COLUMNS), &[])?;
    assert!(rt; scene.in_range());
    Ok(Card16::new(alloc, &scene)?)
}

/// A line in green, three pixels across the row.
fn line() -> Triangle
    ensures { TriangleInRange result }
{
    let start = Vertex {
        x: 0,
        y: 8,
        z: 0,
        colour: SOLID,
        s: 0,
        t: 0,
    };
    let end = Vertex { x: 48, ..start };
    Triangle {
        a: start,
        b: end,
        c: end,
    }
}

/// Front has these words.
fn expect_words<R: Abort>(rt: &R, card: &Card16, words: [u16; 4]) {
    assert!(rt; card.front16().pixels() == words.as_slice());
}

/// Draws the line on faint black, and shows it.
fn draw_line<L: Ledger, R: Abort>(rt: &R, card: &mut Card16, steps: &mut Steps<L>) {
    assert!(rt; card.clear(row(0, COLUMNS), FAINT, 65_535, steps).is_ok());
    assert!(rt; card.set_clip(row(0, COLUMNS)).is_ok());
    let buffer = buffer(rt, &line());
    assert!(rt; card.dispatch(&buffer, Point { x: 0, y: 0 }, steps).is_ok());
    assert!(rt; card.swap(row(0, COLUMNS), steps).is_ok());
}

/// Takes each pixel but the last one column to the right.
fn carry_right<L: Ledger>(card: &mut Card16, steps: &mut Steps<L>) -> bool {
    card.carry(&[row(0, COLUMNS - 1)], 1, 0, steps).is_ok()
}

/// What is refused: rectangles beyond the screen, bytes beyond the memory, words that spell nothing.
fn refuse_all<L: Ledger, R: Abort>(rt: &R, card: &mut Card16, steps: &mut Steps<L>) {
    let beyond = row(0, COLUMNS + 1);
    assert!(rt; card.clear(beyond, RED, 0, steps).is_err());
    assert!(rt; card.swap(beyond, steps).is_err());
    assert!(rt; card.paint(beyond, RED, steps).is_err());
    assert!(rt; card.set_clip(beyond).is_err());
    assert!(rt; card.upload(256, &[1]).is_err());
    assert!(rt; card.load_registers(WRONG).is_err());
}

fn each_call<L: Ledger, R: Abort>(rt: &R, alloc: Global, blank: Blank) -> Result<(), Fail>
    requires name { blank.name ≡ L.name }
    requires parts { blank.parts ≡ L.parts }
    requires one { L.parts ≡ 1 }
{
    let mut steps = Steps::<L>::new(blank);
    let mut card = card(rt, alloc)?;
    expect_words(rt, &card, [BLACK_WORD; 4]);
    assert!(rt; card.upload(255, &[1]).is_ok());
    assert!(rt; card.load_registers(ADD).is_ok());
    draw_line(rt, &mut card, &mut steps);
    expect_words(rt, &card, [GREEN_WORD, GREEN_WORD, GREEN_WORD, BLACK_WORD]);
    assert!(rt; card.paint(row(0, 1), RED, &mut steps).is_ok());
    assert!(rt; carry_right(&mut card, &mut steps));
    let carried = [RED_WORD, RED_WORD, GREEN_WORD, GREEN_WORD];
    expect_words(rt, &card, carried);
    refuse_all(rt, &mut card, &mut steps);
    expect_words(rt, &card, carried);
    Ok(())
}

#[test]
fn calls(rt: HostRuntime) -> Result<(), Fail> {
    each_call::<Brand, _>(&rt, rt.alloc(), Blank::new(1))
}
