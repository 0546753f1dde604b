//! Triangles on the card of sixteen bits, by the words and on the screen of the other card's.

ghost use Rattle.std.specs.Prelude.{◌≡◌};

use crate::drawing::{BACKGROUND, HEIGHT, MEMORY, WIDTH, Work, rect, scene, texels};
use dri_base::{Point, Steps};
use dri_card16::Card16;
use std::alloc::Global;
use std::marker::Brand;
use std::sync::ledger::{Blank, Ledger};

/// The work's triangles, so many times; the sum of what they leave in back. `None` for want of memory.
pub fn run(alloc: Global, work: Work, times: u32) -> Option<u64> {
    let scene = scene(alloc);
    if !scene.in_range() {
        return None;
    }
    let mut card = Card16::new(alloc, &scene).ok()?;
    prepare(alloc, &mut card, work)?;
    repeat::<Brand>(&mut card, work, times, Blank::new(1))?;
    Some(sum(card.front16().pixels()))
}

/// Makes a card ready for the work.
fn prepare(alloc: Global, card: &mut Card16, work: Work) -> Option<()> {
    let texels = texels(alloc)?;
    if texels.len() > MEMORY {
        return None;
    }
    card.upload(0, texels.as_slice()).ok()?;
    card.load_registers(&work.words()).ok()?;
    card.set_clip(rect(WIDTH, HEIGHT)).ok()
}

/// Nobody asks for the steps. Front has at last what was drawn.
fn repeat<L: Ledger>(card: &mut Card16, work: Work, times: u32, blank: Blank) -> Option<()>
    requires name { blank.name ≡ L.name }
    requires parts { blank.parts ≡ L.parts }
    requires one { L.parts ≡ 1 }
{
    let mut steps = Steps::<L>::new(blank);
    let screen = rect(WIDTH, HEIGHT);
    let buffer = work.buffer();
    card.clear(screen, BACKGROUND, 65_535, &mut steps).ok()?;
    for _ in 0..times {
        card.dispatch(&buffer, Point { x: 0, y: 0 }, &mut steps)
            .ok()?;
    }
    card.swap(screen, &mut steps).ok()
}

/// A sum of words.
fn sum(words: &[u16]) -> u64 {
    let mut all: u64 = 0;
    for word in words {
        all = all.wrapping_mul(31).wrapping_add(u64::from(*word));
    }
    all
}
