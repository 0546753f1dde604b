//! Pixels that are carried: over themselves in each direction, two rectangles at once, and each refusal.

ghost use Rattle.std.specs.Prelude.{◌≡◌};

use dri_base::{Changes, Clients, ClipRect, Items, Rgb, Scene, Steps, Windows};
use dri_card::{Card, OutsideCard};
use std::alloc::Global;
use std::marker::Brand;
use std::process::Abort;
use std::sync::ledger::{Blank, Ledger};
use std::test::Fail;

/// How many columns and rows the card has.
const SIDE: u16 = 3;

fn grey(v: u8) -> Rgb {
    Rgb { r: v, g: v, b: v }
}

fn rect(x1: u16, y1: u16, x2: u16, y2: u16) -> ClipRect
    ensures { result ≡ record { x1 = x1; y1 = y1; x2 = x2; y2 = y2 } }
{
    ClipRect { x1, y1, x2, y2 }
}

/// The card of a screen without windows.
fn card<R: Abort>(rt: &R, alloc: Global) -> Result<Card, Fail> {
    let scene = Scene {
        width: u32::from(SIDE),
        height: u32::from(SIDE),
        root: grey(0),
        regions: 1,
        region_size: 256,
        windows: Windows::new(alloc),
        clients: Clients::new(alloc),
        changes: Changes::new(alloc),
        turns: Items::new(alloc),
    };
    assert!(rt; scene.in_range());
    Ok(Card::new(alloc, &scene)?)
}

/// Gives each pixel values of its own, which tell its place.
fn draw_places<L: Ledger, R: Abort>(rt: &R, card: &mut Card, steps: &mut Steps<L>) {
    for k in 0..SIDE * SIDE {
        let (x, y) = (k % SIDE, k / SIDE);
        let place = rect(x, y, x + 1, y + 1);
        assert!(rt; card.paint(place, grey(k as u8), steps).is_ok());
        assert!(rt;
            card.clear(place, grey(100 + k as u8), 1_000 + k, steps)
                .is_ok()
        );
    }
}

/// Each pixel has the values that were drawn at that place.
fn expect_places<R: Abort>(rt: &R, card: &Card, places: &[u8; 9]) {
    let mut shown = [grey(0); 9];
    let mut drawn = [grey(0); 9];
    let mut depth = [0_u16; 9];
    for k in 0..9 {
        let place = places[k] % 9;
        shown[k] = grey(place);
        drawn[k] = grey(100 + place);
        depth[k] = 1_000 + u16::from(place);
    }
    assert!(rt; card.front().pixels() == shown.as_slice());
    assert!(rt; card.back().pixels() == drawn.as_slice());
    assert!(rt; card.depth().pixels() == depth.as_slice());
}

/// Carries one rectangle.
fn carry_one<L: Ledger, R: Abort>(
    rt: &R,
    card: &mut Card,
    rect: ClipRect,
    (dx, dy): (i32, i32),
    steps: &mut Steps<L>,
) -> Result<(), OutsideCard> {
    assert!(rt; -1 <= dx && dx <= 1 && -1 <= dy && dy <= 1);
    card.carry(&[rect], dx, dy, steps)
}

/// Where the pixels stand that aren't carried.
const HOME: [u8; 9] = [0, 1, 2, 3, 4, 5, 6, 7, 8];

/// A rectangle (x1, y1, x2, y2), how far it is carried, and the places whose pixels stand at each place then. There are none
/// where it is refused: it lies beyond a side, before it is moved or after, or its sides are the wrong way round.
const ROWS: [([u16; 4], (i32, i32), Option<[u8; 9]>); 14] = [
    ([0, 0, 2, 3], (1, 0), Some([0, 0, 1, 3, 3, 4, 6, 6, 7])),
    ([1, 0, 3, 3], (-1, 0), Some([1, 2, 2, 4, 5, 5, 7, 8, 8])),
    ([0, 0, 3, 2], (0, 1), Some([0, 1, 2, 0, 1, 2, 3, 4, 5])),
    ([0, 1, 3, 3], (0, -1), Some([3, 4, 5, 6, 7, 8, 6, 7, 8])),
    ([0, 0, 2, 2], (1, 1), Some([0, 1, 2, 3, 0, 1, 6, 3, 4])),
    ([0, 0, 3, 3], (0, 0), Some(HOME)),
    ([2, 0, 4, 1], (0, 0), None),
    ([0, 2, 1, 4], (0, 0), None),
    ([2, 0, 1, 1], (0, 0), None),
    ([0, 2, 1, 1], (0, 0), None),
    ([0, 1, 1, 2], (-1, 0), None),
    ([1, 0, 2, 1], (0, -1), None),
    ([2, 1, 3, 2], (1, 0), None),
    ([1, 2, 2, 3], (0, 1), None),
];

/// Carries one rectangle, and compares the answer.
fn carries<L: Ledger, R: Abort>(
    rt: &R,
    card: &mut Card,
    [x1, y1, x2, y2]: [u16; 4],
    by: (i32, i32),
    is_carried: bool,
    steps: &mut Steps<L>,
) {
    let rect = rect(x1, y1, x2, y2);
    let right = if is_carried {
        Ok(())
    } else {
        Err(OutsideCard::Clip { rect })
    };
    assert!(rt; carry_one(rt, card, rect, by, steps) == right);
}

/// Carries the first two columns by one.
fn carry_two<L: Ledger>(card: &mut Card, steps: &mut Steps<L>) -> bool {
    let columns = [rect(0, 0, 1, SIDE), rect(1, 0, 2, SIDE)];
    card.carry(&columns, 1, 0, steps).is_ok()
}

fn carry_each<L: Ledger, R: Abort>(rt: &R, alloc: Global, blank: Blank) -> Result<(), Fail>
    requires name { blank.name ≡ L.name }
    requires parts { blank.parts ≡ L.parts }
    requires one { L.parts ≡ 1 }
{
    let mut steps = Steps::<L>::new(blank);
    let mut card = card(rt, alloc)?;
    for (rect, by, places) in &ROWS {
        draw_places(rt, &mut card, &mut steps);
        carries(rt, &mut card, *rect, *by, places.is_some(), &mut steps);
        expect_places(rt, &card, &places.unwrap_or(HOME));
    }
    draw_places(rt, &mut card, &mut steps);
    assert!(rt; carry_two(&mut card, &mut steps));
    expect_places(rt, &card, &[0, 0, 1, 3, 3, 4, 6, 6, 7]);
    Ok(())
}

#[test]
fn rows(rt: HostRuntime) -> Result<(), Fail> {
    carry_each::<Brand, _>(&rt, rt.alloc(), Blank::new(1))
}
