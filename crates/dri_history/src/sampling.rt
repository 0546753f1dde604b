//! What stands at a place of a card.

ghost use Rattle.std.specs.Prelude.{◌≡◌, ◌<◌, ℕ};
ghost use Rattle.dri_base.specs.declared.colour.Pixel.{Pixel};
ghost use Rattle.dri_base.specs.declared.colour.Rgb.{Rgb};
ghost use Rattle.dri_card.specs.Contents.{HaveSides, Holds, Shows};

use crate::touch::Sample;
use dri_base::{Pixel, Steps};
use dri_card::Card;
use std::marker::Brand;
use std::sync::ledger::{Blank, Ledger};

/// What a card has at a place.
pub fn sample(card: &Card, x: u32, y: u32) -> Sample
    requires sides { HaveSides card.now card.now.front.width card.now.front.height }
    requires column { x < card.now.front.width }
    requires row { y < card.now.front.height }
    ensures { (back : ℕ → ℕ → Pixel) (front : ℕ → ℕ → Rgb) → Holds card.now back → Shows card.now front → result ≡ record { front = front x y; back = back x y } }
{
    counted_sample::<Brand>(Blank::new(1), card, x, y)
}

// The same. The steps are counted from the blank on.
fn counted_sample<L: Ledger>(blank: Blank, card: &Card, x: u32, y: u32) -> Sample
    requires name { blank.name ≡ L.name }
    requires parts { blank.parts ≡ L.parts }
    requires one { L.parts ≡ 1 }
    requires sides { HaveSides card.now card.now.front.width card.now.front.height }
    requires column { x < card.now.front.width }
    requires row { y < card.now.front.height }
    ensures { (back : ℕ → ℕ → Pixel) (front : ℕ → ℕ → Rgb) → Holds card.now back → Shows card.now front → result ≡ record { front = front x y; back = back x y } }
{
    let mut steps = Steps::<L>::new(blank);
    let front = card.front().get(x, y, &mut steps);
    let colour = card.back().get(x, y, &mut steps);
    let depth = card.depth().get(x, y, &mut steps);
    Sample {
        front,
        back: Pixel { colour, depth },
    }
}
