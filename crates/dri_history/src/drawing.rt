//! A triangle of a client, drawn by the client's own state and texture: they are loaded into the card first.

ghost use Rattle.std.specs.Prelude.{◌≡◌, ℤ, length, Contains};
ghost use Rattle.dri_base.specs.Fragments.{fragment, rules_of};
ghost use Rattle.dri_base.specs.Ranges.{TriangleInRange, client_numbers, heap_bytes};
ghost use Rattle.dri_base.specs.Scenes.{textures_of};
ghost use Rattle.dri_base.specs.Texels.{own_image};
ghost use Rattle.dri_base.specs.declared.colour.Pixel.{Pixel};
ghost use Rattle.dri_base.specs.declared.shape.Triangle.{Triangle};
ghost use Rattle.dri_card.specs.Contents.{HaveSides};
ghost use Rattle.dri_card.specs.Drawing.{drawn};
ghost use Rattle.dri_history.specs.Follows.{IsMade};
ghost use Rattle.dri_journal.specs.declared.deed.Deed.TheVariants as Deed_is;
ghost use Rattle.dri_replay.specs.Cards.{OnlyLoaded};
ghost use Rattle.dri_replay.specs.Makings.{state_now};

use dri_base::Triangle;
use dri_card::Card;
use dri_draw::draw_clips;
use dri_journal::Replay;
use dri_meaning::{bytes_of, registers_alone, texture_bound};
use dri_replay::state_words;
use std::marker::Brand;
use std::sync::ledger::Blank;

/// Where an image begins in the card's texture memory.
const FIRST_BYTE: u32 = 0;

// Loads a client's own state and texture.
fn load(card: &mut Card, replay: &Replay<'_>, client: u32)
    requires there { Contains (client_numbers replay.now.scene.clients) client }
    requires bytes { length card.old.memory ≡ heap_bytes replay.now.scene }
    ensures draws { (t : Triangle) (x y : ℤ) (under : Pixel) → drawn card.new t x y under ≡ fragment (rules_of (state_now replay.now client)) (own_image (textures_of replay.now.scene client) (state_now replay.now client).bound) t x y under }
    ensures others { OnlyLoaded card.old card.new }
    ensures len { length card.new.memory ≡ length card.old.memory }
{
    replay.entries();
    let state = replay.state(client);
    let image = texture_bound(replay.script(client).textures.as_slice(), state.bound);
    let words = state_words(&state, registers_alone(&state, image).bound);
    card.upload(FIRST_BYTE, bytes_of(image)).unwrap();
    card.load_registers(words.words()).unwrap();
}

/// Draws a triangle in a client's window.
pub fn draw(card: &mut Card, replay: &Replay<'_>, client: u32, triangle: &Triangle)
    requires there { Contains (client_numbers replay.now.scene.clients) client }
    requires triangle { TriangleInRange triangle.now }
    requires sides { HaveSides card.old replay.now.scene.width replay.now.scene.height }
    requires bytes { length card.old.memory ≡ heap_bytes replay.now.scene }
    ensures { IsMade replay.now client (Deed_is.Triangle triangle.now) card.old card.new }
{
    replay.entries();
    load(card, replay, client);
    draw_clips::<Brand>(
        Blank::new(1),
        card,
        replay.clips(client),
        replay.origin(client),
        triangle,
    );
}
