//! One entry of a journal, on a card. The replay tells what the entry does, and what its client draws with. None of it is
//! changed by the entries of clients that draw, so it is looked up after the entry was taken. All groups of a client's state and
//! its image are loaded before each of its triangles.

ghost use Rattle.std.specs.Prelude.{◌≡◌, ℤ, length, Contains};
ghost use Rattle.dri_base.specs.Fragments.{rules_of};
ghost use Rattle.dri_base.specs.Ranges.{TriangleInRange, client_numbers, heap_bytes};
ghost use Rattle.dri_base.specs.Scenes.{textures_of};
ghost use Rattle.dri_base.specs.Texels.{own_image};
ghost use Rattle.dri_base.specs.declared.colour.Pixel.{Pixel};
ghost use Rattle.dri_base.specs.declared.shape.Triangle.{Triangle};
ghost use Rattle.dri_card.specs.Contents.{HaveSides};
ghost use Rattle.dri_card16.specs.Calls.{drawn16};
ghost use Rattle.dri_card16.specs.Following.{Follows16, IsFollowing16, IsMade16};
ghost use Rattle.dri_card16.specs.Sixteen.{fragment16};
ghost use Rattle.dri_journal.specs.declared.deed.Deed.TheVariants as Deed_is;
ghost use Rattle.dri_replay.specs.Cards.{OnlyLoaded};
ghost use Rattle.dri_replay.specs.Makings.{CanShow, MayMake, state_now};

use crate::card::Card16;
use crate::clips::{clear_clips, draw_clips, swap_clips};
use crate::showing;
use dri_base::{Entry, Rgb, Triangle};
use dri_clips::Touched;
use dri_journal::{Deed, Replay, StepFault, client_of};
use dri_meaning::{bytes_of, registers_alone, texture_bound};
use dri_replay::state_words;
use std::alloc::Global;
use std::marker::Brand;
use std::sync::ledger::Blank;

/// Where an image begins in the card's texture memory.
const FIRST_BYTE: u32 = 0;

/// Loads a client's own state and texture.
fn load(card: &mut Card16, replay: &Replay<'_>, client: u32)
    requires there { Contains (client_numbers replay.now.scene.clients) client }
    requires bytes { length card.old.memory ≡ heap_bytes replay.now.scene }
    ensures draws { (t : Triangle) (x y : ℤ) (under : Pixel) → drawn16 card.new t x y under ≡ fragment16 (rules_of (state_now replay.now client)) (own_image (textures_of replay.now.scene client) (state_now replay.now client).bound) t x y under }
    ensures others { OnlyLoaded card.old card.new }
    ensures len { length card.new.memory ≡ length card.old.memory }
{
    replay.entries();
    let state = replay.state(client);
    let image = texture_bound(replay.script(client).textures.as_slice(), state.bound);
    let words = state_words(&state, registers_alone(&state, image).bound);
    card.upload(FIRST_BYTE, bytes_of(image)).unwrap();
    card.load_registers(words.words()).unwrap();
}

/// Draws a triangle, or the line that it is, in a client's window.
fn draw(card: &mut Card16, replay: &Replay<'_>, client: u32, triangle: &Triangle)
    requires there { Contains (client_numbers replay.now.scene.clients) client }
    requires triangle { TriangleInRange triangle.now }
    requires sides { HaveSides card.old replay.now.scene.width replay.now.scene.height }
    requires bytes { length card.old.memory ≡ heap_bytes replay.now.scene }
    ensures { IsMade16 replay.now client (Deed_is.Triangle triangle.now) card.old card.new }
{
    replay.entries();
    load(card, replay, client);
    draw_clips::<Brand>(
        Blank::new(1),
        card,
        replay.clips(client),
        replay.origin(client),
        triangle,
    );
}

/// Clears a client's window.
fn clear(card: &mut Card16, replay: &Replay<'_>, client: u32, colour: Rgb, depth: u16)
    requires there { Contains (client_numbers replay.now.scene.clients) client }
    requires sides { HaveSides card.old replay.now.scene.width replay.now.scene.height }
    ensures { IsMade16 replay.now client (Deed_is.Clear colour depth) card.old card.new }
{
    replay.entries();
    clear_clips::<Brand>(Blank::new(1), card, replay.clips(client), colour, depth);
}

/// Shows back in a client's window.
fn swap(card: &mut Card16, replay: &Replay<'_>, client: u32)
    requires there { Contains (client_numbers replay.now.scene.clients) client }
    requires sides { HaveSides card.old replay.now.scene.width replay.now.scene.height }
    ensures { IsMade16 replay.now client Deed_is.Swap card.old card.new }
{
    replay.entries();
    swap_clips::<Brand>(Blank::new(1), card, replay.clips(client));
}

/// Shows what a new stack leaves.
fn show(card: &mut Card16, replay: &Replay<'_>, client: u32, touched: &Touched)
    requires sides { HaveSides card.old replay.now.scene.width replay.now.scene.height }
    requires can { CanShow replay.now.scene.width replay.now.scene.height touched.now }
    ensures { IsMade16 replay.now client (Deed_is.Touched touched.now) card.old card.new }
{
    replay.entries();
    showing::show::<Brand>(Blank::new(1), card, touched);
}

/// Makes a deed of a client on the card.
fn make(card: &mut Card16, replay: &Replay<'_>, client: u32, deed: &Deed)
    requires may { MayMake replay.now client deed.now }
    requires sides { HaveSides card.old replay.now.scene.width replay.now.scene.height }
    requires bytes { length card.old.memory ≡ heap_bytes replay.now.scene }
    ensures { IsMade16 replay.now client deed.now card.old card.new }
{
    match deed {
        Deed::Nothing => {}
        Deed::Clear { colour, depth } => clear(card, replay, client, *colour, *depth),
        Deed::Triangle(triangle) => draw(card, replay, client, triangle),
        Deed::Swap => swap(card, replay, client),
        Deed::Touched(touched) => show(card, replay, client, touched),
    }
}

/// Takes the next entry, and makes on the card what it does. An entry that isn't legal is refused.
pub fn follow(
    card: &mut Card16,
    alloc: Global,
    replay: &mut Replay<'_>,
    entry: &Entry,
) -> Result<(), StepFault>
    requires { Follows16 replay.old card.old }
    ensures { IsFollowing16 replay.old replay.new entry.now card.new result }
{
    replay.entries();
    let deed = match replay.step(alloc, entry) {
        Ok(deed) => deed,
        Err(fault) => return Err(fault),
    };
    make(card, &*replay, client_of(entry), &deed);
    Ok(())
}
