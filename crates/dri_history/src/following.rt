//! One entry of a journal, on a card. The replay tells what the entry does, and what its client draws with. None of it is
//! changed by the entries of clients that draw, so it is looked up after the entry was taken.

ghost use Rattle.std.specs.Prelude.{◌≡◌, length, Contains};
ghost use Rattle.dri_base.specs.Ranges.{client_numbers, heap_bytes};
ghost use Rattle.dri_card.specs.Contents.{HaveSides};
ghost use Rattle.dri_history.specs.Follows.{IsFollowing, IsMade};
ghost use Rattle.dri_journal.specs.Replays.{world_of};
ghost use Rattle.dri_journal.specs.declared.deed.Deed.TheVariants as Deed_is;
ghost use Rattle.dri_replay.specs.Cards.{Follows};
ghost use Rattle.dri_replay.specs.Makings.{CanShow, MayMake};

use crate::drawing::draw;
use crate::showing;
use dri_base::{Entry, Rgb};
use dri_card::Card;
use dri_clips::Touched;
use dri_draw::{clear_clips, swap_clips};
use dri_journal::{Deed, Replay, StepFault, client_of};
use std::alloc::Global;
use std::marker::Brand;
use std::sync::ledger::Blank;

/// Clears a client's window.
fn clear(card: &mut Card, replay: &Replay<'_>, client: u32, colour: Rgb, depth: u16)
    requires there { Contains (client_numbers replay.now.scene.clients) client }
    requires sides { HaveSides card.old replay.now.scene.width replay.now.scene.height }
    ensures { IsMade replay.now client (Deed_is.Clear colour depth) card.old card.new }
{
    replay.entries();
    clear_clips::<Brand>(Blank::new(1), card, replay.clips(client), colour, depth);
}

/// Shows back in a client's window.
fn swap(card: &mut Card, replay: &Replay<'_>, client: u32)
    requires there { Contains (client_numbers replay.now.scene.clients) client }
    requires sides { HaveSides card.old replay.now.scene.width replay.now.scene.height }
    ensures { IsMade replay.now client Deed_is.Swap card.old card.new }
{
    replay.entries();
    swap_clips::<Brand>(Blank::new(1), card, replay.clips(client));
}

/// Shows what a new stack leaves.
fn show(card: &mut Card, replay: &Replay<'_>, client: u32, touched: &Touched)
    requires sides { HaveSides card.old replay.now.scene.width replay.now.scene.height }
    requires can { CanShow replay.now.scene.width replay.now.scene.height touched.now }
    ensures { IsMade replay.now client (Deed_is.Touched touched.now) card.old card.new }
{
    replay.entries();
    showing::show::<Brand>(Blank::new(1), card, touched);
}

/// Makes a deed of a client on the card.
fn make(card: &mut Card, replay: &Replay<'_>, client: u32, deed: &Deed)
    requires may { MayMake replay.now client deed.now }
    requires sides { HaveSides card.old replay.now.scene.width replay.now.scene.height }
    requires bytes { length card.old.memory ≡ heap_bytes replay.now.scene }
    ensures { IsMade replay.now client deed.now card.old card.new }
{
    match deed {
        Deed::Nothing => {}
        Deed::Clear { colour, depth } => clear(card, replay, client, *colour, *depth),
        Deed::Triangle(triangle) => draw(card, replay, client, triangle),
        Deed::Swap => swap(card, replay, client),
        Deed::Touched(touched) => show(card, replay, client, touched),
    }
}

/// Takes the next entry, makes on the card what it does, and tells that. An entry that isn't legal is refused.
pub fn follow(
    card: &mut Card,
    alloc: Global,
    replay: &mut Replay<'_>,
    entry: &Entry,
) -> Result<Deed, StepFault>
    requires { Follows replay.old.scene (world_of replay.old) card.old }
    ensures { IsFollowing replay.old replay.new entry.now card.new result }
{
    replay.entries();
    let deed = match replay.step(alloc, entry) {
        Ok(deed) => deed,
        Err(fault) => return Err(fault),
    };
    make(card, &*replay, client_of(entry), &deed);
    Ok(deed)
}
