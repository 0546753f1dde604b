//! One entry of a journal, on the card. The replay tells what the entry does, and what its client draws with. None of it is
//! changed by the entries of clients that draw, so it is looked up after the entry was taken.

ghost use Rattle.std.specs.Prelude.{◌<◌, ◌+◌, length, Contains, OnOk};
ghost use Rattle.dri_base.specs.Limits.{word_end};
ghost use Rattle.dri_base.specs.Ranges.{TriangleInRange, client_numbers};
ghost use Rattle.dri_flip.specs.Follows.{IsAfter, IsFollowing, IsMade};
ghost use Rattle.dri_flip.specs.Meanings.{HaveSides};
ghost use Rattle.dri_journal.specs.declared.deed.Deed.TheVariants as Deed_is;
ghost use Rattle.dri_replay.specs.Makings.{MayMake};

use crate::clips::clips_of;
use crate::counted::CountedCard;
use dri_base::{Entry, OutOfMemory, Rgb, Steps, Triangle};
use dri_journal::{Deed, Replay, StepFault, client_of};
use std::alloc::Global;
use std::sync::ledger::Ledger;

/// Clears a client's window.
fn clear<L: Ledger>(
    counted: &mut CountedCard,
    alloc: Global,
    replay: &Replay<'_>,
    client: u32,
    colour: Rgb,
    depth: u16,
    steps: &mut Steps<L>,
) -> Result<(), OutOfMemory>
    requires there { Contains (client_numbers replay.now.scene.clients) client }
    requires sides { HaveSides counted.old.card replay.now.scene.width replay.now.scene.height }
    requires few { counted.old.copies + 1 < word_end }
    ensures { OnOk result (IsMade replay.now client (Deed_is.Clear colour depth) counted.old counted.new) }
{
    let rects = clips_of(alloc, replay, client)?;
    counted.clear(rects.as_slice(), colour, depth, steps);
    Ok(())
}

/// Draws a triangle in a client's window, by the client's own state and texture.
fn draw<L: Ledger>(
    counted: &mut CountedCard,
    alloc: Global,
    replay: &Replay<'_>,
    client: u32,
    triangle: &Triangle,
    steps: &mut Steps<L>,
) -> Result<(), OutOfMemory>
    requires there { Contains (client_numbers replay.now.scene.clients) client }
    requires triangle { TriangleInRange triangle.now }
    requires sides { HaveSides counted.old.card replay.now.scene.width replay.now.scene.height }
    requires few { counted.old.copies + 1 < word_end }
    ensures { OnOk result (IsMade replay.now client (Deed_is.Triangle triangle.now) counted.old counted.new) }
{
    let rects = clips_of(alloc, replay, client)?;
    let state = replay.state(client);
    let image = replay.texture(client);
    let origin = replay.origin(client);
    counted.draw(rects.as_slice(), origin, triangle, &state, image, steps);
    Ok(())
}

/// Shows back in a client's window.
fn swap<L: Ledger>(
    counted: &mut CountedCard,
    alloc: Global,
    replay: &Replay<'_>,
    client: u32,
    steps: &mut Steps<L>,
) -> Result<(), OutOfMemory>
    requires there { Contains (client_numbers replay.now.scene.clients) client }
    requires sides { HaveSides counted.old.card replay.now.scene.width replay.now.scene.height }
    requires few_flips { counted.old.flips + 1 < word_end }
    requires few { counted.old.copies + 1 < word_end }
    ensures { OnOk result (IsMade replay.now client Deed_is.Swap counted.old counted.new) }
{
    replay.entries();
    let rects = clips_of(alloc, replay, client)?;
    counted.swap(rects.as_slice(), steps);
    Ok(())
}

/// Makes a deed of a client on the card. Where memory is wanting nothing is said of the card.
fn make<L: Ledger>(
    counted: &mut CountedCard,
    alloc: Global,
    replay: &Replay<'_>,
    client: u32,
    deed: &Deed,
    steps: &mut Steps<L>,
) -> Result<(), OutOfMemory>
    requires may { MayMake replay.now client deed.now }
    requires sides { HaveSides counted.old.card replay.now.scene.width replay.now.scene.height }
    requires few_flips { counted.old.flips + 1 < word_end }
    requires few { counted.old.copies + 1 < word_end }
    ensures { OnOk result (IsMade replay.now client deed.now counted.old counted.new) }
{
    match deed {
        Deed::Nothing => Ok(()),
        Deed::Clear { colour, depth } => {
            clear(counted, alloc, replay, client, *colour, *depth, steps)
        }
        Deed::Triangle(triangle) => draw(counted, alloc, replay, client, triangle, steps),
        Deed::Swap => swap(counted, alloc, replay, client, steps),
        Deed::Touched(touched) => {
            counted.show(touched, steps);
            Ok(())
        }
    }
}

/// Takes the next entry, and makes on the card what it does. An entry that isn't legal is refused.
pub fn follow<L: Ledger>(
    counted: &mut CountedCard,
    alloc: Global,
    replay: &mut Replay<'_>,
    entry: &Entry,
    steps: &mut Steps<L>,
) -> Result<(), StepFault>
    requires after { IsAfter replay.old counted.old }
    requires few { length replay.old.entries + 1 < word_end }
    ensures { IsFollowing replay.old replay.new entry.now counted.new result }
{
    replay.entries();
    let deed = match replay.step(alloc, entry) {
        Ok(deed) => deed,
        Err(fault) => return Err(fault),
    };
    match make(counted, alloc, &*replay, client_of(entry), &deed, steps) {
        Ok(()) => Ok(()),
        Err(OutOfMemory) => Err(StepFault::OutOfMemory),
    }
}
