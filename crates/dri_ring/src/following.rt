//! One entry of a journal, through a ring. Drawing is put, with what its client draws with then; the windows change once the
//! ring is idle. The replay tells what the entry does. What its client draws with isn't changed by the entries of clients that
//! draw, so it is looked up after the entry was taken.

ghost use Rattle.std.specs.Prelude.{◌≡◌, ◌<◌, ◌+◌, [], true, length, Contains, OnOk};
ghost use Rattle.dri_base.specs.Limits.{word_end};
ghost use Rattle.dri_base.specs.Ranges.{TriangleInRange, client_numbers};
ghost use Rattle.dri_journal.specs.declared.deed.Deed.TheVariants as Deed_is;
ghost use Rattle.dri_replay.specs.Makings.{CanShow, MayMake};
ghost use Rattle.dri_ring.specs.Follows.{FindsIdle, IsAfter, IsFollowing, IsMade, counted, waited, waits};
ghost use Rattle.dri_ring.specs.Rings.{OnlyRan, settled};

use crate::counted::CountedRing;
use crate::job::Job;
use crate::jobs::{clips_of, triangle_job};
use crate::showing;
use dri_base::{Entry, OutOfMemory, Rgb, Triangle};
use dri_clips::Touched;
use dri_journal::{Deed, Replay, StepFault, client_of};
use std::alloc::Global;

/// Puts a clear of a client's window.
fn clear(
    ring: &mut CountedRing,
    alloc: Global,
    replay: &Replay<'_>,
    client: u32,
    colour: Rgb,
    depth: u16,
) -> Result<(), OutOfMemory>
    requires there { Contains (client_numbers replay.now.scene.clients) client }
    requires scene { ring.old.engine.scene ≡ replay.now.scene }
    requires few { ring.old.puts + 1 < word_end }
    ensures { OnOk result (IsMade replay.now client (Deed_is.Clear colour depth) ring.old ring.new) }
{
    let clips = clips_of(alloc, replay, client)?;
    ring.put(Job::Clear {
        clips,
        colour,
        depth,
    });
    Ok(())
}

/// Puts a triangle in a client's window, by the client's own state and texture.
fn draw(
    ring: &mut CountedRing,
    alloc: Global,
    replay: &Replay<'_>,
    client: u32,
    triangle: &Triangle,
) -> Result<(), OutOfMemory>
    requires there { Contains (client_numbers replay.now.scene.clients) client }
    requires triangle { TriangleInRange triangle.now }
    requires scene { ring.old.engine.scene ≡ replay.now.scene }
    requires few { ring.old.puts + 1 < word_end }
    ensures { OnOk result (IsMade replay.now client (Deed_is.Triangle triangle.now) ring.old ring.new) }
{
    let job = triangle_job(alloc, replay, client, triangle)?;
    ring.put(job);
    Ok(())
}

/// Puts a copy of back to front in a client's window.
fn swap(
    ring: &mut CountedRing,
    alloc: Global,
    replay: &Replay<'_>,
    client: u32,
) -> Result<(), OutOfMemory>
    requires there { Contains (client_numbers replay.now.scene.clients) client }
    requires scene { ring.old.engine.scene ≡ replay.now.scene }
    requires few { ring.old.puts + 1 < word_end }
    ensures { OnOk result (IsMade replay.now client Deed_is.Swap ring.old ring.new) }
{
    let clips = clips_of(alloc, replay, client)?;
    ring.put(Job::Swap { clips });
    Ok(())
}

/// Shows what a new stack leaves. Nothing waits.
fn show(ring: &mut CountedRing, replay: &Replay<'_>, client: u32, touched: &Touched)
    requires idle { ring.old.engine.pending ≡ [] }
    requires scene { ring.old.engine.scene ≡ replay.now.scene }
    requires can { CanShow replay.now.scene.width replay.now.scene.height touched.now }
    ensures { IsMade replay.now client (Deed_is.Touched touched.now) ring.old ring.new }
{
    replay.entries();
    ring.engine.front();
    showing::show(&mut ring.engine, touched);
    ring.engine.front();
}

/// Makes a deed of a client. Where memory is wanting nothing is said of the ring.
fn make(
    ring: &mut CountedRing,
    alloc: Global,
    replay: &Replay<'_>,
    client: u32,
    deed: &Deed,
) -> Result<(), OutOfMemory>
    requires may { MayMake replay.now client deed.now }
    requires idle { FindsIdle deed.now ring.old.engine }
    requires scene { ring.old.engine.scene ≡ replay.now.scene }
    requires few { ring.old.puts + 1 < word_end }
    ensures { OnOk result (IsMade replay.now client deed.now ring.old ring.new) }
{
    match deed {
        Deed::Nothing => Ok(()),
        Deed::Clear { colour, depth } => clear(ring, alloc, replay, client, *colour, *depth),
        Deed::Triangle(triangle) => draw(ring, alloc, replay, client, triangle),
        Deed::Swap => swap(ring, alloc, replay, client),
        Deed::Touched(touched) => {
            show(ring, replay, client, touched);
            Ok(())
        }
    }
}

/// Makes the ring idle before the windows change or a client dies.
fn wait_for(ring: &mut CountedRing, entry: &Entry)
    requires few { ring.old.idles + 1 < word_end }
    ensures empty { waits entry.now ≡ true → ring.new.engine.pending ≡ [] }
    ensures settled { settled ring.new.engine ≡ settled ring.old.engine }
    ensures others { OnlyRan ring.old.engine ring.new.engine }
    ensures counts { counted ring.new ≡ waited entry.now (counted ring.old) }
{
    match entry {
        Entry::Change { place: _ } => ring.wait(),
        Entry::Gone { client: _ } => ring.wait(),
        _ => {}
    }
}

/// Takes the next entry, and puts or makes what it does. An entry that isn't legal is refused.
pub fn follow(
    ring: &mut CountedRing,
    alloc: Global,
    replay: &mut Replay<'_>,
    entry: &Entry,
) -> Result<(), StepFault>
    requires after { IsAfter replay.old ring.old.engine.room ring.old }
    requires few { length replay.old.entries + 1 < word_end }
    ensures { IsFollowing replay.old replay.new entry.now ring.old.engine.room ring.new result }
{
    replay.entries();
    let deed = match replay.step(alloc, entry) {
        Ok(deed) => deed,
        Err(fault) => return Err(fault),
    };
    wait_for(ring, entry);
    match make(ring, alloc, &*replay, client_of(entry), &deed) {
        Ok(()) => Ok(()),
        Err(OutOfMemory) => Err(StepFault::OutOfMemory),
    }
}
