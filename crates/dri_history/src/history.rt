//! The history of a place: a journal is followed on a card, and each entry that touches the place is told.

ghost use Rattle.std.specs.Prelude.{◌≡◌, ◌<◌, ◌++◌, ℕ, length, Err, OnOk};
ghost use Rattle.dri_base.specs.Limits.{word_end};
ghost use Rattle.dri_base.specs.Ranges.{InRange};
ghost use Rattle.dri_core.specs.FirstBad.{IsFirstBad};
ghost use Rattle.dri_core.specs.Runs.{HoldRun};
ghost use Rattle.dri_history.specs.Follows.{IsTelling};
ghost use Rattle.dri_history.specs.Histories.{HasHistory};
ghost use Rattle.dri_history.specs.Touches.{one_touch};
ghost use Rattle.dri_journal.specs.Replays.{world_of};
ghost use Rattle.dri_replay.specs.Cards.{Follows};
ghost use Rattle.dri_replay.specs.declared.fault.ReplayFault.TheVariants as faults;

use crate::following::follow;
use crate::sampling::sample;
use crate::touch::{Touch, Touches};
use crate::touching::way_of;
use dri_base::{Entry, OutOfMemory, Scene};
use dri_card::Card;
use dri_journal::{Replay, StepFault, client_of};
use dri_replay::ReplayFault;
use std::alloc::Global;

/// Takes the next entry, of this number, and tells it where it touches the place.
fn tell(
    card: &mut Card,
    alloc: Global,
    replay: &mut Replay<'_>,
    entry: &Entry,
    number: u32,
    x: u32,
    y: u32,
) -> Result<Option<Touch>, StepFault>
    requires follows { Follows replay.old.scene (world_of replay.old) card.old }
    requires column { x < replay.old.scene.width }
    requires row { y < replay.old.scene.height }
    ensures { IsTelling replay.old replay.new entry.now card.new number x y result }
{
    replay.entries();
    let before = sample(card, x, y);
    let deed = match follow(card, alloc, replay, entry) {
        Ok(deed) => deed,
        Err(fault) => return Err(fault),
    };
    let after = sample(card, x, y);
    let client = client_of(entry);
    let Some(way) = way_of(&*replay, client, &deed, x, y) else {
        return Ok(None);
    };
    Ok(Some(Touch {
        entry: number,
        kind: way.kind,
        client,
        clip: way.clip,
        before,
        after,
    }))
}

/// Puts a touch, where there is one, last.
fn note(touches: &mut Touches, touch: Option<Touch>) -> Result<(), OutOfMemory>
    ensures { OnOk result (touches.new ≡ touches.old ++ one_touch touch) }
{
    match touch {
        Some(touch) => touches.push(touch),
        None => Ok(()),
    }
}

/// The touches of a place of the screen by a journal of fewer than 4,294,967,296 entries: each entry that changes the place or
/// may have changed it, in front, in back or in depth, with what stands there before and after it. The scene is in range, and the
/// place lies on its screen. Where the journal isn't a run of the scene the answer is the first entry that isn't legal after those
/// before it.
pub fn pixel_history(
    alloc: Global,
    scene: &Scene,
    entries: &[Entry],
    x: u32,
    y: u32,
) -> Result<Touches, ReplayFault>
    requires scene { InRange scene.now }
    requires few { length entries.now < word_end }
    requires column { x < scene.now.width }
    requires row { y < scene.now.height }
    ensures history { HasHistory scene.now entries.now x y result }
    ensures refuses { (entry : ℕ) → result ≡ Err (faults.NotARun entry) → IsFirstBad scene.now entries.now entry }
    ensures takes { HoldRun scene.now entries.now → (entry : ℕ) → result ≡ Err (faults.NotARun entry) → ⊥ }
{
    touches_of(alloc, scene, entries, x, y)
}

// The same, by one relation.
fn touches_of(
    alloc: Global,
    scene: &Scene,
    entries: &[Entry],
    x: u32,
    y: u32,
) -> Result<Touches, ReplayFault>
    requires scene { InRange scene.now }
    requires few { length entries.now < word_end }
    requires column { x < scene.now.width }
    requires row { y < scene.now.height }
    ensures { HasHistory scene.now entries.now x y result }
{
    let mut replay = Replay::new(alloc, scene)?;
    let mut card = Card::new(alloc, scene)?;
    let mut touches = Touches::new(alloc);
    for (taken, entry) in entries.iter().enumerate() {
        let number = taken as u32 + 1;
        match tell(&mut card, alloc, &mut replay, entry, number, x, y) {
            Ok(touch) => note(&mut touches, touch)?,
            Err(StepFault::Refused(_)) => return Err(ReplayFault::NotARun { entry: number }),
            Err(StepFault::OutOfMemory) => return Err(ReplayFault::OutOfMemory),
        }
    }
    Ok(touches)
}
