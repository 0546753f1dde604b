//! A scene's journal, replayed through a ring: the picture that is left, and what was put and waited for.

ghost use Rattle.std.specs.Prelude.{◌≡◌, ◌<◌, [], ℕ, length, Err, IfOk};
ghost use Rattle.std.specs.Arc.{arc_value};
ghost use Rattle.dri_base.specs.Limits.{word_end};
ghost use Rattle.dri_base.specs.Ranges.{InRange, IsWithin};
ghost use Rattle.dri_core.specs.FirstBad.{IsFirstBad};
ghost use Rattle.dri_core.specs.Runs.{HoldRun};
ghost use Rattle.dri_replay.specs.declared.fault.ReplayFault.TheVariants as faults;
ghost use Rattle.dri_ring.specs.Follows.{IsAfter};
ghost use Rattle.dri_ring.specs.Replays.{IsRinged, Replays};

use crate::counted::CountedRing;
use crate::following::follow;
use crate::ringed::Ringed;
use dri_base::{Entry, OutOfMemory, Scene};
use dri_journal::{Replay, StepFault};
use dri_replay::{ReplayFault, picture_of};
use std::alloc::Global;
use std::sync::Arc;

/// The screen's front after a journal of fewer than 4,294,967,296 entries, drawn through a ring in which so many jobs may wait,
/// 1 to 64, with what was put and waited for. The scene is in range. Where the journal isn't a run of the scene the answer is
/// the first entry that isn't legal after those before it.
pub fn replay_ring(
    alloc: Global,
    scene: &Arc<Scene, Global>,
    entries: &[Entry],
    room: u32,
) -> Result<Ringed, ReplayFault>
    requires scene { InRange (arc_value scene.now) }
    requires few { length entries.now < word_end }
    requires room { IsWithin 1 64 room }
    ensures replays { Replays (arc_value scene.now) entries.now room result }
    ensures refuses { (entry : ℕ) → result ≡ Err (faults.NotARun entry) → IsFirstBad (arc_value scene.now) entries.now entry }
    ensures takes { HoldRun (arc_value scene.now) entries.now → (entry : ℕ) → result ≡ Err (faults.NotARun entry) → ⊥ }
{
    let ring = CountedRing::opening(alloc, scene, room)?;
    drawn(alloc, &**scene, entries, ring)
}

// The replay, by the ring of a scene's opening.
fn drawn(
    alloc: Global,
    scene: &Scene,
    entries: &[Entry],
    opened: CountedRing,
) -> Result<Ringed, ReplayFault>
    requires scene { InRange scene.now }
    requires few { length entries.now < word_end }
    requires opening { IsAfter (record { scene = scene.now; entries = [] }) opened.engine.room opened }
    ensures { Replays scene.now entries.now opened.engine.room result }
{
    let mut ring = opened;
    let mut replay = Replay::new(alloc, scene)?;
    for (taken, entry) in entries.iter().enumerate() {
        match follow(&mut ring, alloc, &mut replay, entry) {
            Ok(()) => {}
            Err(StepFault::Refused(_)) => {
                return Err(ReplayFault::NotARun {
                    entry: taken as u32 + 1,
                });
            }
            Err(StepFault::OutOfMemory) => return Err(ReplayFault::OutOfMemory),
        }
    }
    let ringed = ringed_by(alloc, &replay, ring)?;
    Ok(ringed)
}

// What is left of the entries that a replay took, once the ring that followed them is idle.
fn ringed_by(
    alloc: Global,
    replay: &Replay<'_>,
    followed: CountedRing,
) -> Result<Ringed, OutOfMemory>
    requires { IsAfter replay.now followed.engine.room followed }
    ensures { IfOk result (IsRinged replay.now.scene replay.now.entries followed.engine.room) }
{
    let mut ring = followed;
    replay.entries();
    ring.engine.idle();
    let picture = picture_of(alloc, ring.engine.front())?;
    Ok(Ringed {
        picture,
        puts: ring.puts,
        idles: ring.idles,
        most: ring.most,
    })
}
