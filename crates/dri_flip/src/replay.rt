//! A scene's journal, replayed on a card that flips: the picture that is left, and what flipping saved.

ghost use Rattle.std.specs.Prelude.{◌≡◌, ◌<◌, ℕ, length, Err, IfOk};
ghost use Rattle.dri_base.specs.Limits.{word_end};
ghost use Rattle.dri_base.specs.Ranges.{InRange};
ghost use Rattle.dri_core.specs.FirstBad.{IsFirstBad};
ghost use Rattle.dri_core.specs.Runs.{HoldRun};
ghost use Rattle.dri_flip.specs.Follows.{IsAfter};
ghost use Rattle.dri_flip.specs.Replays.{IsShown, Replays};
ghost use Rattle.dri_replay.specs.declared.fault.ReplayFault.TheVariants as faults;

use crate::counted::CountedCard;
use crate::following::follow;
use crate::shown::Shown;
use dri_base::{Entry, OutOfMemory, Scene, Steps};
use dri_journal::{Replay, StepFault};
use dri_replay::{ReplayFault, picture_of};
use std::alloc::Global;
use std::marker::Brand;
use std::sync::ledger::{Blank, Ledger};

/// The screen's front after a journal of fewer than 4,294,967,296 entries, replayed on a card that flips, with the flips and
/// copies that it made. The scene is in range. Where the journal isn't a run of the scene the answer is the first entry that
/// isn't legal after those before it.
pub fn replay_flip(alloc: Global, scene: &Scene, entries: &[Entry]) -> Result<Shown, ReplayFault>
    requires scene { InRange scene.now }
    requires few { length entries.now < word_end }
    ensures replays { Replays scene.now entries.now result }
    ensures refuses { (entry : ℕ) → result ≡ Err (faults.NotARun entry) → IsFirstBad scene.now entries.now entry }
    ensures takes { HoldRun scene.now entries.now → (entry : ℕ) → result ≡ Err (faults.NotARun entry) → ⊥ }
{
    counted_replay::<Brand>(alloc, scene, entries, Blank::new(1))
}

// The replay. Its card counts steps that nobody asks for here.
fn counted_replay<L: Ledger>(
    alloc: Global,
    scene: &Scene,
    entries: &[Entry],
    blank: Blank,
) -> Result<Shown, ReplayFault>
    requires name { blank.name ≡ L.name }
    requires parts { blank.parts ≡ L.parts }
    requires one { L.parts ≡ 1 }
    requires scene { InRange scene.now }
    requires few { length entries.now < word_end }
    ensures { Replays scene.now entries.now result }
{
    let mut steps = Steps::<L>::new(blank);
    let mut replay = Replay::new(alloc, scene)?;
    let mut card = CountedCard::opening(alloc, scene)?;
    for (taken, entry) in entries.iter().enumerate() {
        match follow(&mut card, alloc, &mut replay, entry, &mut steps) {
            Ok(()) => {}
            Err(StepFault::Refused(_)) => {
                return Err(ReplayFault::NotARun {
                    entry: taken as u32 + 1,
                });
            }
            Err(StepFault::OutOfMemory) => return Err(ReplayFault::OutOfMemory),
        }
    }
    let shown = shown_by(alloc, &replay, &card)?;
    Ok(shown)
}

// What is shown of the entries that a replay took, by the card that followed them.
fn shown_by(alloc: Global, replay: &Replay<'_>, card: &CountedCard) -> Result<Shown, OutOfMemory>
    requires { IsAfter replay.now card.now }
    ensures { IfOk result (IsShown replay.now.scene replay.now.entries) }
{
    replay.entries();
    let picture = picture_of(alloc, card.card.front())?;
    Ok(Shown {
        picture,
        flips: card.flips,
        copies: card.copies,
    })
}
