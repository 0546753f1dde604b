//! A scene's journal, replayed on the card of sixteen bits: the picture that is left.

ghost use Rattle.std.specs.Prelude.{◌≡◌, ◌<◌, ℕ, length, Err, IfOk, map};
ghost use Rattle.dri_base.specs.Limits.{word_end};
ghost use Rattle.dri_base.specs.Ranges.{InRange};
ghost use Rattle.dri_base.specs.Texels.{sixteen_bits};
ghost use Rattle.dri_card16.specs.Following.{Follows16};
ghost use Rattle.dri_card16.specs.Replays.{IsPicture16, Replays16, StoodIsShown16};
ghost use Rattle.dri_card16.specs.RuleRuns.{ConfinedWith};
ghost use Rattle.dri_card16.specs.Sixteen.{rule16};
ghost use Rattle.dri_card16.specs.Widened.{seen};
ghost use Rattle.dri_core.specs.FirstBad.{IsFirstBad};
ghost use Rattle.dri_core.specs.Runs.{HoldRun};
ghost use Rattle.dri_replay.specs.Pictures.{IsPictureOf};
ghost use Rattle.dri_replay.specs.declared.fault.ReplayFault.TheVariants as faults;

use crate::card::Card16;
use crate::following::follow;
use dri_base::{Entry, OutOfMemory, Scene, Sequence};
use dri_journal::{Replay, StepFault};
use dri_meaning::{Picture, Pixels};
use dri_plane::Plane;
use dri_replay::ReplayFault;
use dri_texel::sixteen_bits;
use std::alloc::Global;

/// The screen's front after a journal of fewer than 4,294,967,296 entries, replayed on the card of sixteen bits, as its words show
/// it. The scene is in range. Where the journal isn't a run of the scene the answer is the first entry that isn't legal after those
/// before it. Each frame that stood is shown right after its swap as it is drawn alone on sixteen bits, in its window's clips; and
/// no command changes a pixel outside them.
pub fn replay16(alloc: Global, scene: &Scene, entries: &[Entry]) -> Result<Picture, ReplayFault>
    requires scene { InRange scene.now }
    requires few { length entries.now < word_end }
    ensures replays { Replays16 scene.now entries.now result }
    ensures stood { IfOk result (λ picture. StoodIsShown16 scene.now entries.now) }
    ensures confined { IfOk result (λ picture. ConfinedWith rule16 scene.now entries.now) }
    ensures refuses { (entry : ℕ) → result ≡ Err (faults.NotARun entry) → IsFirstBad scene.now entries.now entry }
    ensures takes { HoldRun scene.now entries.now → (entry : ℕ) → result ≡ Err (faults.NotARun entry) → ⊥ }
{
    replayed(alloc, scene, entries)
}

// The same, by one relation.
fn replayed(alloc: Global, scene: &Scene, entries: &[Entry]) -> Result<Picture, ReplayFault>
    requires scene { InRange scene.now }
    requires few { length entries.now < word_end }
    ensures { Replays16 scene.now entries.now result }
{
    let mut replay = Replay::new(alloc, scene)?;
    let mut card = Card16::new(alloc, scene)?;
    for (taken, entry) in entries.iter().enumerate() {
        match follow(&mut card, alloc, &mut replay, entry) {
            Ok(()) => {}
            Err(StepFault::Refused(_)) => {
                return Err(ReplayFault::NotARun {
                    entry: taken as u32 + 1,
                });
            }
            Err(StepFault::OutOfMemory) => return Err(ReplayFault::OutOfMemory),
        }
    }
    let picture = picture_by(alloc, &replay, &card)?;
    Ok(picture)
}

// The picture of the entries that a replay took, by the card that followed them.
fn picture_by(alloc: Global, replay: &Replay<'_>, card: &Card16) -> Result<Picture, OutOfMemory>
    requires { Follows16 replay.now card.now }
    ensures { IfOk result (IsPicture16 replay.now.scene replay.now.entries) }
{
    replay.entries();
    widened(alloc, card.front16())
}

// The picture of what a plane's words show.
fn widened(alloc: Global, words: &Plane<u16>) -> Result<Picture, OutOfMemory>
    ensures { IfOk result (IsPictureOf (seen words.now)) }
{
    let pixels = colours_of(alloc, words.pixels())?;
    Ok(Picture {
        width: words.width(),
        height: words.height(),
        pixels,
    })
}

// The colours that words show.
fn colours_of(alloc: Global, words: &[u16]) -> Result<Pixels, OutOfMemory>
    ensures { IfOk result (λ colours. colours ≡ map sixteen_bits words.now) }
{
    let mut colours = Sequence::new(alloc);
    for word in words {
        colours.push(sixteen_bits(*word))?;
    }
    Ok(colours)
}
