//! The words that read a recording and replay its journal.

ghost use Rattle.std.specs.Prelude.{◌≡◌, ◌≢◌, ◌<◌, ◌≤◌, ◌⊎◌, ℕ, List, Ok, Some, length};
ghost use Rattle.std.specs.Io.KnownBytes.{Consumes};
ghost use Rattle.dri_base.specs.Limits.{word_end};
ghost use Rattle.dri_base.specs.Ranges.{InRange};
ghost use Rattle.dri_io.specs.Causes.{Rose};
ghost use Rattle.dri_run.specs.Outcome.{AreTaken};
ghost use Rattle.dri_run.specs.Forms.{IsReplayingRanged};
ghost use Rattle.dri_run.specs.Recordings.{recording_of};
ghost use Rattle.dri_run.specs.Replays.{GivesReplay, IsReplay, IsReplayAnswer, RunsReplay, SaysReplay};
ghost use Rattle.dri_run.specs.declared.recording.Recording.{Recording};

use crate::Status;
use crate::checked::report_of;
use crate::flipped::flipped;
use crate::form::Replaying;
use crate::reading::read;
use crate::recording::Recording;
use crate::ringed::ringed;
use crate::sixteen::sixteen;
use crate::writing::{Output, write_output};
use dri_io::{Sink, Source};
use std::alloc::Global;

/// What a word makes of a recording. An `Err` is the status to end with.
fn output_of(alloc: Global, word: Replaying, recording: Recording) -> Result<Output, Status>
    requires word { IsReplayingRanged word }
    requires scene { InRange recording.scene }
    requires few { length recording.journal < word_end }
    ensures { IsReplay word result recording }
{
    match word {
        Replaying::Check => report_of(alloc, &recording),
        Replaying::Flip => flipped(alloc, &recording),
        Replaying::Ring { room } => ringed(alloc, room, recording),
        Replaying::Sixteen => sixteen(alloc, &recording),
    }
}

/// Replays a recording and writes what it gives.
fn replay<P: Sink, N: Sink>(
    alloc: Global,
    word: Replaying,
    recording: Recording,
    picture: &mut P,
    notes: &mut N,
) -> Status
    requires word { IsReplayingRanged word }
    requires scene { InRange recording.scene }
    requires few { length recording.journal < word_end }
    ensures ran { RunsReplay word result recording
        (record { held = P.held picture.old; holds = P.held picture.new; before = P.faults picture.old; now = P.faults picture.new })
        (record { held = N.held notes.old; holds = N.held notes.new; before = N.faults notes.old; now = N.faults notes.new }) }
    ensures later { N.faults notes.old ≤ N.faults notes.new }
    ensures unwritten { result ≢ Status.Done → result ≢ Status.WriteFault → (picture.new ≡ picture.old) × (notes.new ≡ notes.old) }
    ensures taken { AreTaken (GivesReplay word) (P.takes picture.old) (N.takes notes.old) recording → result ≢ Status.WriteFault }
{
    match output_of(alloc, word, recording) {
        Ok(output) => write_output(&output, picture, notes),
        Err(status) => status,
    }
}

/// Reads a recording, replays its journal, and writes what it gives.
pub fn obey_replay<S: Source, P: Sink, N: Sink>(
    alloc: Global,
    word: Replaying,
    input: &mut S,
    picture: &mut P,
    notes: &mut N,
) -> Status
    requires { IsReplayingRanged word }
    ensures says { (given : List ℕ) × Consumes (S.left input.old) (S.left input.new) given
        × SaysReplay word result given (S.left input.new)
        (record { held = P.held picture.old; holds = P.held picture.new; before = P.faults picture.old; now = P.faults picture.new })
        (record { held = N.held notes.old; holds = N.held notes.new; before = N.faults notes.old; now = N.faults notes.new }) }
    ensures later { N.faults notes.old ≤ N.faults notes.new }
    ensures read_fault { result ≡ Status.ReadFault → Rose (S.faults input.old) (S.faults input.new) }
    ensures unwritten { result ≢ Status.Done → result ≢ Status.WriteFault → (picture.new ≡ picture.old) × (notes.new ≡ notes.old) }
    ensures decided { (bytes : List ℕ) → S.left input.old ≡ Some bytes
        → (Rose (S.faults input.old) (S.faults input.new) → ⊥) → (Rose (P.faults picture.old) (P.faults picture.new) → ⊥)
        → (Rose (N.faults notes.old) (N.faults notes.new) → ⊥)
        → IsReplayAnswer result bytes ⊎ (result ≡ Status.OutOfMemory) }
    ensures taken { (bytes : List ℕ) → S.left input.old ≡ Some bytes
        → (S.gives_all input.old ⊎ (Rose (S.faults input.old) (S.faults input.new) → ⊥))
        → ((recording : Recording) → recording_of bytes ≡ Ok recording → AreTaken (GivesReplay word) (P.takes picture.old) (N.takes notes.old) recording)
        → IsReplayAnswer result bytes ⊎ (result ≡ Status.OutOfMemory) }
{
    match read::<Recording, S>(alloc, input) {
        Ok(recording) => replay(alloc, word, recording, picture, notes),
        Err(status) => status,
    }
}
