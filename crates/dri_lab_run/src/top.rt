//! The top call: words, reading, length, text, what it gives, writing, in this order.

ghost use Rattle.std.specs.Prelude.{◌≡◌, ◌≢◌, ◌≤◌, ◌⊎◌, ◌↔◌, ℕ, List, None, Some, length};
ghost use Rattle.std.specs.Io.KnownBytes.{Consumes};
ghost use Rattle.dri_io.specs.Causes.{Rose};
ghost use Rattle.dri_run.specs.Gains.{GainsAll};
ghost use Rattle.dri_lab_run.specs.Answering.{IsAnswerTo, SaysTo, TakesAllOf};
ghost use Rattle.dri_lab_run.specs.Forms.{form_of};
ghost use Rattle.dri_lab_run.specs.Notices.{line_of};
ghost use Rattle.dri_lab_run.specs.Outcome.{Answers};
ghost use Rattle.dri_lab_run.specs.declared.form.Form.{Form};

use crate::LabStatus;
use crate::form::{Form, form_of};
use crate::looking::{AllEnds, SceneEvents, obey};
use crate::notice::tell;
use dri_io::{Sink, Source};
use dri_run::Status;
use std::alloc::Global;

/// Answers to the words: those of no form at once, and the others to the source's bytes.
fn answer<S: Source, P: Sink, N: Sink>(
    alloc: Global,
    words: &[String],
    input: &mut S,
    picture: &mut P,
    notes: &mut N,
) -> LabStatus
    ensures usage { (result ≡ LabStatus.Common Status.Usage) ↔ (form_of words.now ≡ None) }
    ensures unread { form_of words.now ≡ None → input.new ≡ input.old }
    ensures says { (given : List ℕ) × Consumes (S.left input.old) (S.left input.new) given
        × SaysTo (form_of words.now) result given (S.left input.new)
        (record { held = P.held picture.old; holds = P.held picture.new; before = P.faults picture.old; now = P.faults picture.new })
        (record { held = N.held notes.old; holds = N.held notes.new; before = N.faults notes.old; now = N.faults notes.new }) }
    ensures later { N.faults notes.old ≤ N.faults notes.new }
    ensures unwritten { result ≢ LabStatus.Common Status.Done → result ≢ LabStatus.Common Status.WriteFault → (picture.new ≡ picture.old) × (notes.new ≡ notes.old) }
    ensures read_fault { result ≡ LabStatus.Common Status.ReadFault → Rose (S.faults input.old) (S.faults input.new) }
    ensures decided { (form : Form) (bytes : List ℕ) → form_of words.now ≡ Some form → S.left input.old ≡ Some bytes
        → (Rose (S.faults input.old) (S.faults input.new) → ⊥) → (Rose (P.faults picture.old) (P.faults picture.new) → ⊥)
        → (Rose (N.faults notes.old) (N.faults notes.new) → ⊥)
        → IsAnswerTo form result bytes ⊎ (result ≡ LabStatus.Common Status.OutOfMemory) }
    ensures taken { (form : Form) (bytes : List ℕ) → form_of words.now ≡ Some form → S.left input.old ≡ Some bytes
        → (S.gives_all input.old ⊎ (Rose (S.faults input.old) (S.faults input.new) → ⊥))
        → TakesAllOf form bytes (P.takes picture.old) (N.takes notes.old)
        → IsAnswerTo form result bytes ⊎ (result ≡ LabStatus.Common Status.OutOfMemory) }
{
    match form_of(words) {
        Some(Form::Recorded(look)) => obey(alloc, &look, input, picture, notes),
        Some(Form::Events) => obey(alloc, &SceneEvents, input, picture, notes),
        Some(Form::All { events }) => obey(alloc, &AllEnds { events }, input, picture, notes),
        None => LabStatus::Common(Status::Usage),
    }
}

/// Does what the words of the command line say. `after E` reads a scene from `input` and behind it a journal, replays the
/// journal's first E entries, and writes the screen after them to `picture` in the P6 form, and nothing to `notes`. `pixel X Y`
/// reads the same, replays the whole journal, and writes a line to `picture` for each entry that changed the place in column X
/// and row Y or may have changed it. `events` reads a scene, plays it by its schedule and then rounds, and writes a line to
/// `picture` for each item, with its event and the lock word and the queue after it. `all N` reads a scene, and writes each
/// picture that its runs of at most N events can end with to `picture`, and each journal to `notes`. For every status but `Done` one line is written to `notes` last. It waits for nobody.
pub fn drive<S: Source, P: Sink, N: Sink>(
    alloc: Global,
    words: &[String],
    input: &mut S,
    picture: &mut P,
    notes: &mut N,
) -> LabStatus
    // The words are of no form. Then nothing is read.
    ensures usage { (result ≡ LabStatus.Common Status.Usage) ↔ (form_of words.now ≡ None) }
    ensures unread { form_of words.now ≡ None → input.new ≡ input.old }

    // What was given, and what picture and notes gained. Where the answer is `Done`, the bytes given are the text of a scene
    // and then of a journal. For `after` the journal has so many entries, and these are a hold-run of the scene: the picture
    // gained what the screen shows after them. For `pixel` the place lies on the screen and the journal is a hold-run of the
    // scene: the picture gained the lines of the place's touches. For `events` the bytes are the text of one scene, and the
    // picture gained the lines of its items and of the rounds behind them. For `all` they are too, and picture and notes
    // gained all pictures and journals that its complete runs of at most so many events end with, and whether some run was
    // cut. `NoEntry` comes where the journal has too few entries, `NoPlace` where the place isn't on the screen, `TooMany`
    // only where a scene has more runs than are kept, and `NotARun` names the first entry that isn't legal of those that are
    // replayed.
    ensures answers { (given : List ℕ) × Consumes (S.left input.old) (S.left input.new) given
        × Answers (SaysTo (form_of words.now)) result given (S.left input.new)
        (record { held = P.held picture.old; holds = P.held picture.new; before = P.faults picture.old; now = P.faults picture.new })
        (record { held = N.held notes.old; holds = N.held notes.new; before = N.faults notes.old; now = N.faults notes.new }) }
    ensures unwritten { result ≢ LabStatus.Common Status.Done → result ≢ LabStatus.Common Status.WriteFault → picture.new ≡ picture.old }

    // A fault of the source has its cause.
    ensures read_fault { result ≡ LabStatus.Common Status.ReadFault → Rose (S.faults input.old) (S.faults input.new) }

    // Where no count rose, the bytes decide the answer, want of memory aside.
    ensures decided { (form : Form) (bytes : List ℕ) → form_of words.now ≡ Some form → S.left input.old ≡ Some bytes
        → (Rose (S.faults input.old) (S.faults input.new) → ⊥) → (Rose (P.faults picture.old) (P.faults picture.new) → ⊥)
        → (Rose (N.faults notes.old) (N.faults notes.new) → ⊥)
        → IsAnswerTo form result bytes ⊎ (result ≡ LabStatus.Common Status.OutOfMemory) }

    // The same holds where the sinks take, without a fault, whatever a replay of what was read gives.
    ensures taken { (form : Form) (bytes : List ℕ) → form_of words.now ≡ Some form → S.left input.old ≡ Some bytes
        → (S.gives_all input.old ⊎ (Rose (S.faults input.old) (S.faults input.new) → ⊥))
        → TakesAllOf form bytes (P.takes picture.old) (N.takes notes.old)
        → IsAnswerTo form result bytes ⊎ (result ≡ LabStatus.Common Status.OutOfMemory) }

    // Where the notes take the status's line without a fault, they gain it whole and nothing else.
    ensures told { (n : ℕ) → length (line_of result) ≤ n → N.takes notes.old n
        → result ≢ LabStatus.Common Status.Done → result ≢ LabStatus.Common Status.WriteFault
        → GainsAll (record { held = N.held notes.old; holds = N.held notes.new; before = N.faults notes.old; now = N.faults notes.new }) (line_of result) }
{
    let status = answer(alloc, words, input, picture, notes);
    if status != LabStatus::Common(Status::Done) {
        tell(status, notes);
    }
    status
}
