//! The top call: words, reading, length, text, run, writing, in this order.

ghost use Rattle.std.specs.Prelude.{◌≡◌, ◌≢◌, ◌≤◌, ◌⊎◌, ◌↔◌, ℕ, List, None, Some, length};
ghost use Rattle.std.specs.Io.KnownBytes.{Consumes};
ghost use Rattle.std.specs.declared.option.Option.{Option};
ghost use Rattle.dri_io.specs.Causes.{Rose};
ghost use Rattle.dri_run.specs.declared.form.Form.{Form};
ghost use Rattle.dri_run.specs.declared.form.Form.TheVariants.{Make};
ghost use Rattle.dri_run.specs.Forms.{form_of};
ghost use Rattle.dri_run.specs.Gains.{GainsAll};
ghost use Rattle.dri_run.specs.Notices.{line_of};
ghost use Rattle.dri_run.specs.Outcome.{Answers};
ghost use Rattle.dri_run.specs.Answering.{IsAnswerTo, ReadsNothing, SaysTo, TakesAllOf};

use crate::Status;
use crate::alone::obey_solo;
use crate::form::{Form, form_of};
use crate::grouped::InGroups;
use crate::made::obey_make;
use crate::obeying::obey;
use crate::replayed::obey_replay;
use crate::writing::tell;
use dri_io::{Sink, Source};
use std::alloc::Global;

/// Answers to the words: those of no form at once, and the others to the source's bytes.
#[tactic(auto, using(crate::proofs::Kept::consumes_nothing))]
fn answer<S: Source, P: Sink, N: Sink>(
    alloc: Global,
    words: &[String],
    input: &mut S,
    picture: &mut P,
    notes: &mut N,
) -> Status
    ensures usage { (result ≡ Status.Usage) ↔ (form_of words.now ≡ None) }
    ensures unread { ReadsNothing (form_of words.now) → input.new ≡ input.old }
    ensures says { (given : List ℕ) × Consumes (S.left input.old) (S.left input.new) given
        × SaysTo (form_of words.now) result given (S.left input.new)
        (record { held = P.held picture.old; holds = P.held picture.new; before = P.faults picture.old; now = P.faults picture.new })
        (record { held = N.held notes.old; holds = N.held notes.new; before = N.faults notes.old; now = N.faults notes.new }) }
    ensures later { N.faults notes.old ≤ N.faults notes.new }
    ensures unwritten { result ≢ Status.Done → result ≢ Status.WriteFault → (picture.new ≡ picture.old) × (notes.new ≡ notes.old) }
    ensures read_fault { result ≡ Status.ReadFault → Rose (S.faults input.old) (S.faults input.new) }
    ensures decided { (form : Form) (bytes : List ℕ) → form_of words.now ≡ Some form → S.left input.old ≡ Some bytes
        → (Rose (S.faults input.old) (S.faults input.new) → ⊥) → (Rose (P.faults picture.old) (P.faults picture.new) → ⊥)
        → (Rose (N.faults notes.old) (N.faults notes.new) → ⊥)
        → IsAnswerTo form bytes result ⊎ (result ≡ Status.OutOfMemory) }
    ensures taken { (form : Form) (bytes : List ℕ) → form_of words.now ≡ Some form → S.left input.old ≡ Some bytes
        → (S.gives_all input.old ⊎ (Rose (S.faults input.old) (S.faults input.new) → ⊥))
        → TakesAllOf form bytes (P.takes picture.old) (N.takes notes.old)
        → IsAnswerTo form bytes result ⊎ (result ≡ Status.OutOfMemory) }
    ensures made { (n : ℕ) → form_of words.now ≡ Some (Make n)
        → (Rose (P.faults picture.old) (P.faults picture.new) → ⊥) → (Rose (N.faults notes.old) (N.faults notes.new) → ⊥)
        → (result ≡ Status.Done) ⊎ (result ≡ Status.OutOfMemory) }
{
    match form_of(words) {
        Some(Form::Scheduled(shown)) => obey(alloc, &shown, input, picture, notes),
        Some(Form::Grouped) => obey(alloc, &InGroups, input, picture, notes),
        Some(Form::Replayed(word)) => obey_replay(alloc, word, input, picture, notes),
        Some(Form::Solo { client, frame }) => {
            obey_solo(alloc, client, frame, input, picture, notes)
        }
        Some(Form::Make { clients }) => obey_make(alloc, clients, picture, notes),
        None => Status::Usage,
    }
}

/// Does what the words of the command line say. `turns` reads a scene from `input`, runs it, and writes its screen to
/// `picture` in the P6 form and its journal to `notes`. `sarea` does the same and writes the image of the shared area to
/// `picture` in place of the screen, and no journal. `check` reads a scene and behind it a journal, asks whether the
/// journal is a run of the scene, and writes the line of its report to `picture`, and nothing to `notes`. `flip` reads the
/// same, draws the journal by a card that flips, and writes the screen after it to `picture` and the counts of flips and copies
/// to `notes`. `ring N` does so through a ring with room for N jobs, and writes what the ring counts. `card16` draws it by a card
/// that keeps colours in sixteen bits and draws lines, and writes nothing to `notes`. `many` reads a scene and
/// behind it groups of its clients, plays the scene in rounds of these, without its schedule, and writes the screen and the
/// journal. `solo C K` reads a scene and writes frame K of client C, drawn alone with the sides that the client's window has
/// in the scene, to `picture`, and nothing to `notes`. `make N` reads nothing; it writes the text of a scene of N clients to
/// `picture`, and to `notes` how many frames run in it and how many of them stand. For every status but `Done` one line is
/// written to `notes` last. It waits for nobody.
pub fn drive<S: Source, P: Sink, N: Sink>(
    alloc: Global,
    words: &[String],
    input: &mut S,
    picture: &mut P,
    notes: &mut N,
) -> Status
    // The words are of no form. Then nothing is read, nor for `make`.
    ensures usage { (result ≡ Status.Usage) ↔ (form_of words.now ≡ None) }
    ensures unread { ReadsNothing (form_of words.now) → input.new ≡ input.old }

    // What was given, and what picture and notes gained. Where the answer is `Done`, the bytes given are the text of one
    // scene; with the run of its schedule and rounds, the picture gained what the screen or the shared area shows after
    // it, and the notes its journal; and of that run the headline holds. For `many` they are the text of a scene and then of
    // groups of its clients, and the run is that of the scene without its schedule in rounds of the groups. For `check`,
    // `flip`, `ring` and `card16` they are the text of a scene and then of a hold-run of it. For `check` the picture gained the
    // line of the run's report; for `flip` and `ring` it gained what the screen shows after the run, and the notes the run's flips
    // and copies, or what a ring counts of it; for `card16` it gained what a screen of sixteen bits shows after the run. For `solo` the bytes are the text of a scene that has the frame, and the picture
    // gained the frame as it is drawn alone. For `make` the picture gained the generator's scene, and the notes how many
    // frames ran in its run and how many of them stood.
    ensures answers { (given : List ℕ) × Consumes (S.left input.old) (S.left input.new) given
        × Answers (SaysTo (form_of words.now)) result given (S.left input.new)
        (record { held = P.held picture.old; holds = P.held picture.new; before = P.faults picture.old; now = P.faults picture.new })
        (record { held = N.held notes.old; holds = N.held notes.new; before = N.faults notes.old; now = N.faults notes.new }) }
    ensures unwritten { result ≢ Status.Done → result ≢ Status.WriteFault → picture.new ≡ picture.old }

    // A fault of the source has its cause.
    ensures read_fault { result ≡ Status.ReadFault → Rose (S.faults input.old) (S.faults input.new) }

    // Where no count rose, the bytes decide the answer, want of memory aside.
    ensures decided { (form : Form) (bytes : List ℕ) → form_of words.now ≡ Some form → S.left input.old ≡ Some bytes
        → (Rose (S.faults input.old) (S.faults input.new) → ⊥) → (Rose (P.faults picture.old) (P.faults picture.new) → ⊥)
        → (Rose (N.faults notes.old) (N.faults notes.new) → ⊥)
        → IsAnswerTo form bytes result ⊎ (result ≡ Status.OutOfMemory) }

    // The same holds where the sinks take, without a fault, whatever a run of what was read gives, a replay of it, the
    // frame's picture, or the made scene and its line.
    ensures taken { (form : Form) (bytes : List ℕ) → form_of words.now ≡ Some form → S.left input.old ≡ Some bytes
        → (S.gives_all input.old ⊎ (Rose (S.faults input.old) (S.faults input.new) → ⊥))
        → TakesAllOf form bytes (P.takes picture.old) (N.takes notes.old)
        → IsAnswerTo form bytes result ⊎ (result ≡ Status.OutOfMemory) }

    // For `make` nothing is read: whatever the source, it is done, want of memory aside, where no count of the sinks rose.
    ensures made { (n : ℕ) → form_of words.now ≡ Some (Make n)
        → (Rose (P.faults picture.old) (P.faults picture.new) → ⊥) → (Rose (N.faults notes.old) (N.faults notes.new) → ⊥)
        → (result ≡ Status.Done) ⊎ (result ≡ Status.OutOfMemory) }

    // Where the notes take the status's line without a fault, they gain it whole and nothing else.
    ensures told { (n : ℕ) → length (line_of result) ≤ n → N.takes notes.old n → result ≢ Status.Done → result ≢ Status.WriteFault
        → GainsAll (record { held = N.held notes.old; holds = N.held notes.new; before = N.faults notes.old; now = N.faults notes.new }) (line_of result) }
{
    let status = answer(alloc, words, input, picture, notes);
    if status != Status::Done {
        tell(status, notes);
    }
    status
}
