//! From a text to what is written for it: reading, length, text, what it gives, writing, in this order.

ghost use Rattle.std.specs.Prelude.{◌≡◌, ◌≢◌, ◌<◌, ◌≤◌, ◌⊎◌, ℕ, List, Ok, Some, length};
ghost use Rattle.std.specs.Io.KnownBytes.{Consumes};
ghost use Rattle.dri_base.specs.Ranges.{InRange};
ghost use Rattle.dri_io.specs.Causes.{Rose};
ghost use Rattle.dri_run.specs.Outcome.{AreTaken};
ghost use Rattle.dri_lab_run.specs.AllEnds.{GivesAll, RefusesAll};
ghost use Rattle.dri_lab_run.specs.Answering.{GivesLook, RefusesLook};
ghost use Rattle.dri_lab_run.specs.EventLines.{GivesEvents, RefusesNone};
ghost use Rattle.dri_lab_run.specs.Outcome.{IsAnswer, Makes, Runs, Says};

use crate::LabStatus;
use crate::after::screen_after;
use crate::all::all_of;
use crate::events::scene_events;
use crate::form::Look;
use crate::history::place_history;
use dri_base::Scene;
use dri_io::{Sink, Source};
use dri_run::{Output, Recording, Status, Text, read, write_output};
use std::alloc::Global;

/// What may be asked of a text.
pub trait Asking {
    ghost use Rattle.dri_lab_run.specs.declared.status.LabStatus.{LabStatus};

    type Input: Text;

    /// What may be given of what was read: the picture's bytes, and those of the notes.
    ghost gives: { Self → Self.Input → List ℕ → List ℕ → Type 0 };

    /// By which status what was read is refused.
    ghost refuses: { Self → Self.Input → LabStatus → Type 0 };

    /// What is given. An `Err` is the status to end with.
    fn output_of(&self, alloc: Global, input: Self::Input) -> Result<Output, LabStatus>
        requires range { InRange (Self.Input.kind.scene input) }
        requires known { Self.Input.is_known input }
        ensures { Makes (gives self.now) (refuses self.now) result input };
}

impl Asking for Look {
    type Input = Recording;

    ghost gives = { λ look recording image text. GivesLook look recording image text };

    ghost refuses = { λ look recording status. RefusesLook look recording status };

    fn output_of(&self, alloc: Global, input: Recording) -> Result<Output, LabStatus> {
        match *self {
            Look::After { entries } => screen_after(alloc, entries, &input),
            Look::Pixel { x, y } => place_history(alloc, x, y, &input),
        }
    }
}

/// What each item of a scene brings.
#[derive(Clone, Copy)]
pub struct SceneEvents;

impl Asking for SceneEvents {
    type Input = Scene;

    ghost gives = { λ _ scene image text. GivesEvents scene image text };

    ghost refuses = { λ _ scene status. RefusesNone scene status };

    fn output_of(&self, alloc: Global, input: Scene) -> Result<Output, LabStatus> {
        scene_events(alloc, input)
    }
}

/// All that a scene's runs of at most so many events can end with.
#[derive(Clone, Copy)]
pub struct AllEnds {
    pub events: u32,
}

impl Asking for AllEnds {
    type Input = Scene;

    ghost gives = { λ all scene image text. GivesAll all.events scene image text };

    ghost refuses = { λ all scene status. RefusesAll all.events scene status };

    fn output_of(&self, alloc: Global, input: Scene) -> Result<Output, LabStatus> {
        all_of(alloc, self.events, input)
    }
}

/// Writes what is given of what was read.
fn run<W: Asking, P: Sink, N: Sink>(
    alloc: Global,
    asked: &W,
    input: W::Input,
    picture: &mut P,
    notes: &mut N,
) -> LabStatus
    requires range { InRange (W.Input.kind.scene input) }
    requires known { W.Input.is_known input }
    ensures ran { Runs (W.gives asked.now) (W.refuses asked.now) result input
        (record { held = P.held picture.old; holds = P.held picture.new; before = P.faults picture.old; now = P.faults picture.new })
        (record { held = N.held notes.old; holds = N.held notes.new; before = N.faults notes.old; now = N.faults notes.new }) }
    ensures later { N.faults notes.old ≤ N.faults notes.new }
    ensures unwritten { result ≢ LabStatus.Common Status.Done → result ≢ LabStatus.Common Status.WriteFault → (picture.new ≡ picture.old) × (notes.new ≡ notes.old) }
    ensures taken { AreTaken (W.gives asked.now) (P.takes picture.old) (N.takes notes.old) input → result ≢ LabStatus.Common Status.WriteFault }
{
    match asked.output_of(alloc, input) {
        Ok(output) => LabStatus::Common(write_output(&output, picture, notes)),
        Err(status) => status,
    }
}

/// Reads a text, and writes what is given of it.
pub fn obey<W: Asking, S: Source, P: Sink, N: Sink>(
    alloc: Global,
    asked: &W,
    input: &mut S,
    picture: &mut P,
    notes: &mut N,
) -> LabStatus
    ensures says { (given : List ℕ) × Consumes (S.left input.old) (S.left input.new) given
        × Says W.Input.kind (W.gives asked.now) (W.refuses asked.now) result given (S.left input.new)
        (record { held = P.held picture.old; holds = P.held picture.new; before = P.faults picture.old; now = P.faults picture.new })
        (record { held = N.held notes.old; holds = N.held notes.new; before = N.faults notes.old; now = N.faults notes.new }) }
    ensures later { N.faults notes.old ≤ N.faults notes.new }
    ensures read_fault { result ≡ LabStatus.Common Status.ReadFault → Rose (S.faults input.old) (S.faults input.new) }
    ensures unwritten { result ≢ LabStatus.Common Status.Done → result ≢ LabStatus.Common Status.WriteFault → (picture.new ≡ picture.old) × (notes.new ≡ notes.old) }
    ensures decided { (bytes : List ℕ) → S.left input.old ≡ Some bytes
        → (Rose (S.faults input.old) (S.faults input.new) → ⊥) → (Rose (P.faults picture.old) (P.faults picture.new) → ⊥)
        → (Rose (N.faults notes.old) (N.faults notes.new) → ⊥)
        → IsAnswer W.Input.kind (W.gives asked.now) (W.refuses asked.now) result bytes ⊎ (result ≡ LabStatus.Common Status.OutOfMemory) }
    ensures taken { (bytes : List ℕ) → S.left input.old ≡ Some bytes
        → (S.gives_all input.old ⊎ (Rose (S.faults input.old) (S.faults input.new) → ⊥))
        → ((x : W.Input) → W.Input.kind.spelled bytes ≡ Ok x → AreTaken (W.gives asked.now) (P.takes picture.old) (N.takes notes.old) x)
        → IsAnswer W.Input.kind (W.gives asked.now) (W.refuses asked.now) result bytes ⊎ (result ≡ LabStatus.Common Status.OutOfMemory) }
{
    match read::<W::Input, S>(alloc, input) {
        Ok(text) => run(alloc, asked, text, picture, notes),
        Err(status) => LabStatus::Common(status),
    }
}
