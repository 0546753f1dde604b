//! The words that run what they read: reading, length, text, run, writing, in this order.

ghost use Rattle.std.specs.Prelude.{◌≡◌, ◌≢◌, ◌≤◌, ◌⊎◌, ℕ, List, Ok, Some, IfOk};
ghost use Rattle.std.specs.Io.KnownBytes.{Consumes};
ghost use Rattle.dri_base.specs.Ranges.{InRange};
ghost use Rattle.dri_io.specs.Causes.{Rose};
ghost use Rattle.dri_run.specs.Outcome.{AreTaken, Runs, Says};
ghost use Rattle.dri_run.specs.Readings.{answer_to};

use crate::Status;
use crate::reading::{Text, read};
use crate::writing::{Output, write_output};
use dri_base::OutOfMemory;
use dri_io::{Sink, Source};
use std::alloc::Global;

/// A way to run what was read.
pub trait Running {
    type Input: Text;

    /// What may come of it: the picture's bytes, and those of the notes.
    ghost gives: { Self → Self.Input → List ℕ → List ℕ → Type 0 };

    /// What comes of it.
    fn output_of(&self, alloc: Global, input: Self::Input) -> Result<Output, OutOfMemory>
        requires range { InRange (Self.Input.kind.scene input) }
        requires known { Self.Input.is_known input }
        ensures { IfOk result (λ o. gives self.now input o.picture o.notes) };
}

/// Runs what was read and writes what comes of it.
fn run<W: Running, P: Sink, N: Sink>(
    alloc: Global,
    way: &W,
    input: W::Input,
    picture: &mut P,
    notes: &mut N,
) -> Status
    requires range { InRange (W.Input.kind.scene input) }
    requires known { W.Input.is_known input }
    ensures ran { Runs (W.gives way.now) result input
        (record { held = P.held picture.old; holds = P.held picture.new; before = P.faults picture.old; now = P.faults picture.new })
        (record { held = N.held notes.old; holds = N.held notes.new; before = N.faults notes.old; now = N.faults notes.new }) }
    ensures later { N.faults notes.old ≤ N.faults notes.new }
    ensures unwritten { result ≡ Status.OutOfMemory → (picture.new ≡ picture.old) × (notes.new ≡ notes.old) }
    ensures taken { AreTaken (W.gives way.now) (P.takes picture.old) (N.takes notes.old) input → (result ≡ Status.Done) ⊎ (result ≡ Status.OutOfMemory) }
{
    match way.output_of(alloc, input) {
        Ok(output) => write_output(&output, picture, notes),
        Err(_) => Status::OutOfMemory,
    }
}

/// Reads a text, runs what it spells, and writes what comes of it.
pub fn obey<W: Running, S: Source, P: Sink, N: Sink>(
    alloc: Global,
    way: &W,
    input: &mut S,
    picture: &mut P,
    notes: &mut N,
) -> Status
    ensures says { (given : List ℕ) × Consumes (S.left input.old) (S.left input.new) given
        × Says W.Input.kind (W.gives way.now) result given (S.left input.new)
        (record { held = P.held picture.old; holds = P.held picture.new; before = P.faults picture.old; now = P.faults picture.new })
        (record { held = N.held notes.old; holds = N.held notes.new; before = N.faults notes.old; now = N.faults notes.new }) }
    ensures later { N.faults notes.old ≤ N.faults notes.new }
    ensures read_fault { result ≡ Status.ReadFault → Rose (S.faults input.old) (S.faults input.new) }
    ensures unwritten { result ≢ Status.Done → result ≢ Status.WriteFault → (picture.new ≡ picture.old) × (notes.new ≡ notes.old) }
    ensures decided { (bytes : List ℕ) → S.left input.old ≡ Some bytes
        → (Rose (S.faults input.old) (S.faults input.new) → ⊥) → (Rose (P.faults picture.old) (P.faults picture.new) → ⊥)
        → (Rose (N.faults notes.old) (N.faults notes.new) → ⊥)
        → (result ≡ answer_to W.Input.kind bytes) ⊎ (result ≡ Status.OutOfMemory) }
    ensures taken { (bytes : List ℕ) → S.left input.old ≡ Some bytes
        → (S.gives_all input.old ⊎ (Rose (S.faults input.old) (S.faults input.new) → ⊥))
        → ((x : W.Input) → W.Input.kind.spelled bytes ≡ Ok x → AreTaken (W.gives way.now) (P.takes picture.old) (N.takes notes.old) x)
        → (result ≡ answer_to W.Input.kind bytes) ⊎ (result ≡ Status.OutOfMemory) }
{
    match read::<W::Input, S>(alloc, input) {
        Ok(text) => run(alloc, way, text, picture, notes),
        Err(status) => status,
    }
}
