//! The top call with clients in threads: reading, length, text, run, writing, in this order.

ghost use Rattle.std.specs.Prelude.{◌≡◌, ◌≢◌, ◌≤◌, ◌⊎◌, ℕ, List, Ok, Some, length};
ghost use Rattle.std.specs.Io.KnownBytes.{Consumes};
ghost use Rattle.dri_io.specs.Causes.{Rose};
ghost use Rattle.dri_run.specs.Gains.{GainsAll};
ghost use Rattle.dri_run.specs.Notices.{line_of};
ghost use Rattle.dri_run.specs.Outcome.{Answers, AreTaken, Runs, Says};
ghost use Rattle.dri_run.specs.Readings.{answer_to, scenes};
ghost use Rattle.dri_run.specs.ThreadedRun.{GivesInThreads};
ghost use Rattle.dri_scene.specs.Readings.{scene_of};
ghost use Rattle.dri_base.specs.declared.scene.Scene.{Scene};
ghost use Rattle.dri_base.specs.Ranges.{InRange};

use crate::Status;
use crate::reading::read;
use crate::threaded::threaded_output_of;
use crate::writing::{tell, write_output};
use dri_base::Scene;
use dri_io::{Sink, Source};
use dri_threads::Gate;
use std::alloc::Global;
use std::sync::Wait;
use std::thread::Threads;

/// Runs a scene in threads and writes its picture and its journal.
fn run<R: Threads + Wait + Sync, G: Gate + Sync, P: Sink, N: Sink>(
    rt: &R,
    alloc: Global,
    gate: &G,
    scene: Scene,
    picture: &mut P,
    notes: &mut N,
) -> Status
    requires { InRange scene }
    ensures ran { Runs GivesInThreads result scene
        (record { held = P.held picture.old; holds = P.held picture.new; before = P.faults picture.old; now = P.faults picture.new })
        (record { held = N.held notes.old; holds = N.held notes.new; before = N.faults notes.old; now = N.faults notes.new }) }
    ensures later { N.faults notes.old ≤ N.faults notes.new }
    ensures unwritten { result ≡ Status.OutOfMemory → (picture.new ≡ picture.old) × (notes.new ≡ notes.old) }
    ensures taken { AreTaken GivesInThreads (P.takes picture.old) (N.takes notes.old) scene → (result ≡ Status.Done) ⊎ (result ≡ Status.OutOfMemory) }
{
    match threaded_output_of(rt, alloc, gate, scene) {
        Ok(output) => write_output(&output, picture, notes),
        Err(_) => Status::OutOfMemory,
    }
}

/// Reads a scene's text, runs the scene in threads, and writes its picture and its journal.
fn obey<R: Threads + Wait + Sync, G: Gate + Sync, S: Source, P: Sink, N: Sink>(
    rt: &R,
    alloc: Global,
    gate: &G,
    input: &mut S,
    picture: &mut P,
    notes: &mut N,
) -> Status
    ensures says { (given : List ℕ) × Consumes (S.left input.old) (S.left input.new) given
        × Says scenes GivesInThreads result given (S.left input.new)
        (record { held = P.held picture.old; holds = P.held picture.new; before = P.faults picture.old; now = P.faults picture.new })
        (record { held = N.held notes.old; holds = N.held notes.new; before = N.faults notes.old; now = N.faults notes.new }) }
    ensures later { N.faults notes.old ≤ N.faults notes.new }
    ensures read_fault { result ≡ Status.ReadFault → Rose (S.faults input.old) (S.faults input.new) }
    ensures unwritten { result ≢ Status.Done → result ≢ Status.WriteFault → (picture.new ≡ picture.old) × (notes.new ≡ notes.old) }
    ensures decided { (bytes : List ℕ) → S.left input.old ≡ Some bytes
        → (Rose (S.faults input.old) (S.faults input.new) → ⊥) → (Rose (P.faults picture.old) (P.faults picture.new) → ⊥)
        → (Rose (N.faults notes.old) (N.faults notes.new) → ⊥)
        → (result ≡ answer_to scenes bytes) ⊎ (result ≡ Status.OutOfMemory) }
    ensures taken { (bytes : List ℕ) → S.left input.old ≡ Some bytes
        → (S.gives_all input.old ⊎ (Rose (S.faults input.old) (S.faults input.new) → ⊥))
        → ((scene : Scene) → scene_of bytes ≡ Ok scene → AreTaken GivesInThreads (P.takes picture.old) (N.takes notes.old) scene)
        → (result ≡ answer_to scenes bytes) ⊎ (result ≡ Status.OutOfMemory) }
{
    match read::<Scene, S>(alloc, input) {
        Ok(scene) => run(rt, alloc, gate, scene, picture, notes),
        Err(status) => status,
    }
}

/// Reads a scene from `input`, and runs its clients and its server each in a thread of its own, without the scene's
/// schedule. It writes the screen to `picture` in the P6 form and the journal to `notes`; both are those of the closed
/// lock. For every status but `Done` one line is written to `notes` last. The gate may hold an actor up, and hands it
/// nothing. The call may wait; in which order threads come isn't promised.
pub fn drive_run<R: Threads + Wait + Sync, G: Gate + Sync, S: Source, P: Sink, N: Sink>(
    rt: &R,
    alloc: Global,
    gate: &G,
    input: &mut S,
    picture: &mut P,
    notes: &mut N,
) -> Status
    // What was given, and what picture and notes gained. Where the answer is `Done`, the bytes given are the text of one
    // scene; the notes gained the text of a journal, which it determines, and the picture what the screen shows after
    // it; and of that journal the headline holds. The answers `Usage` and `NotARun` don't come.
    ensures answers { (given : List ℕ) × Consumes (S.left input.old) (S.left input.new) given
        × Answers (Says scenes GivesInThreads) result given (S.left input.new)
        (record { held = P.held picture.old; holds = P.held picture.new; before = P.faults picture.old; now = P.faults picture.new })
        (record { held = N.held notes.old; holds = N.held notes.new; before = N.faults notes.old; now = N.faults notes.new }) }
    ensures unwritten { result ≢ Status.Done → result ≢ Status.WriteFault → picture.new ≡ picture.old }

    // A fault of the source has its cause.
    ensures read_fault { result ≡ Status.ReadFault → Rose (S.faults input.old) (S.faults input.new) }

    // Where no count rose, the bytes decide the answer, want of memory aside.
    ensures decided { (bytes : List ℕ) → S.left input.old ≡ Some bytes
        → (Rose (S.faults input.old) (S.faults input.new) → ⊥) → (Rose (P.faults picture.old) (P.faults picture.new) → ⊥)
        → (Rose (N.faults notes.old) (N.faults notes.new) → ⊥)
        → (result ≡ answer_to scenes bytes) ⊎ (result ≡ Status.OutOfMemory) }

    // The same holds where the sinks take, without a fault, whatever a run of the scene gives.
    ensures taken { (bytes : List ℕ) → S.left input.old ≡ Some bytes
        → (S.gives_all input.old ⊎ (Rose (S.faults input.old) (S.faults input.new) → ⊥))
        → ((scene : Scene) → scene_of bytes ≡ Ok scene → AreTaken GivesInThreads (P.takes picture.old) (N.takes notes.old) scene)
        → (result ≡ answer_to scenes bytes) ⊎ (result ≡ Status.OutOfMemory) }

    // Where the notes take the status's line without a fault, they gain it whole and nothing else.
    ensures told { (n : ℕ) → length (line_of result) ≤ n → N.takes notes.old n → result ≢ Status.Done → result ≢ Status.WriteFault
        → GainsAll (record { held = N.held notes.old; holds = N.held notes.new; before = N.faults notes.old; now = N.faults notes.new }) (line_of result) }
{
    let status = obey(rt, alloc, gate, input, picture, notes);
    if status != Status::Done {
        tell(status, notes);
    }
    status
}
