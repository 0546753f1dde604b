//! From a source's bytes to what they spell: the text of a scene, or of a scene with more behind it. Each kind of text is read
//! by one walk.

ghost use Rattle.std.specs.Prelude.{◌≡◌, ◌≤◌, ◌⊎◌, ℕ, List, Some, IfOk, IsErrOf, length};
ghost use Rattle.std.specs.Io.KnownBytes.{Consumes};
ghost use Rattle.dri_base.specs.Ranges.{InRange};
ghost use Rattle.dri_io.specs.Causes.{Rose};
ghost use Rattle.dri_run.specs.Readings.{AreDecided, IsDecided, Kind, Reads, ReadsBytes, Spells, refusal, scenes};

use crate::Status;
use dri_base::{Bytes, Scene};
use dri_io::{ReadAll, Source, read_all};
use dri_scene::{SceneFault, read_scene};
use std::alloc::Global;

/// The most bytes that a scene's text may have.
const MOST_OF_A_SCENE: usize = 16_777_216;

/// The most bytes that a text may have in which more stands behind a scene.
pub const MOST_BEHIND: usize = 33_554_432;

/// What is read from a text of its kind.
pub trait Text: Sized {
    /// The kind.
    ghost kind: { Kind Self };

    /// What else is known of it.
    ghost is_known: { Self → Type 0 };

    /// The most bytes that such a text may have.
    fn most() -> usize
        ensures { result ≡ kind.most };

    /// What the bytes spell. An `Err` is the status to end with.
    fn spelled(alloc: Global, bytes: &[u8]) -> Result<Self, Status>
        requires { length bytes.now ≤ kind.most }
        ensures value { Spells result (kind.spelled bytes.now) }
        ensures range { IfOk result (λ x. InRange (kind.scene x)) }
        ensures known { IfOk result is_known };
}

/// Reads a source's bytes to their end, at most `limit`. An `Err` is the status to end with.
fn bytes_within<S: Source>(alloc: Global, input: &mut S, limit: usize) -> Result<Bytes, Status>
    ensures reads { (given : List ℕ) × Consumes (S.left input.old) (S.left input.new) given × ReadsBytes limit result given (S.left input.new) }
    ensures fault { IsErrOf result Status.ReadFault → Rose (S.faults input.old) (S.faults input.new) }
    ensures decided { (bytes : List ℕ) → S.left input.old ≡ Some bytes
        → (S.gives_all input.old ⊎ (Rose (S.faults input.old) (S.faults input.new) → ⊥)) → AreDecided limit result bytes }
{
    match read_all(alloc, input, limit) {
        Ok(bytes) => Ok(bytes),
        Err(ReadAll::Fault) => Err(Status::ReadFault),
        Err(ReadAll::TooLong) => Err(Status::TooLong),
        Err(ReadAll::OutOfMemory) => Err(Status::OutOfMemory),
    }
}

/// The status for a text that has no scene.
pub fn refusal(fault: SceneFault) -> Status
    ensures { result ≡ refusal fault }
{
    match fault {
        SceneFault::Refused { line, reason } => Status::Refused { line, reason },
        SceneFault::OutOfMemory => Status::OutOfMemory,
    }
}

impl Text for Scene {
    ghost kind = { scenes };

    ghost is_known = { λ scene. Unit {0} };

    fn most() -> usize {
        MOST_OF_A_SCENE
    }

    fn spelled(alloc: Global, bytes: &[u8]) -> Result<Scene, Status> {
        match read_scene(alloc, bytes) {
            Ok(scene) => Ok(scene),
            Err(fault) => Err(refusal(fault)),
        }
    }
}

/// Reads what a source's bytes spell, to their end. An `Err` is the status to end with.
pub fn read<T: Text, S: Source>(alloc: Global, input: &mut S) -> Result<T, Status>
    ensures reads { (given : List ℕ) × Consumes (S.left input.old) (S.left input.new) given × Reads T.kind result given (S.left input.new) }
    ensures known { IfOk result T.is_known }
    ensures fault { IsErrOf result Status.ReadFault → Rose (S.faults input.old) (S.faults input.new) }
    ensures decided { (bytes : List ℕ) → S.left input.old ≡ Some bytes
        → (S.gives_all input.old ⊎ (Rose (S.faults input.old) (S.faults input.new) → ⊥)) → IsDecided T.kind result bytes }
{
    match bytes_within(alloc, input, T::most()) {
        Ok(bytes) => T::spelled(alloc, bytes.as_slice()),
        Err(status) => Err(status),
    }
}
