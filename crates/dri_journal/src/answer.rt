//! What a check of a journal answers: a report of a run, or why there is none.

use dri_base::OutOfMemory;
use thiserror::Error;

/// What is told of a journal that is a run of its scene.
#[derive(Clone, Copy, Debug, PartialEq, Eq)]
pub struct Report {
    /// How many entries it has.
    pub entries: u32,
    /// How many swaps it ran whose frame begins with a clear.
    pub frames: u32,
    /// How many of these frames stood: their window got no new stamp from the last clear to the swap, but by whole moves.
    pub stood: u32,
    /// Whether nothing is left to do: nobody holds, no client asks, each client has ended or is dead, and all changes were
    /// made.
    pub whole: bool,
}

/// Why a journal has no report.
#[derive(Clone, Copy, Debug, PartialEq, Eq, Error)]
pub enum CheckFault {
    /// The journal isn't a run of the scene: this entry, counted from 1, is the first that isn't legal after those before
    /// it.
    #[error("not a run: entry {entry}")]
    NotARun { entry: u32 },
    /// A growth of memory was refused.
    #[error("out of memory")]
    OutOfMemory,
}

impl From<OutOfMemory> for CheckFault {
    ghost use Rattle.std.specs.Prelude.{◌≡◌};
    ghost use Rattle.dri_journal.specs.declared.answer.CheckFault.TheVariants as faults;

    ghost from_gives = { λ _ e. e ≡ faults.OutOfMemory };

    fn from(_error: OutOfMemory) -> CheckFault {
        CheckFault::OutOfMemory
    }
}
