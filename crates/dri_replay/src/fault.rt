//! Why a replay shows nothing.

use dri_base::OutOfMemory;

/// Why a journal wasn't replayed.
#[derive(Clone, Copy, Debug, PartialEq, Eq)]
pub enum ReplayFault {
    /// The journal isn't a run of the scene: this entry, counted from 1, is the first that isn't legal after those before it.
    NotARun { entry: u32 },
    /// A growth of memory was refused.
    OutOfMemory,
}

impl From<OutOfMemory> for ReplayFault {
    ghost use Rattle.std.specs.Prelude.{◌≡◌};
    ghost use Rattle.dri_replay.specs.declared.fault.ReplayFault.TheVariants as faults;

    ghost from_gives = { λ _ e. e ≡ faults.OutOfMemory };

    fn from(_error: OutOfMemory) -> ReplayFault {
        ReplayFault::OutOfMemory
    }
}
