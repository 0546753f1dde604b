//! Why the ends weren't found.

ghost use Rattle.std.specs.Prelude.{◌≡◌};

use dri_base::OutOfMemory;

/// Why the ends of a scene weren't found.
#[derive(Clone, Copy, Debug, PartialEq, Eq)]
pub enum ExploreFault {
    /// More runs of one number of events would have to be kept than the limit lets.
    TooMany,
    /// A growth of memory was refused.
    OutOfMemory,
}

impl From<OutOfMemory> for ExploreFault {
    ghost use Rattle.dri_explore.specs.declared.fault.ExploreFault.TheVariants as faults;

    ghost from_gives = { λ _ e. e ≡ faults.OutOfMemory };

    fn from(_error: OutOfMemory) -> ExploreFault {
        ExploreFault::OutOfMemory
    }
}
