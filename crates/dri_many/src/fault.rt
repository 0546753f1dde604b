//! Why a text has no groups.

ghost use Rattle.std.specs.Prelude.{◌≡◌};

use dri_base::OutOfMemory;
use dri_words::{Reason, Refusal};
use thiserror::Error;

/// Why no groups were read.
#[derive(Clone, Copy, Debug, PartialEq, Eq, Error)]
pub enum GroupFault {
    /// The first line that is refused, counted from the number that the first line was given, and the first reason for it.
    /// A text that ends too early is refused at its last line where that has no newline, and else at the line after its last
    /// one.
    #[error("line {line}: {reason:?}")]
    Refused { line: u32, reason: Reason },
    /// A growth of memory was refused.
    #[error("out of memory")]
    OutOfMemory,
}

impl From<OutOfMemory> for GroupFault {
    ghost use Rattle.dri_many.specs.declared.fault.GroupFault.TheVariants as faults;

    ghost from_gives = { λ _ e. e ≡ faults.OutOfMemory };

    fn from(_error: OutOfMemory) -> GroupFault {
        GroupFault::OutOfMemory
    }
}

impl From<Refusal> for GroupFault {
    ghost use Rattle.dri_many.specs.declared.fault.GroupFault.TheVariants as faults;

    ghost from_gives = { λ refusal e. e ≡ faults.Refused refusal.line refusal.reason };

    fn from(refusal: Refusal) -> GroupFault {
        GroupFault::Refused {
            line: refusal.line,
            reason: refusal.reason,
        }
    }
}

/// Why a line leads no further.
#[derive(Clone, Copy)]
pub enum Stop {
    /// The line is refused.
    Refused(Reason),
    /// A growth of memory was refused.
    OutOfMemory,
}

impl From<OutOfMemory> for Stop {
    ghost use Rattle.dri_many.specs.declared.fault.Stop.TheVariants as stops;

    ghost from_gives = { λ _ e. e ≡ stops.OutOfMemory };

    fn from(_error: OutOfMemory) -> Stop {
        Stop::OutOfMemory
    }
}
