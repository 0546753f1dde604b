//! Why a text has no journal.

use dri_base::OutOfMemory;
use dri_words::{Reason, Refusal};
use thiserror::Error;

/// Why no journal was read.
#[derive(Clone, Copy, Debug, PartialEq, Eq, Error)]
pub enum JournalFault {
    /// The first line that is refused, counted from 1, and the first reason for it. A text that ends too early is refused
    /// at its last line where that has no newline, and else at the line after its last one.
    #[error("line {line}: {reason:?}")]
    Refused { line: u32, reason: Reason },
    /// A growth of memory was refused.
    #[error("out of memory")]
    OutOfMemory,
}

impl From<OutOfMemory> for JournalFault {
    ghost use Rattle.std.specs.Prelude.{◌≡◌};
    ghost use Rattle.dri_journal.specs.declared.fault.JournalFault.TheVariants as faults;

    ghost from_gives = { λ _ e. e ≡ faults.OutOfMemory };

    fn from(_error: OutOfMemory) -> JournalFault {
        JournalFault::OutOfMemory
    }
}

impl From<Refusal> for JournalFault {
    ghost use Rattle.std.specs.Prelude.{◌≡◌};
    ghost use Rattle.dri_journal.specs.declared.fault.JournalFault.TheVariants as faults;

    ghost from_gives = { λ refusal e. e ≡ faults.Refused refusal.line refusal.reason };

    fn from(refusal: Refusal) -> JournalFault {
        JournalFault::Refused {
            line: refusal.line,
            reason: refusal.reason,
        }
    }
}
