//! Why bytes aren't read as a shared area.

use thiserror::Error;

/// The place where bytes go wrong as a shared area: the lesser of their number and 8,192, where they aren't 8,192, and
/// else the offset of the first field that is out of its range.
#[derive(Clone, Copy, Debug, PartialEq, Eq)]
pub struct BadSarea {
    pub at: u32,
}

/// Why no shared area was read: the bytes are none, or memory was refused.
#[derive(Clone, Copy, Debug, PartialEq, Eq, Error)]
pub enum SareaFault {
    #[error("the shared area goes wrong at byte {}", .0.at)]
    Bad(BadSarea),
    #[error("out of memory")]
    OutOfMemory,
}
