//! Why a scene wasn't played.

/// Why a scene wasn't played.
#[derive(Clone, Copy, Debug, PartialEq, Eq)]
pub enum PlayFault {
    /// The scene hasn't an actor or a client that an item names, a client is killed twice, there are more items than the 1,000,000
    /// of a schedule, or the scene isn't in range itself.
    OutOfRange,
    /// A growth of memory was refused.
    OutOfMemory,
}
