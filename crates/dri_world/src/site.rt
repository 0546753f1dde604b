//! What an event is made in: the shared value, and the lock round it. Its events and turns stand beside it, each in a file
//! of its own; a client's are passed the client, a reference into the world's list.

use crate::lock::Lock;
use dri_shared::Shared;

/// The shared value, and its lock.
#[derive(Drop)]
pub(crate) struct Site {
    pub(crate) shared: Shared,
    pub(crate) lock: Lock,
}
