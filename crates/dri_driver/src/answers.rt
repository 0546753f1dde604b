//! What a client's calls answer.

use dri_base::Entry;

/// What a client finds once the kernel let it in: its window's stamp is the one that it was told, or another.
#[derive(Clone, Copy)]
pub enum Checked {
    Go,
    Stale,
}

/// What an acting client did: it made an event, whose entry this is; or nothing, since it must leave the lock with a
/// command left, its next command is its death, or it must leave and no command is left.
#[derive(Clone, Copy)]
pub enum Acted {
    Ran { entry: Entry },
    MustLeave,
    Dies,
    Done,
}
