//! The server's side: the shared value, borrowed.

ghost use Rattle.std.specs.Prelude.{◌≡◌};
ghost use Rattle.dri_shared.specs.Sides.{served_at};

use crate::shared::Shared;

/// The server's side of the shared value. Each call that makes an event needs room for an entry and the event to be
/// legal after the journal; it adds exactly its event's entry. After `OutOfMemory` there is no entry, and the value is
/// as it was.
pub struct ServerSide<'a> {
    pub(crate) shared: &'a mut Shared,
}

impl Drop for ServerSide<'_> {
    fn drop(self)
        ensures { self.exit.0.now ≡ served_at self.entry }
    {
        let ServerSide { shared: _ } = self;
    }
}
