//! A client's side: the shared value, borrowed, and the number of the client whose events are made. It shows the card,
//! stamps and ages, and no board.

ghost use Rattle.std.specs.Prelude.{◌≡◌};
ghost use Rattle.dri_shared.specs.Sides.{value_at};

use crate::shared::Shared;

/// A client's side of the shared value. Each call that makes an event needs room for an entry and the event to be legal
/// after the journal; it adds exactly its event's entry, and takes no memory.
pub struct ClientSide<'a> {
    pub(crate) shared: &'a mut Shared,
    pub(crate) client: u32,
}

impl Drop for ClientSide<'_> {
    fn drop(self)
        ensures { self.exit.0.now ≡ value_at self.entry }
    {
        let ClientSide {
            shared: _,
            client: _,
        } = self;
    }
}
