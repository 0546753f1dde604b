//! The server's turns: it makes its next change, or waits.

ghost use Rattle.std.specs.Prelude.{◌≡◌, ◌≤◌, ◌+◌, ◌-◌, length, false, IfOk, OnOk, OnErr, Some, None};
ghost use Rattle.dri_base.specs.declared.journal.Entry.TheVariants as Entry_is;
ghost use Rattle.dri_core.specs.Turns.{server_turn};
ghost use Rattle.dri_shared.specs.States.{MayAdd, world_of};
ghost use Rattle.dri_world.specs.Sites.{core_at};
ghost use Rattle.dri_world.specs.Turns.{BringsTo, MayBring};

use crate::site::Site;
use dri_base::{Event, OutOfMemory};
use std::alloc::Global;

/// The server's number among the actors.
pub(crate) const SERVER: u32 = 0;

impl Site {
    /// The turn of the server: its one legal event, or none. The scene has `total` changes. After `OutOfMemory` all is as
    /// before.
    pub(crate) fn turn_of_server(
        &mut self,
        alloc: Global,
        total: u32,
    ) -> Result<Option<Event>, OutOfMemory>
        requires room { 1 ≤ self.old.shared.spare }
        requires total { total ≡ length self.old.shared.scene.changes }
        requires legal { MayBring self.old (server_turn self.old.shared.scene (core_at self.old false)) }
        ensures event { IfOk result (λ o. o ≡ server_turn self.old.shared.scene (core_at self.old false)) }
        ensures made { IfOk result (λ o. BringsTo false o self.old self.new) }
        ensures err { OnErr result (BringsTo false None self.old self.new) }
    {
        let left = self.changes_left();
        if left == 0 {
            return Ok(None);
        }
        if self.lock.lets_in(SERVER) {
            return Ok(Some(self.change(alloc, total - left + 1)?));
        }
        Ok(self.lock.wait(SERVER))
    }

    // How many changes aren't made yet.
    fn changes_left(&mut self) -> u32
        ensures left { result ≡ length self.old.shared.scene.changes - (world_of self.old.shared).made }
        ensures same { self.new ≡ self.old }
    {
        let side = self.shared.server_side();
        let left = side.changes_left();
        drop(side);
        left
    }

    // The next change, of this place, is made, and the server leaves the queue. After `OutOfMemory` all is as before.
    fn change(&mut self, alloc: Global, place: u32) -> Result<Event, OutOfMemory>
        requires room { 1 ≤ self.old.shared.spare }
        requires place { place ≡ (world_of self.old.shared).made + 1 }
        requires legal { MayAdd self.old.shared (Entry_is.Change place) }
        ensures event { IfOk result (λ e. e ≡ Event.Change place) }
        ensures made { OnOk result (BringsTo false (Some (Event.Change place)) self.old self.new) }
        ensures err { OnErr result (BringsTo false None self.old self.new) }
    {
        let mut side = self.shared.server_side();
        side.change(alloc)?;
        drop(side);
        self.lock.end_hold(SERVER, 1);
        Ok(Event::Change { place })
    }
}
