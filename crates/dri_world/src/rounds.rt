//! Rounds of one turn each, the clients in rising order and then the server, until a whole round is passed over.

ghost use Rattle.std.specs.Prelude.{◌≡◌, ◌↔◌, [], IfOk, OnOk, OnErr, false};
ghost use Rattle.dri_core.specs.Cores.{journal_of};
ghost use Rattle.dri_core.specs.Runs.{Whole};
ghost use Rattle.dri_core.specs.Turns.{played, round};
ghost use Rattle.dri_world.specs.Courses.{GoesOn, IsPlayedIn, IsPlayedOn, IsPlayedOut, IsSound, LeavesLess, core_of, is_move};

use crate::turned::Turned;
use crate::world::World;
use dri_base::OutOfMemory;
use std::alloc::Global;

impl World {
    /// Plays rounds until a turn of each actor would be passed over, since all have ended: then the journal is whole.
    /// After `OutOfMemory` the turns that were made stand.
    pub fn finish(&mut self, alloc: Global) -> Result<(), OutOfMemory>
        ensures played { OnOk result (IsPlayedOut self.old self.new) }
        ensures whole { OnOk result (Whole self.new.scene (journal_of self.new.events)) }
        ensures err { OnErr result (IsPlayedOn self.old self.new) }
    {
        let mut moves = true;
        while moves {
            moves = self.round(alloc)?;
        }
        Ok(())
    }

    /// Plays one round, and tells whether a turn of it made an event.
    fn round(&mut self, alloc: Global) -> Result<bool, OutOfMemory>
        ensures made { OnOk result (GoesOn self.old self.new (played self.old.scene (core_of self.old) (round self.old.scene))) }
        ensures moves { IfOk result (λ b. (b ≡ false) ↔ (played self.old.scene (core_of self.old) (round self.old.scene) ≡ [])) }
        ensures err { OnErr result (IsPlayedIn self.old self.new) }
        ensures less { IfOk result (λ b. LeavesLess self.old self.new b) }
        ensures sound { OnOk result (IsSound self.new) }
    {
        let mut moves = false;
        for i in 0..self.scene.clients.len() {
            let number = self.scene.clients.get(i).number;
            let turned = self.turn(alloc, number)?;
            moves |= is_move(&turned);
        }
        let turned = self.server_turn(alloc)?;
        Ok(moves | is_move(&turned))
    }
}

/// Whether an event was made.
pub(crate) fn is_move(turned: &Turned) -> bool
    ensures { result ≡ is_move turned.now }
{
    matches!(turned, Turned::Did(_))
}
