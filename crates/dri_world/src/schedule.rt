//! The scene's schedule: its turns and kills, in order.

ghost use Rattle.std.specs.Prelude.{◌≡◌, IfOk, OnOk, OnErr};
ghost use Rattle.dri_core.specs.Turns.{item_event, one_event, played};
ghost use Rattle.dri_world.specs.Courses.{GoesOn, IsScheduledIn, MayTake, core_of, turned};

use crate::turned::Turned;
use crate::world::World;
use dri_base::{Item, OutOfMemory};
use std::alloc::Global;

impl World {
    /// Takes the items of the scene's schedule, in order. After `OutOfMemory` the turns and kills that were made stand.
    /// From the opening the schedule and then `finish` play the turns of the scene.
    pub fn run_schedule(&mut self, alloc: Global) -> Result<(), OutOfMemory>
        ensures played { OnOk result (GoesOn self.old self.new (played self.old.scene (core_of self.old) self.old.scene.turns)) }
        ensures err { OnErr result (IsScheduledIn self.old self.new) }
    {
        for i in 0..self.scene.turns.len() {
            let item = *self.scene.turns.get(i);
            self.take(alloc, item)?;
        }
        Ok(())
    }

    /// Takes an item: the turn of an actor of the scene, or a kill that the schedule has.
    pub fn take(&mut self, alloc: Global, item: Item) -> Result<Turned, OutOfMemory>
        requires { MayTake self.old.scene item }
        ensures told { IfOk result (λ t. t ≡ turned (item_event self.old.scene (core_of self.old) item)) }
        ensures made { OnOk result (GoesOn self.old self.new (one_event (item_event self.old.scene (core_of self.old) item))) }
        ensures err { OnErr result (self.new ≡ self.old) }
    {
        match item {
            Item::Turn { actor } => self.turn(alloc, actor),
            Item::Kill { client } => self.kill(alloc, client),
        }
    }
}
