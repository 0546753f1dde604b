//! What follows a take of the lock, and the leave. A client that took the lock lightly is as the last hold left it; one
//! that the kernel let in takes in what others did.

ghost use Rattle.std.specs.Prelude.{◌≡◌, ◌+◌, ◌≤◌, ◌↔◌};
ghost use Rattle.dri_base.specs.declared.journal.Entry.TheVariants.{Kernel, Leave, Light, Stale};
ghost use Rattle.dri_core.specs.Effects.{after_leave};
ghost use Rattle.dri_core.specs.Phases.{Ask, In};
ghost use Rattle.dri_shared.specs.Sides.{MayMake, client_at, value_at, world_at};
ghost use Rattle.dri_driver.specs.Checks.{phase_checked};
ghost use Rattle.dri_driver.specs.Clients.{part_of};
ghost use Rattle.dri_driver.specs.Fits.{Fits, HasMade, IsStale};
ghost use Rattle.dri_driver.specs.Needs.{entries_left, need_of};

use super::Client;
use crate::answers::Checked;
use dri_shared::ClientSide;

impl Client {
    /// It has taken the lock by the light exchange, and may act.
    pub fn after_light(&mut self, side: &mut ClientSide<'_>)
        requires client { client_at side.old ≡ self.old.number }
        requires fits { Fits self.old (value_at side.old) }
        requires room { 1 ≤ (value_at side.old).spare }
        requires legal { MayMake side.old (Light self.old.number) }
        ensures made { HasMade self.old self.new side.old side.new (Light self.old.number) }
        ensures phase { self.new.phase ≡ In }
        ensures need { entries_left self.new + 1 ≤ need_of self.old }
    {
        side.light();
        self.part.light();
    }

    /// The kernel let it in, which found this context in the word. It is stale exactly where its window's stamp isn't
    /// the one that it was told, and else may act.
    pub fn after_kernel(&mut self, side: &mut ClientSide<'_>, found: u32) -> Checked
        requires client { client_at side.old ≡ self.old.number }
        requires fits { Fits self.old (value_at side.old) }
        requires room { 1 ≤ (value_at side.old).spare }
        requires legal { MayMake side.old (Kernel self.old.number found) }
        ensures stale { (result ≡ Checked.Stale) ↔ IsStale self.old (world_at side.old) }
        ensures made { HasMade self.old self.new side.old side.new (Kernel self.old.number found) }
        ensures phase { self.new.phase ≡ phase_checked result }
        ensures need { entries_left self.new + 1 ≤ need_of self.old }
    {
        let taken = side.kernel(found);
        let is_stale = self
            .part
            .kernel(side.regions(), taken.stamp, taken.new_owner);
        if is_stale {
            Checked::Stale
        } else {
            Checked::Go
        }
    }

    /// It says that its stamp is old, and must leave to ask for information.
    pub fn stale(&mut self, side: &mut ClientSide<'_>)
        requires client { client_at side.old ≡ self.old.number }
        requires fits { Fits self.old (value_at side.old) }
        requires room { 1 ≤ (value_at side.old).spare }
        requires legal { MayMake side.old (Stale self.old.number) }
        ensures made { HasMade self.old self.new side.old side.new (Stale self.old.number) }
        ensures phase { self.new.phase ≡ Ask }
        ensures falls { entries_left self.new + 1 ≤ entries_left self.old }
    {
        side.stale();
        self.part.stale();
    }

    /// It leaves the lock: to ask, where it said that its stamp is old; else it is out, or has ended where no command is
    /// left. The context that has left is its own.
    pub fn leave(&mut self, side: &mut ClientSide<'_>)
        requires client { client_at side.old ≡ self.old.number }
        requires fits { Fits self.old (value_at side.old) }
        requires room { 1 ≤ (value_at side.old).spare }
        requires legal { MayMake side.old (Leave self.old.number) }
        ensures made { HasMade self.old self.new side.old side.new (Leave self.old.number) }
        ensures phase { self.new.phase ≡ after_leave self.old.scene self.old.number (part_of self.old) }
        ensures left { (world_at side.new).left ≡ self.old.number + 1 }
    {
        side.leave();
        let script = self.scene.clients.get(self.index);
        self.part.leave(script);
    }
}
