//! What the server does for a client, each in one call: a side of its own is made, and given up again.

ghost use Rattle.std.specs.Prelude.{◌≡◌, ◌≤◌, IfOk, OnOk, OnErr};
ghost use Rattle.dri_base.specs.declared.journal.Entry.TheVariants.{Gone, Info};
ghost use Rattle.dri_shared.specs.Copies.{IsToldOf};
ghost use Rattle.dri_shared.specs.States.{Added, MayAdd, world_of};

use crate::answers::Told;
use crate::shared::Shared;
use dri_base::OutOfMemory;
use std::alloc::Global;

impl Shared {
    /// The server tells a client, which asks, what its window shows. After `OutOfMemory` the value is as it was.
    pub fn tell(&mut self, alloc: Global, client: u32) -> Result<Told, OutOfMemory>
        requires room { 1 ≤ self.old.spare }
        requires legal { MayAdd self.old (Info client) }
        ensures told { IfOk result (IsToldOf self.old.scene (world_of self.old) client) }
        ensures made { OnOk result (Added self.old self.new (Info client)) }
        ensures err { OnErr result (self.new ≡ self.old) }
    {
        let mut side = self.server_side();
        let told = side.info(alloc, client)?;
        drop(side);
        Ok(told)
    }

    /// The windows of a client that dies are unmapped. After `OutOfMemory` the value is as it was.
    pub fn bury(&mut self, alloc: Global, client: u32) -> Result<(), OutOfMemory>
        requires room { 1 ≤ self.old.spare }
        requires legal { MayAdd self.old (Gone client) }
        ensures made { OnOk result (Added self.old self.new (Gone client)) }
        ensures err { OnErr result (self.new ≡ self.old) }
    {
        let mut side = self.server_side();
        side.gone(alloc, client)?;
        drop(side);
        Ok(())
    }
}
