//! The server's events: each puts its entry last in the journal, and makes of the holdings what the entry makes of the
//! world. Where memory is wanting nothing was done.

ghost use Rattle.std.specs.Prelude.{◌≡◌, ◌≤◌, ◌+◌, ◌-◌, length, IfOk, OnOk, OnErr};
ghost use Rattle.dri_base.specs.declared.journal.Entry.TheVariants.{Info, Change, Gone};
ghost use Rattle.dri_shared.specs.Copies.{IsToldOf};
ghost use Rattle.dri_shared.specs.Sides.{IsUnserved, Serves, served_at};
ghost use Rattle.dri_shared.specs.States.{MayAdd, world_of};

use crate::answers::Told;
use crate::painting::{change_windows, unmap_windows};
use crate::scripts::window_of;
use crate::server_side::ServerSide;
use crate::shared::Shared;
use dri_base::{Entry, OutOfMemory, Steps};
use dri_rect::Region;
use std::alloc::Global;
use std::marker::Brand;
use std::sync::ledger::{Blank, Ledger};

/// A copy of a client's clips. The steps are counted from the blank on.
fn copy_clips<L: Ledger>(blank: Blank, alloc: Global, clips: &Region) -> Result<Region, OutOfMemory>
    requires name { blank.name ≡ L.name }
    requires parts { blank.parts ≡ L.parts }
    requires one { L.parts ≡ 1 }
    ensures { IfOk result (λ told. told ≡ clips.now) }
{
    clips.copy(alloc, &mut Steps::<L>::new(blank))
}

impl ServerSide<'_> {
    /// Tells a client, which asks, its window's stamp, origin and clips.
    pub fn info(&mut self, alloc: Global, client: u32) -> Result<Told, OutOfMemory>
        requires room { 1 ≤ (served_at self.old).spare }
        requires legal { MayAdd (served_at self.old) (Info client) }
        ensures made { OnOk result (Serves self.old self.new (Info client)) }
        ensures told { IfOk result (IsToldOf (served_at self.old).scene (world_of (served_at self.old)) client) }
        ensures kept { OnErr result (IsUnserved self.old self.new) }
    {
        let shared = &mut *self.shared;
        let window = window_of(&shared.scene, client);
        let board = &shared.holdings.board;
        let told = Told {
            stamp: board.stamp(window),
            origin: board.origin(window),
            clips: copy_clips::<Brand>(Blank::new(1), alloc, board.clips(window))?,
        };
        shared.holdings.left = 1;
        shared.journal.push_reserved(Entry::Info { client });
        Ok(told)
    }

    /// Makes the next change of the windows. One that the board refuses changes nothing but the number of changes made.
    pub fn change(&mut self, alloc: Global) -> Result<(), OutOfMemory>
        requires room { 1 ≤ (served_at self.old).spare }
        requires legal { MayAdd (served_at self.old) (Change ((world_of (served_at self.old)).made + 1)) }
        ensures made { OnOk result (Serves self.old self.new (Change ((world_of (served_at self.old)).made + 1))) }
        ensures kept { OnErr result (IsUnserved self.old self.new) }
    {
        let shared = &mut *self.shared;
        let change = *shared.scene.changes.get(shared.holdings.made as usize);
        change_windows::<Brand>(
            Blank::new(1),
            alloc,
            &mut shared.holdings.board,
            &mut shared.holdings.card,
            &change,
        )?;
        shared.holdings.made += 1;
        shared.holdings.left = 1;
        shared.journal.push_reserved(Entry::Change {
            place: shared.holdings.made,
        });
        Ok(())
    }

    /// A client is gone: it was killed, or died. Its windows are unmapped.
    pub fn gone(&mut self, alloc: Global, client: u32) -> Result<(), OutOfMemory>
        requires room { 1 ≤ (served_at self.old).spare }
        requires legal { MayAdd (served_at self.old) (Gone client) }
        ensures made { OnOk result (Serves self.old self.new (Gone client)) }
        ensures kept { OnErr result (IsUnserved self.old self.new) }
    {
        let shared = &mut *self.shared;
        unmap_windows::<Brand>(
            Blank::new(1),
            alloc,
            &mut shared.holdings.board,
            &mut shared.holdings.card,
            client,
        )?;
        shared.holdings.holder = None;
        shared.holdings.left = 0;
        shared.journal.push_reserved(Entry::Gone { client });
        Ok(())
    }

    /// How many changes aren't made yet.
    pub fn changes_left(&self) -> u32
        ensures { result ≡ length (served_at self.now).scene.changes - (world_of (served_at self.now)).made }
    {
        let shared: &Shared = self.shared;
        shared.scene.changes.len() as u32 - shared.holdings.made
    }
}
