//! What the server does, for a client or by itself: each is made in the value under the lock, and in the client whose it
//! is, which then fits what the event leaves.

ghost use Rattle.std.specs.Prelude.{◌≡◌, ◌≤◌, ◌+◌, false, OnOk, OnErr};
ghost use Rattle.dri_base.specs.declared.journal.Entry.TheVariants as Entry_is;
ghost use Rattle.dri_core.specs.Phases as Phase_is;
ghost use Rattle.dri_shared.specs.States.{Added, MayAdd, world_of};
ghost use Rattle.dri_threads.specs.Sessions.{IsSeated, Makes};

use dri_base::OutOfMemory;
use dri_driver::Client;
use dri_shared::Shared;
use std::alloc::Global;

/// The client, which asks, is told what its window shows.
pub(crate) fn inform(
    alloc: Global,
    shared: &mut Shared,
    client: &mut Client,
    number: u32,
) -> Result<(), OutOfMemory>
    requires seated { IsSeated shared.old client.old number }
    requires room { 1 ≤ shared.old.spare }
    requires legal { MayAdd shared.old (Entry_is.Info number) }
    ensures made { OnOk result (Makes shared.old shared.new client.old client.new (Entry_is.Info number)) }
    ensures phase { OnOk result (client.new.phase ≡ Phase_is.Out) }
    ensures err { OnErr result ((shared.new ≡ shared.old) × (client.new ≡ client.old)) }
{
    let told = shared.tell(alloc, number)?;
    client.told(told);
    Ok(())
}

/// The client is gone.
pub(crate) fn bury(
    alloc: Global,
    shared: &mut Shared,
    client: &mut Client,
    number: u32,
) -> Result<(), OutOfMemory>
    requires seated { IsSeated shared.old client.old number }
    requires living { client.old.dying ≡ false }
    requires room { 1 ≤ shared.old.spare }
    requires legal { MayAdd shared.old (Entry_is.Gone number) }
    ensures made { OnOk result (Makes shared.old shared.new client.old client.new (Entry_is.Gone number)) }
    ensures phase { OnOk result (client.new.phase ≡ Phase_is.Dead) }
    ensures err { OnErr result ((shared.new ≡ shared.old) × (client.new ≡ client.old)) }
{
    shared.bury(alloc, number)?;
    client.gone();
    Ok(())
}

/// The server makes its next change.
pub(crate) fn change(alloc: Global, shared: &mut Shared) -> Result<(), OutOfMemory>
    requires room { 1 ≤ shared.old.spare }
    requires legal { MayAdd shared.old (Entry_is.Change ((world_of shared.old).made + 1)) }
    ensures made { OnOk result (Added shared.old shared.new (Entry_is.Change ((world_of shared.old).made + 1))) }
    ensures err { OnErr result (shared.new ≡ shared.old) }
{
    let mut side = shared.server_side();
    side.change(alloc)?;
    drop(side);
    Ok(())
}
