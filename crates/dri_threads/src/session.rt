//! A session: what an actor does in one hold, to the value and to its client. It looks whether somebody holds in the
//! journal, makes room for all entries of the hold, passes the gate, and makes the entries. A client comes in and acts in
//! one side of the value.

ghost use Rattle.std.specs.Prelude.{◌≡◌, ◌≤◌, ◌<◌, ◌+◌, ◌⊎◌, length, false, true, None, IfOk, OnOk};
ghost use Rattle.dri_core.specs.Phases as Phase_is;
ghost use Rattle.dri_shared.specs.Sides.{client_at, value_at, world_at};
ghost use Rattle.dri_shared.specs.States.{IsSameRun, world_of};
ghost use Rattle.dri_driver.specs.Acts.{IsActing, IsAtDeath};
ghost use Rattle.dri_driver.specs.Checks.{phase_checked};
ghost use Rattle.dri_driver.specs.Needs.{entries_left, need_of};
ghost use Rattle.dri_threads.specs.Sessions.{IsReady, IsSeated, Works, WorksIn, Grows, MayEnter, is_at_rest};
ghost use Rattle.dri_threads.specs.declared.session.Exit.TheVariants as Exit_is;

use crate::events::{bury, change, inform};
use crate::gate::{Gate, GatePoint};
use dri_base::OutOfMemory;
use dri_driver::{Acted, Checked, Client};
use dri_shared::{ClientSide, Shared};
use std::alloc::Global;

/// The server's number, as the gate and the kernel's queue know it.
pub(crate) const SERVER: u32 = 0;

/// How a client got the lock: by the light exchange, or through the kernel, which found this context in the word.
#[derive(Clone, Copy, Debug, PartialEq, Eq)]
pub(crate) enum Entrance {
    Light,
    Kernel { found: u32 },
}

/// How a client goes out of its hold: it leaves, or it dies.
#[derive(Clone, Copy, Debug, PartialEq, Eq)]
pub(crate) enum Exit {
    Leave,
    Die,
}

/// The session of a client that is out. Where a growth of memory is refused, or somebody holds in the journal since
/// another's was, it gives up: only a death that was refused leaves entries then.
pub(crate) fn acting_session<T: Gate>(
    alloc: Global,
    gate: &T,
    shared: &mut Shared,
    client: &mut Client,
    number: u32,
    entrance: Entrance,
) -> Result<Exit, OutOfMemory>
    requires seated { IsSeated shared.old client.old number }
    requires living { client.old.dying ≡ false }
    requires out { client.old.phase ≡ Phase_is.Out }
    requires may { MayEnter number (world_of shared.old) entrance }
    ensures grows { Grows (number + 1) shared.old shared.new }
    ensures works { OnOk result (Works number shared.old shared.new client.old client.new) }
    ensures rests { OnOk result (is_at_rest client.new.phase ≡ true) }
    ensures left { IfOk result (λ exit. exit ≡ Exit_is.Leave → (world_of shared.new).left ≡ number + 1) }
{
    begin(gate, shared, number, client.need())?;
    let mut side = shared.client_side(number);
    let exit = work(&mut side, client, entrance);
    drop(side);
    go(alloc, shared, client, number, exit)?;
    Ok(exit)
}

/// The session of a client that asks: the server's part in it is done on the client's own thread. It gives up as above,
/// and leaves no entry then.
pub(crate) fn asking_session<T: Gate>(
    alloc: Global,
    gate: &T,
    shared: &mut Shared,
    client: &mut Client,
    number: u32,
) -> Result<(), OutOfMemory>
    requires seated { IsSeated shared.old client.old number }
    requires asking { client.old.phase ≡ Phase_is.Asking }
    ensures grows { Grows (number + 1) shared.old shared.new }
    ensures works { OnOk result (Works number shared.old shared.new client.old client.new) }
    ensures rests { OnOk result (is_at_rest client.new.phase ≡ true) }
    ensures left { OnOk result ((world_of shared.new).left ≡ 1) }
{
    begin(gate, shared, number, 1)?;
    inform(alloc, shared, client, number)
}

/// A session of the server, which makes the next change. It gives up as above, and leaves no entry then.
pub(crate) fn change_session<T: Gate>(
    alloc: Global,
    gate: &T,
    shared: &mut Shared,
) -> Result<(), OutOfMemory>
    requires left { (world_of shared.old).made < length shared.old.scene.changes }
    ensures grows { Grows 1 shared.old shared.new }
    ensures made { OnOk result ((world_of shared.new).made ≡ (world_of shared.old).made + 1) }
    ensures left { OnOk result ((world_of shared.new).left ≡ 1) }
{
    begin(gate, shared, SERVER, 1)?;
    change(alloc, shared)
}

/// The beginning of each session, in which the actor is to make at most so many entries: nobody holds, there is room for
/// them, and the gate has been passed.
fn begin<T: Gate>(
    gate: &T,
    shared: &mut Shared,
    actor: u32,
    entries: u32,
) -> Result<(), OutOfMemory>
    ensures run { IsSameRun shared.old shared.new }
    ensures ready { OnOk result (IsReady shared.new entries) }
{
    if shared.holder().is_some() {
        return Err(OutOfMemory);
    }
    shared.reserve(entries)?;
    gate.at(actor, GatePoint::Holding);
    Ok(())
}

/// The client comes in, and acts, or says that its stamp is old. The answer is how it is to go.
fn work(side: &mut ClientSide<'_>, client: &mut Client, entrance: Entrance) -> Exit
    requires seated { IsSeated (value_at side.old) client.old (client_at side.old) }
    requires out { client.old.phase ≡ Phase_is.Out }
    requires ready { IsReady (value_at side.old) (need_of client.old) }
    requires may { MayEnter (client_at side.old) (world_at side.old) entrance }
    ensures works { WorksIn side.old side.new client.old client.new }
    ensures leaves { result ≡ Exit_is.Leave → (client.new.phase ≡ Phase_is.Over) ⊎ (client.new.phase ≡ Phase_is.Ask) }
    ensures dies { result ≡ Exit_is.Die → IsAtDeath client.new }
    ensures room { 1 ≤ (value_at side.new).spare }
{
    match enter(side, client, entrance) {
        Checked::Go => act_on(side, client),
        Checked::Stale => {
            client.stale(side);
            Exit::Leave
        }
    }
}

/// The client comes in, and finds its stamp current or old.
fn enter(side: &mut ClientSide<'_>, client: &mut Client, entrance: Entrance) -> Checked
    requires seated { IsSeated (value_at side.old) client.old (client_at side.old) }
    requires out { client.old.phase ≡ Phase_is.Out }
    requires ready { IsReady (value_at side.old) (need_of client.old) }
    requires may { MayEnter (client_at side.old) (world_at side.old) entrance }
    ensures works { WorksIn side.old side.new client.old client.new }
    ensures phase { client.new.phase ≡ phase_checked result }
    ensures room { entries_left client.new ≤ (value_at side.new).spare }
{
    match entrance {
        Entrance::Light => {
            client.after_light(side);
            Checked::Go
        }
        Entrance::Kernel { found } => client.after_kernel(side, found),
    }
}

/// The client acts until it must leave, or its next command is its death.
fn act_on(side: &mut ClientSide<'_>, client: &mut Client) -> Exit
    requires seated { IsSeated (value_at side.old) client.old (client_at side.old) }
    requires acting { IsActing client.old }
    requires room { entries_left client.old ≤ (value_at side.old).spare }
    ensures works { WorksIn side.old side.new client.old client.new }
    ensures leaves { result ≡ Exit_is.Leave → client.new.phase ≡ Phase_is.Over }
    ensures dies { result ≡ Exit_is.Die → IsAtDeath client.new }
    ensures room { 1 ≤ (value_at side.new).spare }
{
    loop {
        match client.act(side) {
            Acted::Ran { entry: _ } => {}
            Acted::MustLeave | Acted::Done => return Exit::Leave,
            Acted::Dies => return Exit::Die,
        }
    }
}

/// The client leaves, or dies.
fn go(
    alloc: Global,
    shared: &mut Shared,
    client: &mut Client,
    number: u32,
    exit: Exit,
) -> Result<(), OutOfMemory>
    requires seated { IsSeated shared.old client.old number }
    requires living { client.old.dying ≡ false }
    requires leaves { exit ≡ Exit_is.Leave → (client.old.phase ≡ Phase_is.Over) ⊎ (client.old.phase ≡ Phase_is.Ask) }
    requires dies { exit ≡ Exit_is.Die → IsAtDeath client.old }
    requires room { 1 ≤ shared.old.spare }
    ensures grows { Grows (number + 1) shared.old shared.new }
    ensures works { OnOk result (Works number shared.old shared.new client.old client.new) }
    ensures rests { OnOk result (is_at_rest client.new.phase ≡ true) }
    ensures left { OnOk result (exit ≡ Exit_is.Leave → (world_of shared.new).left ≡ number + 1) }
{
    match exit {
        Exit::Leave => {
            let mut side = shared.client_side(number);
            client.leave(&mut side);
            drop(side);
            Ok(())
        }
        Exit::Die => bury(alloc, shared, client, number),
    }
}
