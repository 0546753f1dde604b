//! Actors: each takes hold after hold until it has ended. A client that is out takes the lock by the light exchange, and
//! where that fails through the kernel; one that asks, and the server, take it as server.

ghost use Rattle.std.specs.Prelude.{◌≡◌, ◌≤◌, ◌<◌, ◌+◌, length, false, true, IfOk, IfErr, Some};
ghost use Rattle.dri_core.specs.Phases as Phase_is;
ghost use Rattle.dri_core.specs.Phases.{is_done};
ghost use Rattle.dri_core.specs.Runs.{after};
ghost use Rattle.dri_hwlock.specs.Tokens.{id_of, pass_token, late_token, hold_token, value_in, name_of, IsSuccessor};
ghost use Rattle.dri_shared.specs.States.{world_of};
ghost use Rattle.dri_driver.specs.Fits.{IsSameClient};
ghost use Rattle.dri_threads.specs.Sessions.{IsSeated, MayEnter};
ghost use Rattle.dri_threads.specs.Actors.{Stands, IsFound, IsNumber, want_in};

use crate::gate::{Gate, GatePoint};
use crate::session::{Entrance, Exit, SERVER, acting_session, asking_session, change_session};
use crate::stage::Stage;
use dri_base::OutOfMemory;
use dri_driver::{Client, Phase};
use dri_hwlock::{Hold, Late, Pass};
use dri_shared::Shared;
use std::sync::Wait;

/// An actor gave up, for want of memory. Its pass comes back.
#[derive(Drop)]
pub(crate) struct Short {
    pub(crate) pass: Pass<Shared>,
}

/// What a client that holds nothing wants: to act, to be told what its window shows, or nothing more.
#[derive(Clone, Copy, Debug, PartialEq, Eq)]
pub(crate) enum Want {
    Act,
    Learn,
    Nothing,
}

/// Runs a client until it has ended or is dead, or gives up.
pub(crate) fn run_client<R: Wait, T: Gate>(
    rt: &R,
    stage: &Stage<'_, T>,
    pass: Pass<Shared>,
    client: &mut Client,
    number: u32,
) -> Result<Pass<Shared>, Short>
    requires own { (pass_token pass).lock ≡ id_of stage.now.hw.now }
    requires number { IsNumber number }
    requires stands { Stands (pass_token pass) client.old number }
    ensures next { IfOk result (λ p. IsSuccessor (pass_token pass) (pass_token p)) }
    ensures done { IfOk result (λ p. is_done ((after client.old.scene (pass_token p).seen).client number).phase ≡ true) }
    ensures short { IfErr result (λ short. IsSuccessor (pass_token pass) (pass_token short.pass)) }
{
    let mut pass = pass;
    for _ in rt.forever() {
        let want = want_of(client);
        if want == Want::Nothing {
            return Ok(pass);
        }
        pass = next_hold(rt, stage, pass, client, number, want)?;
    }
    unreachable!()
}

/// Runs the server until all changes are made, or it gives up.
pub(crate) fn run_server<R: Wait, T: Gate>(
    rt: &R,
    stage: &Stage<'_, T>,
    pass: Pass<Shared>,
) -> Result<Pass<Shared>, Short>
    requires own { (pass_token pass).lock ≡ id_of stage.now.hw.now }
    requires base { (pass_token pass).base ≡ Some stage.now.scene.now }
    requires context { (pass_token pass).context ≡ 1 }
    requires none { (after stage.now.scene.now (pass_token pass).seen).made ≡ 0 }
    ensures next { IfOk result (λ p. IsSuccessor (pass_token pass) (pass_token p)) }
    ensures made { IfOk result (λ p. (after stage.now.scene.now (pass_token p).seen).made ≡ length stage.now.scene.now.changes) }
    ensures short { IfErr result (λ short. IsSuccessor (pass_token pass) (pass_token short.pass)) }
{
    let mut pass = pass;
    let mut made = 0;
    while made < stage.scene.changes.len() {
        pass = hold_to_change(rt, stage, pass)?;
        made += 1;
    }
    Ok(pass)
}

/// What the client wants.
fn want_of(client: &Client) -> Want
    requires living { client.now.dying ≡ false }
    ensures { result ≡ want_in client.now.phase }
{
    match client.phase() {
        Phase::Out => Want::Act,
        Phase::Asking => Want::Learn,
        _ => Want::Nothing,
    }
}

/// The hold that a client wants, where it wants one.
fn next_hold<R: Wait, T: Gate>(
    rt: &R,
    stage: &Stage<'_, T>,
    pass: Pass<Shared>,
    client: &mut Client,
    number: u32,
    want: Want,
) -> Result<Pass<Shared>, Short>
    requires own { (pass_token pass).lock ≡ id_of stage.now.hw.now }
    requires number { IsNumber number }
    requires stands { Stands (pass_token pass) client.old number }
    requires want { want ≡ want_in client.old.phase }
    ensures next { IfOk result (λ p. IsSuccessor (pass_token pass) (pass_token p)) }
    ensures stands { IfOk result (λ p. Stands (pass_token p) client.new number) }
    ensures same { IfOk result (λ p. IsSameClient client.old client.new) }
    ensures short { IfErr result (λ short. IsSuccessor (pass_token pass) (pass_token short.pass)) }
{
    match want {
        Want::Act => hold_to_act(rt, stage, pass, client, number),
        Want::Learn => hold_to_learn(rt, stage, pass, client, number),
        Want::Nothing => Ok(pass),
    }
}

/// A client that is out takes the lock, and acts: by the light exchange, and where that fails through the kernel.
fn hold_to_act<R: Wait, T: Gate>(
    rt: &R,
    stage: &Stage<'_, T>,
    pass: Pass<Shared>,
    client: &mut Client,
    number: u32,
) -> Result<Pass<Shared>, Short>
    requires own { (pass_token pass).lock ≡ id_of stage.now.hw.now }
    requires number { IsNumber number }
    requires stands { Stands (pass_token pass) client.old number }
    requires out { client.old.phase ≡ Phase_is.Out }
    ensures next { IfOk result (λ p. IsSuccessor (pass_token pass) (pass_token p)) }
    ensures stands { IfOk result (λ p. Stands (pass_token p) client.new number) }
    ensures same { IfOk result (λ p. IsSameClient client.old client.new) }
    ensures short { IfErr result (λ short. IsSuccessor (pass_token pass) (pass_token short.pass)) }
{
    stage.gate.at(number, GatePoint::BeforeLock);
    match stage.hw.light(pass) {
        Ok(hold) => act_in(rt, stage, hold, client, number, Entrance::Light),
        Err(late) => wait_to_act(rt, stage, late, client, number),
    }
}

/// A client whose light exchange failed takes the lock through the kernel, and acts.
fn wait_to_act<R: Wait, T: Gate>(
    rt: &R,
    stage: &Stage<'_, T>,
    late: Late<Shared>,
    client: &mut Client,
    number: u32,
) -> Result<Pass<Shared>, Short>
    requires own { (late_token late).lock ≡ id_of stage.now.hw.now }
    requires number { IsNumber number }
    requires stands { Stands (late_token late) client.old number }
    requires out { client.old.phase ≡ Phase_is.Out }
    ensures next { IfOk result (λ p. IsSuccessor (late_token late) (pass_token p)) }
    ensures stands { IfOk result (λ p. Stands (pass_token p) client.new number) }
    ensures same { IfOk result (λ p. IsSameClient client.old client.new) }
    ensures short { IfErr result (λ short. IsSuccessor (late_token late) (pass_token short.pass)) }
{
    let hold = stage.kernel.lock(rt, stage.hw, number, late);
    let found = hold.found();
    act_in(rt, stage, hold, client, number, Entrance::Kernel { found })
}

/// A client that is out acts in its hold, which it got in this way, and lets it go.
fn act_in<R: Wait, T: Gate>(
    rt: &R,
    stage: &Stage<'_, T>,
    hold: Hold<Shared>,
    client: &mut Client,
    number: u32,
    entrance: Entrance,
) -> Result<Pass<Shared>, Short>
    requires own { (hold_token hold).lock ≡ id_of stage.now.hw.now }
    requires name { name_of hold ≡ (hold_token hold).context }
    requires found { IsFound (number + 1) (hold_token hold) (value_in hold) }
    requires seated { IsSeated (value_in hold) client.old number }
    requires living { client.old.dying ≡ false }
    requires out { client.old.phase ≡ Phase_is.Out }
    requires may { MayEnter number (world_of (value_in hold)) entrance }
    ensures next { IfOk result (λ p. IsSuccessor (hold_token hold) (pass_token p)) }
    ensures stands { IfOk result (λ p. Stands (pass_token p) client.new number) }
    ensures same { IfOk result (λ p. IsSameClient client.old client.new) }
    ensures short { IfErr result (λ short. IsSuccessor (hold_token hold) (pass_token short.pass)) }
{
    let mut hold = hold;
    match acting_session(
        stage.alloc,
        stage.gate,
        hold.value(),
        client,
        number,
        entrance,
    ) {
        Ok(Exit::Leave) => Ok(stage.kernel.unlock(rt, stage.hw, hold)),
        Ok(Exit::Die) => Ok(stage.kernel.release(rt, stage.hw, hold)),
        Err(OutOfMemory) => Err(Short {
            pass: stage.kernel.release(rt, stage.hw, hold),
        }),
    }
}

/// A client that asks takes the lock as server, with its own pass and on its own thread, and is told.
fn hold_to_learn<R: Wait, T: Gate>(
    rt: &R,
    stage: &Stage<'_, T>,
    pass: Pass<Shared>,
    client: &mut Client,
    number: u32,
) -> Result<Pass<Shared>, Short>
    requires own { (pass_token pass).lock ≡ id_of stage.now.hw.now }
    requires number { IsNumber number }
    requires stands { Stands (pass_token pass) client.old number }
    requires asking { client.old.phase ≡ Phase_is.Asking }
    ensures next { IfOk result (λ p. IsSuccessor (pass_token pass) (pass_token p)) }
    ensures stands { IfOk result (λ p. Stands (pass_token p) client.new number) }
    ensures same { IfOk result (λ p. IsSameClient client.old client.new) }
    ensures short { IfErr result (λ short. IsSuccessor (pass_token pass) (pass_token short.pass)) }
{
    stage.gate.at(number, GatePoint::BeforeLock);
    let mut hold = stage.kernel.lock_as_server(rt, stage.hw, number, pass);
    match asking_session(stage.alloc, stage.gate, hold.value(), client, number) {
        Ok(()) => Ok(stage.kernel.unlock_server(rt, stage.hw, hold)),
        Err(OutOfMemory) => Err(Short {
            pass: stage.kernel.release(rt, stage.hw, hold),
        }),
    }
}

/// The server takes the lock, and makes the next change.
fn hold_to_change<R: Wait, T: Gate>(
    rt: &R,
    stage: &Stage<'_, T>,
    pass: Pass<Shared>,
) -> Result<Pass<Shared>, Short>
    requires own { (pass_token pass).lock ≡ id_of stage.now.hw.now }
    requires base { (pass_token pass).base ≡ Some stage.now.scene.now }
    requires context { (pass_token pass).context ≡ 1 }
    requires left { (after stage.now.scene.now (pass_token pass).seen).made < length stage.now.scene.now.changes }
    ensures next { IfOk result (λ p. IsSuccessor (pass_token pass) (pass_token p)) }
    ensures made { IfOk result (λ p. (after stage.now.scene.now (pass_token p).seen).made
        ≡ (after stage.now.scene.now (pass_token pass).seen).made + 1) }
    ensures short { IfErr result (λ short. IsSuccessor (pass_token pass) (pass_token short.pass)) }
{
    stage.gate.at(SERVER, GatePoint::BeforeLock);
    let mut hold = stage.kernel.lock_as_server(rt, stage.hw, SERVER, pass);
    match change_session(stage.alloc, stage.gate, hold.value()) {
        Ok(()) => Ok(stage.kernel.unlock_server(rt, stage.hw, hold)),
        Err(OutOfMemory) => Err(Short {
            pass: stage.kernel.release(rt, stage.hw, hold),
        }),
    }
}
