//! All actors beside each other, by recursive join: the last pass is its client's, and the others' actors run beside it.

ghost use Rattle.std.specs.Prelude.{◌≡◌, ◌≤◌, ◌<◌, ◌+◌, ◌-◌, ◌++◌, ◌∷◌, [], length, true, IfOk, IfErr, IfSome, IfNone, Some, Contains, slice_get};
ghost use Rattle.std.specs.Arc.{arc_value};
ghost use Rattle.std.specs.Thread.{IsSync};
ghost use Rattle.dri_base.specs.Ranges.{InRange, client_numbers};
ghost use Rattle.dri_core.specs.Phases.{is_done};
ghost use Rattle.dri_core.specs.Runs.{after};
ghost use Rattle.dri_hwlock.specs.Tokens.{id_of, pass_token, passes_in, IsSuccessor, AreNew};
ghost use Rattle.dri_driver.specs.Opening.{AreOpening, IsOpening};
ghost use Rattle.dri_threads.specs.Actors.{Stands, IsNumber};
ghost use Rattle.dri_threads.specs.Rounds.{AreBelow, AreServed, IsEnough};

use crate::actor::{Short, run_client, run_server};
use crate::drivers::Drivers;
use crate::gate::Gate;
use crate::stage::Stage;
use dri_base::Scene;
use dri_driver::Client;
use dri_hwlock::{HwLock, Pass, Passes};
use dri_kernel::Kernel;
use dri_shared::Shared;
use std::alloc::Global;
use std::sync::{Arc, Wait};
use std::thread::{Threads, join};

/// What actors leave when they have returned: their passes, in order, and whether one of them gave up. An actor gives up
/// where a growth of memory was refused, or where it found that somebody holds in the journal, which is left by another
/// that gave up inside its hold.
#[derive(Drop)]
pub struct Finished {
    pub passes: Passes<Shared>,
    pub short: bool,
}

impl Finished {
    /// With what one more actor gave back, whose pass comes last.
    fn with(self, returned: Result<Pass<Shared>, Short>) -> Finished
        requires room { length (passes_in self.passes) < 33 }
        ensures ok { IfOk returned (λ pass. (passes_in result.passes ≡ passes_in self.passes ++ pass ∷ []) × (result.short ≡ self.short)) }
        ensures err { IfErr returned (λ short. (passes_in result.passes ≡ passes_in self.passes ++ short.pass ∷ []) × (result.short ≡ true)) }
    {
        let Finished { mut passes, short } = self;
        match returned {
            Ok(pass) => {
                passes.push(pass);
                Finished { passes, short }
            }
            Err(Short { pass }) => {
                passes.push(pass);
                Finished {
                    passes,
                    short: true,
                }
            }
        }
    }
}

/// Runs the server and each client of the scene beside each other until all have returned. The passes are those that
/// were made with the lock, and are enough: the server has the first, and client n that of the context n + 1. It isn't
/// promised that a thread runs beside another, nor in which order holds come, and the call may wait forever.
pub fn run_actors<R: Threads + Wait + Sync, T: Gate + Sync>(
    rt: &R,
    alloc: Global,
    gate: &T,
    scene: &Arc<Scene, Global>,
    hw: &HwLock<Shared>,
    kernel: &Kernel,
    passes: Passes<Shared>,
    clients: Drivers,
) -> Finished
    requires in_range { InRange (arc_value scene.now) }
    requires passes { AreNew (id_of hw.now) (arc_value scene.now) 1 (passes_in passes) }
    requires enough { IsEnough (arc_value scene.now) (length (passes_in passes)) }
    requires clients { AreOpening (arc_value scene.now) (client_numbers (arc_value scene.now).clients) clients }
    ensures served { AreServed (arc_value scene.now) (id_of hw.now) (length (passes_in passes)) result.short (passes_in result.passes) }
{
    let stage = Stage::new(alloc, gate, scene, hw, kernel);
    run_beside(rt, &stage, passes, clients)
}

/// Runs the actors of these passes, beside each other.
fn run_beside<R: Threads + Wait + Sync, T: Gate + Sync>(
    rt: &R,
    stage: &Stage<'_, T>,
    mut passes: Passes<Shared>,
    mut clients: Drivers,
) -> Finished
    requires in_range { InRange stage.now.scene.now }
    requires new { AreNew (id_of stage.now.hw.now) stage.now.scene.now 1 (passes_in passes) }
    requires some { 0 < length (passes_in passes) }
    requires clients { AreBelow stage.now.scene.now (length (passes_in passes)) clients }
    ensures served { AreServed stage.now.scene.now (id_of stage.now.hw.now) (length (passes_in passes)) result.short (passes_in result.passes) }
{
    let Some(pass) = passes.pop() else {
        unreachable!()
    };
    let number = passes.len();
    if number == 0 {
        let short = false;
        return Finished { passes, short }.with(run_server(rt, stage, pass));
    }
    let Some(client) = last_client(stage.scene, &mut clients, number) else {
        return run_beside(rt, stage, passes, clients).with(Ok(pass));
    };
    let &Stage {
        alloc,
        gate,
        scene,
        hw,
        kernel,
    } = stage;
    let (returned, finished) = join(
        rt,
        move || -> Result<Pass<Shared>, Short>
            requires { IsSync R.row × ((pass_token pass).lock ≡ id_of hw.now) × IsNumber number × Stands (pass_token pass) client number }
            ensures { IfOk result (λ p. IsSuccessor (pass_token pass) (pass_token p))
                × IfOk result (λ p. is_done ((after client.scene (pass_token p).seen).client number).phase ≡ true)
                × IfErr result (λ short. IsSuccessor (pass_token pass) (pass_token short.pass)) }
        {
            let stage = Stage::new(alloc, gate, scene, hw, kernel);
            let mut client = client;
            run_client(rt, &stage, pass, &mut client, number)
        },
        move || -> Finished
            requires { IsSync R.row × InRange scene.now × AreNew (id_of hw.now) scene.now 1 (passes_in passes) × (0 < length (passes_in passes)) × AreBelow scene.now (length (passes_in passes)) clients }
            ensures { AreServed scene.entry.now (id_of hw.entry.now) (length (passes_in passes)) result.short (passes_in result.passes) }
        {
            let stage = Stage::new(alloc, gate, scene, hw, kernel);
            run_beside(rt, &stage, passes, clients)
        },
    );
    finished.with(returned)
}

/// Takes the last client away where it is the one of this number.
fn last_client(scene: &Scene, clients: &mut Drivers, number: u32) -> Option<Client>
    requires in_range { InRange scene.now }
    requires below { AreBelow scene.now (number + 1) clients.old }
    ensures some { IfSome result (λ k. AreBelow scene.now number clients.new × IsOpening scene.now number k × Contains (client_numbers scene.now.clients) number) }
    ensures none { IfNone result (AreBelow scene.now number clients.new × (Contains (client_numbers scene.now.clients) number → ⊥)) }
{
    let count = clients.len();
    if count == 0 {
        return None;
    }
    if scene.clients.get(count - 1).number != number {
        return None;
    }
    clients.pop()
}
