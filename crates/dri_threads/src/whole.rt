//! A whole run, from the opening of the lock to its close.

ghost use Rattle.std.specs.Prelude.{◌≡◌, ◌≤◌, length, IfOk, IsFalse};
ghost use Rattle.std.specs.Arc.{arc_value};
ghost use Rattle.dri_base.specs.Ranges.{InRange};
ghost use Rattle.dri_core.specs.Frames.{Own, SoloLeft};
ghost use Rattle.dri_core.specs.Runs.{Confined, HoldRun, Whole};
ghost use Rattle.dri_hwlock.specs.Tokens.{AreNew, id_of, opening_value, pass_count, passes_in};
ghost use Rattle.dri_threads.specs.Rounds.{IsEnough};

use crate::drivers::drivers_of;
use crate::gate::Gate;
use crate::run::{Finished, run_actors};
use dri_base::{OutOfMemory, Scene};
use dri_hwlock::{HwLock, Passes};
use dri_kernel::Kernel;
use dri_shared::Shared;
use std::alloc::Global;
use std::sync::{Arc, Wait};
use std::thread::Threads;

/// What a run leaves: the value of the closed lock, and whether an actor gave up.
#[derive(Drop)]
pub struct Closed {
    pub shared: Shared,
    pub short: bool,
}

/// Runs all clients of a scene in range, each in a thread of its own, and closes the lock. The journal is a hold-run of
/// the scene, and where no actor gave up it is whole: all clients are ended or dead, and all changes are made. It isn't
/// promised that a thread runs beside another, or in which order holds come; it may wait forever. `Err` where there was
/// no memory for the lock and what is behind it: then no actor has run.
pub fn run_clients<R: Threads + Wait + Sync, T: Gate + Sync>(
    rt: &R,
    alloc: Global,
    gate: &T,
    scene: &Arc<Scene, Global>,
) -> Result<Closed, OutOfMemory>
    requires { InRange (arc_value scene.now) }
    ensures scene { IfOk result (λ r. r.shared.scene ≡ arc_value scene.now) }
    ensures run { IfOk result (λ r. HoldRun (arc_value scene.now) r.shared.journal) }
    ensures confined { IfOk result (λ r. Confined (arc_value scene.now) r.shared.journal) }
    ensures own { IfOk result (λ r. Own (arc_value scene.now) r.shared.journal) }
    ensures solo { IfOk result (λ r. SoloLeft (arc_value scene.now) r.shared.journal) }
    ensures whole { IfOk result (λ r. IsFalse r.short → Whole (arc_value scene.now) r.shared.journal) }
{
    let clients = drivers_of(alloc, scene)?;
    let (hw, passes) = lock_over(alloc, scene)?;
    let kernel = Kernel::new();
    let Finished { passes, short } = run_actors(
        rt, alloc, gate, scene, &hw, &kernel, passes, clients,
    );
    let shared = hw.close(passes);
    let _journal = shared.journal();
    Ok(Closed { shared, short })
}

/// The lock over the value of a scene, with enough passes.
fn lock_over(
    alloc: Global,
    scene: &Arc<Scene, Global>,
) -> Result<(HwLock<Shared>, Passes<Shared>), OutOfMemory>
    requires { InRange (arc_value scene.now) }
    ensures base { IfOk result (λ r. (opening_value r.0).scene ≡ arc_value scene.now) }
    ensures passes { IfOk result (λ r. AreNew (id_of r.0) (arc_value scene.now) 1 (passes_in r.1)) }
    ensures count { IfOk result (λ r. length (passes_in r.1) ≡ pass_count r.0) }
    ensures enough { IfOk result (λ r. IsEnough (arc_value scene.now) (length (passes_in r.1))) }
{
    let shared = Shared::new(alloc, scene.clone()?)?;
    match HwLock::new(alloc, shared, passes_for(scene)) {
        Ok(made) => Ok(made),
        Err(_) => Err(OutOfMemory),
    }
}

/// The least number of passes that is enough: one more than the greatest client's number.
fn passes_for(scene: &Scene) -> u32
    requires { InRange scene.now }
    ensures enough { IsEnough scene.now result }
    ensures few { result ≤ 33 }
{
    let count = scene.clients.len();
    if count == 0 {
        return 1;
    }
    scene.clients.get(count - 1).number + 1
}
