//! What a scene's run in threads gives: its picture and its journal, which are those of the closed lock's value.

ghost use Rattle.std.specs.Prelude.{IfOk};
ghost use Rattle.dri_base.specs.Ranges.{InRange};
ghost use Rattle.dri_run.specs.ThreadedRun.{GivesInThreads};

use crate::output::{plain, screen_of};
use crate::writing::Output;
use dri_base::{OutOfMemory, Scene};
use dri_core::plain_in_range;
use dri_threads::{Gate, run_clients};
use std::alloc::Global;
use std::sync::{Arc, Wait};
use std::thread::Threads;

/// What a scene's run in threads gives. It may wait.
pub fn threaded_output_of<R: Threads + Wait + Sync, G: Gate + Sync>(
    rt: &R,
    alloc: Global,
    gate: &G,
    scene: Scene,
) -> Result<Output, OutOfMemory>
    requires { InRange scene }
    ensures { IfOk result (λ o. GivesInThreads scene o.picture o.notes) }
{
    plain_in_range();
    let scene = Arc::new(alloc, plain(alloc, scene))?;
    let closed = run_clients(rt, alloc, gate, &scene)?;
    if closed.short {
        return Err(OutOfMemory);
    }
    let output = screen_of(alloc, closed.shared.front(), closed.shared.journal())?;
    Ok(output)
}
