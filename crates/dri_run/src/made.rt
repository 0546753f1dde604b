//! The word `make`: a scene for load, and how many frames run in it and stand.

ghost use Rattle.std.specs.Prelude.{◌≡◌, ◌≤◌, ◌⊎◌, IfOk};
ghost use Rattle.std.specs.Arc.{arc_value};
ghost use Rattle.dri_base.specs.Ranges.{InRange, IsWithin};
ghost use Rattle.dri_io.specs.Causes.{Rose};
ghost use Rattle.dri_scene.specs.Generator.{generator};
ghost use Rattle.dri_run.specs.MadeScene.{GivesMade, IsMadeReport};
ghost use Rattle.dri_run.specs.Outcome.{AreTaken, Runs};

use crate::Status;
use crate::output::run;
use crate::report::{bytes_of, frames_line};
use crate::writing::{Output, write_output};
use dri_base::{OutOfMemory, Scene};
use dri_io::Sink;
use dri_journal::{CheckFault, Report, check};
use dri_scene::{make_scene, print_scene};
use std::alloc::Global;
use std::sync::Arc;

/// The report of the run of a made scene.
fn report_of(alloc: Global, scene: &Arc<Scene, Global>, clients: u32) -> Result<Report, OutOfMemory>
    requires clients { IsWithin 1 32 clients }
    requires scene { arc_value scene.now ≡ generator clients }
    requires range { InRange (arc_value scene.now) }
    ensures { IfOk result (IsMadeReport clients) }
{
    let world = run(alloc, scene)?;
    match check(alloc, scene, world.journal()) {
        Ok(report) => Ok(report),
        Err(CheckFault::NotARun { entry: _ }) => unreachable!(),
        Err(CheckFault::OutOfMemory) => Err(OutOfMemory),
    }
}

/// The scene of so many clients, 1 to 32, as a text, and how many frames run in it and stand.
fn made_output_of(alloc: Global, clients: u32) -> Result<Output, OutOfMemory>
    requires { IsWithin 1 32 clients }
    ensures { IfOk result (λ o. GivesMade clients o.picture o.notes) }
{
    let scene = Arc::new(alloc, make_scene(alloc, clients)?)?;
    let picture = print_scene(alloc, &scene)?;
    let report = report_of(alloc, &scene, clients)?;
    let notes = bytes_of(alloc, &frames_line(&report))?;
    Ok(Output { picture, notes })
}

/// Writes the scene of so many clients, 1 to 32, to the picture, and to the notes how many frames run in it and stand.
pub fn obey_make<P: Sink, N: Sink>(
    alloc: Global,
    clients: u32,
    picture: &mut P,
    notes: &mut N,
) -> Status
    requires { IsWithin 1 32 clients }
    ensures ran { Runs GivesMade result clients
        (record { held = P.held picture.old; holds = P.held picture.new; before = P.faults picture.old; now = P.faults picture.new })
        (record { held = N.held notes.old; holds = N.held notes.new; before = N.faults notes.old; now = N.faults notes.new }) }
    ensures later { N.faults notes.old ≤ N.faults notes.new }
    ensures unwritten { result ≡ Status.OutOfMemory → (picture.new ≡ picture.old) × (notes.new ≡ notes.old) }
    ensures decided { (Rose (P.faults picture.old) (P.faults picture.new) → ⊥) → (Rose (N.faults notes.old) (N.faults notes.new) → ⊥)
        → (result ≡ Status.Done) ⊎ (result ≡ Status.OutOfMemory) }
    ensures taken { AreTaken GivesMade (P.takes picture.old) (N.takes notes.old) clients → (result ≡ Status.Done) ⊎ (result ≡ Status.OutOfMemory) }
{
    match made_output_of(alloc, clients) {
        Ok(output) => write_output(&output, picture, notes),
        Err(_) => Status::OutOfMemory,
    }
}
