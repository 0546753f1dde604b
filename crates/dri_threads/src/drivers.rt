//! The clients of a scene, as a run begins.

ghost use Rattle.std.specs.Prelude.{IfOk};
ghost use Rattle.std.specs.Arc.{arc_value};
ghost use Rattle.dri_base.specs.Ranges.{InRange, client_numbers};
ghost use Rattle.dri_driver.specs.Opening.{AreOpening};

use dri_base::{OutOfMemory, Scene, Sequence};
use dri_driver::{Client, clients_of};
use std::alloc::Global;
use std::sync::Arc;

/// The clients that are to run, by rising number.
pub type Drivers = Sequence<Client>;

/// Each client of a scene in range, in the scene's order, as `Client::new` makes it.
pub fn drivers_of(alloc: Global, scene: &Arc<Scene, Global>) -> Result<Drivers, OutOfMemory>
    requires { InRange (arc_value scene.now) }
    ensures { IfOk result (AreOpening (arc_value scene.now) (client_numbers (arc_value scene.now).clients)) }
{
    let clients = clients_of(alloc, scene)?;
    Ok(Drivers::from_vec(clients))
}
