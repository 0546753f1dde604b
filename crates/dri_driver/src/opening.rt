//! The clients of a scene before anything happened.

ghost use Rattle.std.specs.Prelude.{IfOk};
ghost use Rattle.std.specs.Arc.{arc_value};
ghost use Rattle.dri_base.specs.Ranges.{InRange, client_numbers};
ghost use Rattle.dri_driver.specs.Opening.{AreOpening};

use crate::client::Client;
use dri_base::{OutOfMemory, Scene};
use std::alloc::Global;
use std::sync::Arc;

/// A client for each script of a scene in range, in the scripts' order, which is that of their numbers. Each is as the run
/// begins.
pub fn clients_of(alloc: Global, scene: &Arc<Scene, Global>) -> Result<Vec<Client>, OutOfMemory>
    requires { InRange (arc_value scene.now) }
    ensures { IfOk result (λ ks. AreOpening (arc_value scene.now) (client_numbers (arc_value scene.now).clients) ks.items) }
{
    let mut clients = Vec::with_capacity(alloc, scene.clients.len())?;
    for i in 0..scene.clients.len() {
        let number = scene.clients.get(i).number;
        let client = Client::new(alloc, scene.clone()?, number)?;
        clients.push_reserved(client);
    }
    Ok(clients)
}
