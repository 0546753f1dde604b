//! What may come next in a run: a turn of each actor, or a kill that the schedule has.

ghost use Rattle.std.specs.Prelude.{◌≡◌, IfOk};
ghost use Rattle.dri_core.specs.Turns.{round};
ghost use Rattle.dri_explore.specs.Runs.{choices, is_kill};

use dri_base::{Item, Items, OutOfMemory, Scene};
use std::alloc::Global;

// The server's number as an actor.
const SERVER: u32 = 0;

/// A turn of each client, as they stand, and then one of the server.
pub(crate) fn turns_of(alloc: Global, scene: &Scene) -> Result<Items, OutOfMemory>
    ensures { IfOk result (λ items. items ≡ round scene.now) }
{
    let mut items = Items::new(alloc);
    for i in 0..scene.clients.len() {
        let actor = scene.clients.get(i).number;
        items.push(Item::Turn { actor })?;
    }
    items.push(Item::Turn { actor: SERVER })?;
    Ok(items)
}

/// The turns, and then each kill of the schedule.
pub(crate) fn choices_of(alloc: Global, scene: &Scene) -> Result<Items, OutOfMemory>
    ensures { IfOk result (λ items. items ≡ choices scene.now) }
{
    let mut items = turns_of(alloc, scene)?;
    for i in 0..scene.turns.len() {
        let item = *scene.turns.get(i);
        if is_kill(&item) {
            items.push(item)?;
        }
    }
    Ok(items)
}

/// Whether the item is a kill.
fn is_kill(item: &Item) -> bool
    ensures { result ≡ is_kill item.now }
{
    matches!(item, Item::Kill { .. })
}
