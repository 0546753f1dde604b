//! The word `events`: the lines of the items of a scene's schedule, and of the rounds behind it.

ghost use Rattle.std.specs.Prelude.{◌≡◌, [], All, IfOk, OnOk};
ghost use Rattle.std.specs.Arc.{arc_value};
ghost use Rattle.dri_base.specs.Ranges.{InRange};
ghost use Rattle.dri_core.specs.Turns.{item_event, one_event, played, round};
ghost use Rattle.dri_lab_run.specs.EventLines.{GivesEvents, PutRounds, RefusesNone, item_line, item_lines};
ghost use Rattle.dri_lab_run.specs.Outcome.{Makes};
ghost use Rattle.dri_scene.specs.Texts.{Adds};
ghost use Rattle.dri_world.specs.Courses.{GoesOn, MayTake, core_of};

use crate::LabStatus;
use crate::event_line::push_item_line;
use dri_base::{Bytes, Item, Items, OutOfMemory, Scene};
use dri_run::Output;
use dri_world::World;
use std::alloc::Global;
use std::sync::Arc;

/// The server, as an actor.
const SERVER: u32 = 0;

/// One turn each: of the clients as they stand, and then of the server.
fn round_of(alloc: Global, scene: &Scene) -> Result<Items, OutOfMemory>
    ensures { IfOk result (λ items. items ≡ round scene.now) }
{
    let mut items = Items::new(alloc);
    for client in scene.clients.as_slice() {
        items.push(Item::Turn {
            actor: client.number,
        })?;
    }
    items.push(Item::Turn { actor: SERVER })?;
    Ok(items)
}

/// Takes an item, and puts its line.
fn take_item(
    alloc: Global,
    world: &mut World,
    item: Item,
    text: &mut Vec<u8>,
) -> Result<(), OutOfMemory>
    requires { MayTake world.old.scene item }
    ensures made { OnOk result (GoesOn world.old world.new (one_event (item_event world.old.scene (core_of world.old) item))) }
    ensures line { OnOk result (Adds text.old.items (item_line world.old.scene (core_of world.old) item) text.new.items) }
{
    let made = world.take(alloc, item)?;
    push_item_line(text, &item, &made, world)?;
    Ok(())
}

/// Takes items one after another, and puts their lines.
fn take_items(
    alloc: Global,
    world: &mut World,
    items: &[Item],
    text: &mut Vec<u8>,
) -> Result<(), OutOfMemory>
    requires { All (MayTake world.old.scene) items.now }
    ensures made { OnOk result (GoesOn world.old world.new (played world.old.scene (core_of world.old) items.now)) }
    ensures lines { OnOk result (Adds text.old.items (item_lines world.old.scene (core_of world.old) items.now) text.new.items) }
{
    for item in items {
        take_item(alloc, world, *item, text)?;
    }
    Ok(())
}

/// Takes rounds, and puts the lines of those up to the last that makes an event. Each of these takes memory, so they end.
fn take_rounds(
    alloc: Global,
    world: &mut World,
    turns: &[Item],
    text: &mut Vec<u8>,
) -> Result<(), OutOfMemory>
    requires { turns.now ≡ round world.old.scene }
    ensures { OnOk result (PutRounds world.old.scene (core_of world.old) text.old.items text.new.items) }
{
    for _taken in 0..u64::MAX {
        let made = world.events().len();
        let mut lines = Vec::new(alloc);
        take_items(alloc, world, turns, &mut lines)?;
        if world.events().len() == made {
            return Ok(());
        }
        text.extend_from_slice(lines.as_slice())?;
    }
    Err(OutOfMemory)
}

/// The lines of a scene's items.
fn lines_of(alloc: Global, scene: Scene) -> Result<Bytes, OutOfMemory>
    requires { InRange scene }
    ensures { IfOk result (λ lines. GivesEvents scene lines []) }
{
    let scene = Arc::new(alloc, scene)?;
    let mut world = World::new(alloc, scene.clone()?)?;
    let mut text = Vec::new(alloc);
    let turns = round_of(alloc, &scene)?;
    take_items(alloc, &mut world, scene.turns.as_slice(), &mut text)?;
    take_rounds(alloc, &mut world, turns.as_slice(), &mut text)?;
    Ok(Bytes::from_vec(text))
}

/// What the word gives of a scene. An `Err` is the status to end with.
pub fn scene_events(alloc: Global, scene: Scene) -> Result<Output, LabStatus>
    requires { InRange scene }
    ensures { Makes GivesEvents RefusesNone result scene }
{
    let picture = lines_of(alloc, scene)?;
    let notes = Bytes::new(alloc);
    Ok(Output { picture, notes })
}
