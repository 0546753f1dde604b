//! Playing: the items are put in the place of the scene's schedule, which is what tells whether they may be taken, and a world takes
//! them one after another.

ghost use Rattle.std.specs.Prelude.{◌≡◌, [], IfOk, OnOk};
ghost use Rattle.std.specs.declared.option.Option.{Option};
ghost use Rattle.dri_base.specs.declared.journal.Event.{Event};
ghost use Rattle.std.specs.Arc.{arc_value};
ghost use Rattle.dri_base.specs.Ranges.{InRange};
ghost use Rattle.dri_core.specs.Cores.{opening_core};
ghost use Rattle.dri_core.specs.Turns.{item_event, one_event, played};
ghost use Rattle.dri_play.specs.Plays.{IsPlayed, Plays, events_of, flag, passed_over, scheduled};
ghost use Rattle.dri_world.specs.Courses.{GoesOn, MayTake, core_of, turned};

use crate::fault::PlayFault;
use dri_base::{Bytes, Item, Items, OutOfMemory, Scene};
use dri_journal::print_journal;
use dri_ppm::ppm_bytes;
use dri_world::{Turned, World};
use std::alloc::Global;
use std::sync::Arc;

/// What playing leaves.
#[derive(Drop)]
pub struct Played {
    /// The lock word as a number.
    pub word: u32,
    /// How many events were made.
    pub events: usize,
    /// For each item, in order, 1 where it was passed over and 0 where it made an event.
    pub passed: Bytes,
    /// What the screen shows, in the P6 form.
    pub picture: Bytes,
    /// The journal's text.
    pub notes: Bytes,
}

/// 1 for what was passed over, 0 for what made an event.
fn flag_of(made: Turned) -> u8
    ensures { (event : Option Event) → made ≡ turned event → result ≡ flag event }
{
    match made {
        Turned::Did(_) => 0,
        Turned::Passed => 1,
    }
}

/// Takes an item, and tells whether it was passed over: 1, or 0 where it made an event.
fn take(alloc: Global, world: &mut World, item: Item) -> Result<u8, OutOfMemory>
    requires { MayTake world.old.scene item }
    ensures told { IfOk result (λ f. f ≡ flag (item_event world.old.scene (core_of world.old) item)) }
    ensures made { OnOk result (GoesOn world.old world.new (one_event (item_event world.old.scene (core_of world.old) item))) }
{
    let made = match item {
        Item::Turn { actor } => world.turn(alloc, actor)?,
        Item::Kill { client } => world.kill(alloc, client)?,
    };
    Ok(flag_of(made))
}

/// Takes the items of a scene's schedule from the opening on, and tells which were passed over.
fn take_all(alloc: Global, world: &mut World, scene: &Scene) -> Result<Bytes, OutOfMemory>
    requires opening { world.old ≡ record { scene = scene.now; events = [] } }
    requires range { InRange scene.now }
    ensures made { OnOk result (GoesOn world.old world.new (played scene.now (opening_core scene.now) scene.now.turns)) }
    ensures passed { IfOk result (λ p. p ≡ passed_over scene.now (opening_core scene.now) scene.now.turns) }
{
    let mut passed = Bytes::new(alloc);
    for i in 0..scene.turns.len() {
        let flag = take(alloc, world, *scene.turns.get(i))?;
        passed.push(flag)?;
    }
    Ok(passed)
}

/// What a world shows and tells, once these items were passed over.
fn shown(alloc: Global, world: &World, passed: Bytes) -> Result<Played, OutOfMemory>
    ensures { IfOk result (λ p. IsPlayed world.now.scene world.now.events passed p) }
{
    let picture = ppm_bytes(alloc, world.front())?;
    let notes = print_journal(alloc, world.journal())?;
    Ok(Played {
        word: world.word(),
        events: world.events().len(),
        passed,
        picture,
        notes,
    })
}

/// Plays a scene by its schedule, and no further.
fn play_schedule(alloc: Global, scene: Scene) -> Result<Played, OutOfMemory>
    requires { InRange scene }
    ensures { IfOk result (λ p. IsPlayed scene (events_of scene) (passed_over scene (opening_core scene) scene.turns) p) }
{
    let scene = Arc::new(alloc, scene)?;
    let mut world = World::new(alloc, scene.clone()?)?;
    let passed = take_all(alloc, &mut world, &scene)?;
    shown(alloc, &world, passed)
}

/// Plays a scene by these items, in place of its schedule, from the opening on, and no further. It is `OutOfRange` exactly where the
/// scene with the items as its schedule isn't in range.
pub fn play(alloc: Global, scene: Scene, items: Items) -> Result<Played, PlayFault>
    ensures { Plays result (scheduled scene items) }
{
    let mut scene = scene;
    scene.turns = items;
    if !scene.in_range() {
        return Err(PlayFault::OutOfRange);
    }
    match play_schedule(alloc, scene) {
        Ok(played) => Ok(played),
        Err(OutOfMemory) => Err(PlayFault::OutOfMemory),
    }
}
