//! Worlds played by items. A world can't be copied, so each is played from the opening on.

ghost use Rattle.std.specs.Prelude.{◌≡◌, All, IfOk, true};
ghost use Rattle.std.specs.Arc.{arc_value};
ghost use Rattle.dri_base.specs.Ranges.{InRange};
ghost use Rattle.dri_core.specs.Turns.{round};
ghost use Rattle.dri_explore.specs.Ends.{is_over};
ghost use Rattle.dri_explore.specs.Runs.{course_of};
ghost use Rattle.dri_world.specs.Courses.{MayTake};

use dri_base::{Items, OutOfMemory, Scene};
use dri_world::{Turned, World};
use std::alloc::Global;
use std::sync::Arc;

/// The world that these items leave, from the opening on.
pub(crate) fn replayed(
    alloc: Global,
    scene: &Arc<Scene, Global>,
    items: &Items,
) -> Result<World, OutOfMemory>
    requires in_range { InRange (arc_value scene.now) }
    requires may { All (MayTake (arc_value scene.now)) items.now }
    ensures { IfOk result (λ w. w ≡ course_of (arc_value scene.now) items.now) }
{
    let mut world = World::new(alloc, scene.clone()?)?;
    for i in 0..items.len() {
        world.take(alloc, *items.get(i))?;
    }
    Ok(world)
}

/// Whether a turn of each actor is passed over. Where it is so the world stays as it is.
pub(crate) fn is_over(alloc: Global, world: &mut World, turns: &Items) -> Result<bool, OutOfMemory>
    requires turns { turns.now ≡ round world.old.scene }
    requires may { All (MayTake world.old.scene) turns.now }
    ensures told { IfOk result (λ b. b ≡ is_over world.old.scene world.old.events) }
    ensures same { IfOk result (λ b. b ≡ true → world.new ≡ world.old) }
{
    for i in 0..turns.len() {
        match world.take(alloc, *turns.get(i))? {
            Turned::Did(_) => return Ok(false),
            Turned::Passed => {}
        }
    }
    Ok(true)
}
