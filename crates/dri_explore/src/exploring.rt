//! The walk over the levels. The ends of each level are noted before the next one takes its place.

ghost use Rattle.std.specs.Prelude.{◌≡◌, ◌+◌, IfOk, OnOk};
ghost use Rattle.std.specs.Arc.{arc_value};
ghost use Rattle.dri_base.specs.Ranges.{InRange};
ghost use Rattle.dri_core.specs.Turns.{round};
ghost use Rattle.dri_explore.specs.Ends.{Explores};
ghost use Rattle.dri_explore.specs.Gathering.{IsFound, TellsCut};
ghost use Rattle.dri_explore.specs.Levels.{IsLevel};

use crate::choices::{choices_of, turns_of};
use crate::ends::Ends;
use crate::fault::ExploreFault;
use crate::level::Level;
use crate::playing::{is_over, replayed};
use dri_base::{Items, OutOfMemory, Scene};
use std::alloc::Global;
use std::sync::Arc;

/// All ends of a scene's runs of at most `most` events, by whatever turns they come. The schedule isn't looked at but for its
/// kills, which may come at any time. A run is complete, and has an end, where a turn of each actor would be passed over. It
/// is `TooMany` only where more than `limit` runs of one number of events leave different journals or cores.
pub fn all_ends(
    alloc: Global,
    scene: &Arc<Scene, Global>,
    most: u32,
    limit: usize,
) -> Result<Ends, ExploreFault>
    requires { InRange (arc_value scene.now) }
    ensures { Explores result (arc_value scene.now) most limit }
{
    let turns = turns_of(alloc, scene)?;
    let choices = choices_of(alloc, scene)?;
    let mut found = Ends::new(alloc);
    let mut level = Level::opening(alloc, scene)?;
    while level.made < most && !level.nodes.is_empty() {
        gather(alloc, scene, &turns, &level, &mut found)?;
        let Some(next) = level.next(alloc, scene, &choices, limit)? else {
            return Err(ExploreFault::TooMany);
        };
        level = next;
    }
    found.cut = gather(alloc, scene, &turns, &level, &mut found)?;
    Ok(found)
}

/// Notes the ends of a level's complete runs, and tells whether some run of it isn't complete.
fn gather(
    alloc: Global,
    scene: &Arc<Scene, Global>,
    turns: &Items,
    level: &Level,
    found: &mut Ends,
) -> Result<bool, OutOfMemory>
    requires in_range { InRange (arc_value scene.now) }
    requires turns { turns.now ≡ round (arc_value scene.now) }
    requires level { IsLevel (arc_value scene.now) level.now }
    requires found { IsFound (arc_value scene.now) level.now.made found.old }
    ensures found { OnOk result (IsFound (arc_value scene.now) (level.now.made + 1) found.new) }
    ensures cut { IfOk result (TellsCut (arc_value scene.now) level.now.made) }
{
    let mut cut = false;
    for i in 0..level.nodes.len() {
        let mut world = replayed(alloc, scene, &level.nodes.get(i).items)?;
        if is_over(alloc, &mut world, turns)? {
            found.note(alloc, &world)?;
        } else {
            cut = true;
        }
    }
    Ok(cut)
}
