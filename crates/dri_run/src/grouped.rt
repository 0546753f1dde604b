//! The word `many`: a scene with groups of its clients, as text and as it runs. In the text the groups stand behind the scene's
//! `done` line; bytes and lines count over both.

ghost use Rattle.std.specs.Prelude.{◌≡◌, IfOk};
ghost use Rattle.dri_base.specs.Ranges.{InRange};
ghost use Rattle.dri_many.specs.Groupings.{AreGroupings};
ghost use Rattle.dri_run.specs.GroupedRun.{GivesGrouped, grouped_scenes, refusal_of_groups};

use crate::Status;
use crate::obeying::Running;
use crate::output::{plain, screen_of};
use crate::reading::{MOST_BEHIND, Text, refusal};
use crate::writing::Output;
use dri_base::{OutOfMemory, Scene};
use dri_core::plain_in_range;
use dri_many::{GroupFault, Groupings, read_groups};
use dri_scene::read_scene_part;
use dri_world::run_groups;
use std::alloc::Global;
use std::sync::Arc;

/// A scene, and groups of its clients.
#[derive(Drop)]
pub struct GroupedScene {
    pub scene: Scene,
    pub groups: Groupings,
}

/// The status for a text that has no groups.
fn refusal_of_groups(fault: GroupFault) -> Status
    ensures { result ≡ refusal_of_groups fault }
{
    match fault {
        GroupFault::Refused { line, reason } => Status::Refused { line, reason },
        GroupFault::OutOfMemory => Status::OutOfMemory,
    }
}

impl Text for GroupedScene {
    ghost kind = { grouped_scenes };

    ghost is_known = { λ grouped. AreGroupings grouped.scene grouped.groups };

    fn most() -> usize {
        MOST_BEHIND
    }

    fn spelled(alloc: Global, bytes: &[u8]) -> Result<GroupedScene, Status> {
        let (scene, part) = match read_scene_part(alloc, bytes) {
            Ok(begun) => begun,
            Err(fault) => return Err(refusal(fault)),
        };
        let (_, rest) = bytes.split_at(part.bytes as usize);
        match read_groups(alloc, rest, &scene, part.lines + 1) {
            Ok(groups) => Ok(GroupedScene { scene, groups }),
            Err(fault) => Err(refusal_of_groups(fault)),
        }
    }
}

/// In rounds of groups, without the scene's schedule.
#[derive(Clone, Copy)]
pub struct InGroups;

impl Running for InGroups {
    type Input = GroupedScene;

    ghost gives = { λ _ grouped image text. GivesGrouped grouped image text };

    fn output_of(&self, alloc: Global, input: GroupedScene) -> Result<Output, OutOfMemory> {
        let GroupedScene { scene, groups } = input;
        plain_in_range();
        let scene = Arc::new(alloc, plain(alloc, scene))?;
        let world = run_groups(alloc, scene, &groups)?;
        // What holds of the world's events is told by this call alone.
        let _events = world.events();
        let output = screen_of(alloc, world.front(), world.journal())?;
        Ok(output)
    }
}
