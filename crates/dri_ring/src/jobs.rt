//! The jobs of a client that draws, made of what a replay tells of it after the entries that it took.

ghost use Rattle.std.specs.Prelude.{◌≡◌, Contains, IfOk};
ghost use Rattle.dri_base.specs.Ranges.{client_numbers};
ghost use Rattle.dri_base.specs.declared.shape.Rect.{Rect};
ghost use Rattle.dri_ring.specs.Follows.{AreClipsNow, IsTriangleJob};

use crate::job::Job;
use dri_base::{OutOfMemory, Steps, Triangle};
use dri_journal::Replay;
use dri_meaning::{registers_alone, texture_bound};
use dri_rect::Region;
use dri_replay::state_words;
use std::alloc::Global;
use std::marker::Brand;
use std::sync::ledger::{Blank, Ledger};

/// The pixels at which the window of a client of the scene shows, as a set of its own.
pub fn clips_of(alloc: Global, replay: &Replay<'_>, client: u32) -> Result<Region, OutOfMemory>
    requires { Contains (client_numbers replay.now.scene.clients) client }
    ensures { IfOk result (AreClipsNow replay.now client) }
{
    copy_of::<Brand>(Blank::new(1), alloc, replay.clips(client))
}

// The same set once more. The steps are counted from the blank on.
fn copy_of<L: Ledger>(blank: Blank, alloc: Global, clips: &Region) -> Result<Region, OutOfMemory>
    requires name { blank.name ≡ L.name }
    requires parts { blank.parts ≡ L.parts }
    requires one { L.parts ≡ 1 }
    ensures { IfOk result (λ copy. copy ≡ clips.now) }
{
    let mut steps = Steps::<L>::new(blank);
    clips.copy(alloc, &mut steps)
}

/// A triangle of a client, in its window's clips, with its window's corner, and with the words of its own state. The texture
/// that is bound begins the card's memory.
pub fn triangle_job(
    alloc: Global,
    replay: &Replay<'_>,
    client: u32,
    triangle: &Triangle,
) -> Result<Job, OutOfMemory>
    requires { Contains (client_numbers replay.now.scene.clients) client }
    ensures { IfOk result (IsTriangleJob replay.now client triangle.now) }
{
    let clips = clips_of(alloc, replay, client)?;
    let state = replay.state(client);
    let image = texture_bound(replay.script(client).textures.as_slice(), state.bound);
    let bound = registers_alone(&state, image).bound;
    Ok(Job::Draw {
        clips,
        origin: replay.origin(client),
        words: state_words(&state, bound),
        client,
        texture: state.bound,
        triangle: *triangle,
    })
}
