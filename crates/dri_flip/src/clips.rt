//! A client's clips, as the card takes them.

ghost use Rattle.std.specs.Prelude.{◌≡◌, Contains, IfOk};
ghost use Rattle.dri_base.specs.Ranges.{client_numbers};
ghost use Rattle.dri_flip.specs.Follows.{AreRectsOf};
ghost use Rattle.dri_replay.specs.Makings.{clips_now};

use dri_base::{ClipRect, OutOfMemory};
use dri_clips::clip_rect;
use dri_journal::Replay;
use std::alloc::Global;

/// The rectangles of the pixels at which the window of a client of the scene shows, after the entries taken.
pub fn clips_of(
    alloc: Global,
    replay: &Replay<'_>,
    client: u32,
) -> Result<Vec<ClipRect>, OutOfMemory>
    requires { Contains (client_numbers replay.now.scene.clients) client }
    ensures { IfOk result (λ rects. AreRectsOf replay.now.scene.width replay.now.scene.height (clips_now replay.now client) rects.items) }
{
    replay.entries();
    let clips = replay.clips(client);
    clips.arranged();
    let mut rects = Vec::with_capacity(alloc, clips.len())?;
    for i in 0..clips.len() {
        rects.push(clip_rect(&clips.rect(i)))?;
    }
    Ok(rects)
}
