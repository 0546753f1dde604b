//! The word `ring N`: what the screen shows after a recording, drawn through a ring with room for N jobs, and what the ring
//! counts.

ghost use Rattle.std.specs.Prelude.{◌≡◌, ◌<◌, length};
ghost use Rattle.dri_base.specs.Limits.{word_end};
ghost use Rattle.dri_base.specs.Ranges.{InRange, IsWithin};
ghost use Rattle.dri_run.specs.Replays.{IsReplay};
ghost use Rattle.dri_run.specs.declared.form.Replaying.TheVariants.{Ring};

use crate::Status;
use crate::pictured::pictured;
use crate::recording::Recording;
use crate::report::ring_line;
use crate::writing::Output;
use dri_ring::replay_ring;
use std::alloc::Global;
use std::sync::Arc;

/// The screen after a recording, and the line of the jobs put, the waits and the most pending. The ring has room for 1 to 64
/// jobs. An `Err` is the status to end with.
pub fn ringed(alloc: Global, room: u32, recording: Recording) -> Result<Output, Status>
    requires scene { InRange recording.scene }
    requires few { length recording.journal < word_end }
    requires room { IsWithin 1 64 room }
    ensures { IsReplay (Ring room) result recording }
{
    let Recording { scene, journal } = recording;
    let Ok(scene) = Arc::new(alloc, scene) else {
        return Err(Status::OutOfMemory);
    };
    let ringed = replay_ring(alloc, &scene, journal.as_slice(), room)?;
    let line = ring_line(ringed.puts, ringed.idles, ringed.most);
    let output = pictured(alloc, &ringed.picture, &line)?;
    Ok(output)
}
