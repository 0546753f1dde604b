//! The word `flip`: what the screen shows after a recording, drawn by the card that flips, and how often it flipped and copied.

ghost use Rattle.std.specs.Prelude.{◌≡◌, ◌<◌, length};
ghost use Rattle.dri_base.specs.Limits.{word_end};
ghost use Rattle.dri_base.specs.Ranges.{InRange};
ghost use Rattle.dri_run.specs.Replays.{IsReplay};
ghost use Rattle.dri_run.specs.declared.form.Replaying.TheVariants.{Flip};

use crate::Status;
use crate::pictured::pictured;
use crate::recording::Recording;
use crate::report::flip_line;
use crate::writing::Output;
use dri_flip::replay_flip;
use std::alloc::Global;

/// The screen after a recording, and the line of its flips and copies. An `Err` is the status to end with.
pub fn flipped(alloc: Global, recording: &Recording) -> Result<Output, Status>
    requires scene { InRange recording.now.scene }
    requires few { length recording.now.journal < word_end }
    ensures { IsReplay Flip result recording.now }
{
    let shown = replay_flip(alloc, &recording.scene, recording.journal.as_slice())?;
    let line = flip_line(shown.flips, shown.copies);
    let output = pictured(alloc, &shown.picture, &line)?;
    Ok(output)
}
