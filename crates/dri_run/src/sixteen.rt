//! The word `card16`: what the screen shows after a recording, drawn by the card that keeps colours in sixteen bits and draws lines.

ghost use Rattle.std.specs.Prelude.{◌≡◌, ◌<◌, length};
ghost use Rattle.dri_base.specs.Limits.{word_end};
ghost use Rattle.dri_base.specs.Ranges.{InRange};
ghost use Rattle.dri_run.specs.Replays.{IsReplay};
ghost use Rattle.dri_run.specs.declared.form.Replaying.TheVariants.{Sixteen};

use crate::Status;
use crate::recording::Recording;
use crate::writing::Output;
use dri_base::Bytes;
use dri_card16::replay16;
use dri_ppm::picture_bytes;
use std::alloc::Global;

/// The screen after a recording, and no notes. An `Err` is the status to end with.
pub fn sixteen(alloc: Global, recording: &Recording) -> Result<Output, Status>
    requires scene { InRange recording.now.scene }
    requires few { length recording.now.journal < word_end }
    ensures { IsReplay Sixteen result recording.now }
{
    let shown = replay16(alloc, &recording.scene, recording.journal.as_slice())?;
    let picture = picture_bytes(alloc, &shown)?;
    Ok(Output {
        picture,
        notes: Bytes::new(alloc),
    })
}
