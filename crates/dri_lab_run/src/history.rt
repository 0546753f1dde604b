//! The word `pixel X Y`: what touched a place of the screen by a recording's journal.

ghost use Rattle.std.specs.Prelude.{◌<◌, length};
ghost use Rattle.dri_base.specs.Limits.{word_end};
ghost use Rattle.dri_base.specs.Ranges.{InRange};
ghost use Rattle.dri_lab_run.specs.Outcome.{Makes};
ghost use Rattle.dri_lab_run.specs.PlaceHistory.{GivesHistory, RefusesHistory};

use crate::LabStatus;
use crate::touch_line::touch_lines;
use dri_base::Bytes;
use dri_history::pixel_history;
use dri_run::{Output, Recording};
use std::alloc::Global;

/// The lines of a place's touches. An `Err` is the status to end with.
pub fn place_history(
    alloc: Global,
    x: u32,
    y: u32,
    recording: &Recording,
) -> Result<Output, LabStatus>
    requires scene { InRange recording.now.scene }
    requires few { length recording.now.journal < word_end }
    ensures { Makes (GivesHistory x y) (RefusesHistory x y) result recording.now }
{
    let scene = &recording.scene;
    let (width, height) = (scene.width, scene.height);
    if width <= x || height <= y {
        return Err(LabStatus::NoPlace { width, height });
    }
    let touches = pixel_history(alloc, scene, recording.journal.as_slice(), x, y)?;
    let picture = touch_lines(alloc, touches.as_slice())?;
    let notes = Bytes::new(alloc);
    Ok(Output { picture, notes })
}
