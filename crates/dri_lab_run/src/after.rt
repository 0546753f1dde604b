//! The word `after E`: the screen after the first E entries of a recording's journal.

ghost use Rattle.std.specs.Prelude.{◌<◌, length};
ghost use Rattle.dri_base.specs.Limits.{word_end};
ghost use Rattle.dri_base.specs.Ranges.{InRange};
ghost use Rattle.dri_lab_run.specs.Outcome.{Makes};
ghost use Rattle.dri_lab_run.specs.ScreenAfter.{GivesAfter, RefusesAfter};

use crate::LabStatus;
use dri_base::Bytes;
use dri_flip::replay_flip;
use dri_ppm::picture_bytes;
use dri_run::{Output, Recording};
use std::alloc::Global;

/// The screen after so many entries. An `Err` is the status to end with.
pub fn screen_after(alloc: Global, entries: u32, recording: &Recording) -> Result<Output, LabStatus>
    requires scene { InRange recording.now.scene }
    requires few { length recording.now.journal < word_end }
    ensures { Makes (GivesAfter entries) (RefusesAfter entries) result recording.now }
{
    let journal = recording.journal.as_slice();
    let count = journal.len() as u32;
    if count < entries {
        return Err(LabStatus::NoEntry { entries: count });
    }
    let (first, _) = journal.split_at(entries as usize);
    let shown = replay_flip(alloc, &recording.scene, first)?;
    let picture = picture_bytes(alloc, &shown.picture)?;
    let notes = Bytes::new(alloc);
    Ok(Output { picture, notes })
}
