//! The word `check`: whether a recording's journal is a run of its scene, as a line.

ghost use Rattle.std.specs.Prelude.{◌≡◌, ◌<◌, List, length};
ghost use Rattle.dri_base.specs.Limits.{word_end};
ghost use Rattle.dri_base.specs.Ranges.{InRange};
ghost use Rattle.dri_base.specs.declared.journal.Event.{Event};
ghost use Rattle.dri_base.specs.declared.scene.Scene.{Scene};
ghost use Rattle.dri_core.specs.Cores.{journal_of};
ghost use Rattle.dri_core.specs.Runs.{HoldRun, Whole};
ghost use Rattle.dri_run.specs.Replays.{IsReplay};
ghost use Rattle.dri_run.specs.ScheduledRun.{IsRunOf};
ghost use Rattle.dri_run.specs.declared.form.Replaying.TheVariants.{Check};

use crate::Status;
use crate::recording::Recording;
use crate::report::{bytes_of, report_line};
use crate::writing::Output;
use dri_base::Bytes;
use dri_journal::{CheckFault, check};
use std::alloc::Global;

/// What `turns` writes is a run for `check`: the journal of a scene's run by its schedule and rounds is a hold-run of the
/// scene, and whole. It does nothing: its contract is the law.
pub fn turns_are_accepted()
    ensures run { (scene : Scene) (events : List Event) → InRange scene → IsRunOf scene events → HoldRun scene (journal_of events) }
    ensures whole { (scene : Scene) (events : List Event) → InRange scene → IsRunOf scene events → Whole scene (journal_of events) }
{}

/// The line of a recording's report, and no notes. An `Err` is the status to end with.
pub fn report_of(alloc: Global, recording: &Recording) -> Result<Output, Status>
    requires scene { InRange recording.now.scene }
    requires few { length recording.now.journal < word_end }
    ensures { IsReplay Check result recording.now }
{
    let report = match check(alloc, &recording.scene, recording.journal.as_slice()) {
        Ok(report) => report,
        Err(CheckFault::NotARun { entry }) => return Err(Status::NotARun { entry }),
        Err(CheckFault::OutOfMemory) => return Err(Status::OutOfMemory),
    };
    let picture = bytes_of(alloc, &report_line(&report))?;
    Ok(Output {
        picture,
        notes: Bytes::new(alloc),
    })
}
