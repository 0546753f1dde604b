//! The line that is written to the notes for a status other than `Done`. It is built in a buffer of fixed size, so it
//! takes no memory.

ghost use Rattle.std.specs.Prelude.{◌≡◌, ◌≤◌, ◌++◌, ℕ, length, decimal, codes};
ghost use Rattle.dri_run.specs.Gains.{Gains, GainsAll, Sunk};
ghost use Rattle.dri_lab_run.specs.Notices.{common_line, line_of};

use crate::LabStatus;
use dri_io::{Sink, write_all};
use dri_run::{Notice, Status, push_number};

/// The line of the words.
fn usage() -> Notice
    ensures { result.bytes ≡ codes "dri: usage: after E | pixel X Y | events | all N\n" }
{
    let mut notice = Notice::new();
    notice.push_str("dri: usage: after E | pixel X Y | events | all N\n");
    notice
}

/// The line of a status that the program's top calls end with too.
fn common_line(status: Status) -> Notice
    ensures { result.bytes ≡ common_line status }
{
    match status {
        Status::Usage => usage(),
        Status::Done
        | Status::Refused { .. }
        | Status::TooLong
        | Status::ReadFault
        | Status::WriteFault
        | Status::NotARun { .. }
        | Status::OutOfMemory => dri_run::line_of(status),
    }
}

/// The line of a journal that has so many entries, which are too few.
fn no_entry(entries: u32) -> Notice
    ensures { result.bytes ≡ codes "dri: no such entry: the journal has " ++ (decimal entries ++ codes "\n") }
{
    let mut notice = Notice::new();
    notice.push_str("dri: no such entry: the journal has ");
    push_number(&mut notice, entries);
    notice.push_str("\n");
    notice
}

/// The line of a place outside a screen with these sides.
fn no_place(width: u32, height: u32) -> Notice
    ensures { result.bytes ≡ codes "dri: no such place: the screen is " ++ (decimal width ++ (codes " by " ++ (decimal height ++ codes "\n"))) }
{
    let mut notice = Notice::new();
    notice.push_str("dri: no such place: the screen is ");
    push_number(&mut notice, width);
    notice.push_str(" by ");
    push_number(&mut notice, height);
    notice.push_str("\n");
    notice
}

/// The line of a scene with too many runs.
fn too_many() -> Notice
    ensures { result.bytes ≡ codes "dri: too many runs\n" }
{
    let mut notice = Notice::new();
    notice.push_str("dri: too many runs\n");
    notice
}

/// The line of a status: empty for `Done`.
pub fn line_of(status: LabStatus) -> Notice
    ensures { result.bytes ≡ line_of status }
{
    match status {
        LabStatus::Common(status) => common_line(status),
        LabStatus::NoEntry { entries } => no_entry(entries),
        LabStatus::NoPlace { width, height } => no_place(width, height),
        LabStatus::TooMany => too_many(),
    }
}

/// Writes a status's line to the notes. A fault in writing it changes nothing.
pub fn tell<N: Sink>(status: LabStatus, notes: &mut N)
    ensures gains { Gains (record { held = N.held notes.old; holds = N.held notes.new; before = N.faults notes.old; now = N.faults notes.new }) (line_of status) }
    ensures later { N.faults notes.old ≤ N.faults notes.new }
    ensures taken { (n : ℕ) → length (line_of status) ≤ n → N.takes notes.old n
        → GainsAll (record { held = N.held notes.old; holds = N.held notes.new; before = N.faults notes.old; now = N.faults notes.new }) (line_of status) }
{
    let line = line_of(status);
    let _ = write_all(notes, line.as_str().as_bytes());
}
