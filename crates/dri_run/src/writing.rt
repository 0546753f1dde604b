//! What is written: the picture whole, then the notes, and then, for a status other than `Done`, the status's line.

ghost use Rattle.std.specs.Prelude.{◌≡◌, ◌≤◌, ℕ, length};
ghost use Rattle.dri_run.specs.Gains.{Gains, GainsAll, Sunk, Written};
ghost use Rattle.dri_run.specs.Notices.{line_of};

use crate::Status;
use crate::notice::line_of;
use dri_base::Bytes;
use dri_io::{Sink, write_all};

/// What a run has to write.
#[derive(Drop)]
pub struct Output {
    pub picture: Bytes,
    pub notes: Bytes,
}

/// Writes the picture's bytes whole, and then those of the notes.
pub fn write<P: Sink, N: Sink>(image: &[u8], text: &[u8], picture: &mut P, notes: &mut N) -> Status
    ensures written { Written result
        (record { held = P.held picture.old; holds = P.held picture.new; before = P.faults picture.old; now = P.faults picture.new })
        (record { held = N.held notes.old; holds = N.held notes.new; before = N.faults notes.old; now = N.faults notes.new })
        image.now text.now }
    ensures later { N.faults notes.old ≤ N.faults notes.new }
    ensures taken { P.takes picture.old (length image.now) → N.takes notes.old (length text.now) → result ≡ Status.Done }
{
    if write_all(picture, image).is_err() {
        return Status::WriteFault;
    }
    match write_all(notes, text) {
        Ok(()) => Status::Done,
        Err(_) => Status::WriteFault,
    }
}

/// Writes what a run has to write.
pub fn write_output<P: Sink, N: Sink>(output: &Output, picture: &mut P, notes: &mut N) -> Status
    ensures written { Written result
        (record { held = P.held picture.old; holds = P.held picture.new; before = P.faults picture.old; now = P.faults picture.new })
        (record { held = N.held notes.old; holds = N.held notes.new; before = N.faults notes.old; now = N.faults notes.new })
        output.now.picture output.now.notes }
    ensures later { N.faults notes.old ≤ N.faults notes.new }
    ensures taken { P.takes picture.old (length output.now.picture) → N.takes notes.old (length output.now.notes) → result ≡ Status.Done }
{
    write(
        output.picture.as_slice(),
        output.notes.as_slice(),
        picture,
        notes,
    )
}

/// Writes a status's line to the notes. A fault in writing it changes nothing.
pub fn tell<N: Sink>(status: Status, notes: &mut N)
    ensures gains { Gains (record { held = N.held notes.old; holds = N.held notes.new; before = N.faults notes.old; now = N.faults notes.new }) (line_of status) }
    ensures later { N.faults notes.old ≤ N.faults notes.new }
    ensures taken { (n : ℕ) → length (line_of status) ≤ n → N.takes notes.old n
        → GainsAll (record { held = N.held notes.old; holds = N.held notes.new; before = N.faults notes.old; now = N.faults notes.new }) (line_of status) }
{
    let line = line_of(status);
    let _ = write_all(notes, line.as_str().as_bytes());
}
