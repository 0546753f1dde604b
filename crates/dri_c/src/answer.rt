//! How a call ended, as C is told it.

ghost use Rattle.std.specs.Prelude.{◌≡◌};
ghost use Rattle.dri_c.specs.Told.{IsTold, entry_in, line_in, reason_in, reason_number, status_in};

use crate::buffer::{has_room, put};
use dri_run::Status;
use dri_words::Reason;

/// How a call ended. In C it is `struct dri_answer`, and its fields have this order.
#[repr(C)]
#[derive(Drop)]
pub struct Answer {
    /// The status's number, 0 to 7, as the program ends with it; 5 where a buffer had no room for what was done.
    pub status: u32,
    /// For status 2 the refused line, counted from 1, or 0 where it is no line of the text; else 0.
    pub line: u32,
    /// For status 2 the number of the reason, 1 to 9; else 0.
    pub reason: u32,
    /// For status 6 the first entry that isn't legal, counted from 1; else 0.
    pub entry: u32,
    /// How many bytes were put at the picture's begin: all that are needed, or none.
    pub picture_written: u64,
    /// How many bytes were put at the begin of the notes: all that are needed, or none.
    pub notes_written: u64,
    /// How many bytes the picture needs.
    pub picture_needed: u64,
    /// How many bytes the notes need.
    pub notes_needed: u64,
}

/// The number of a reason.
fn reason_number(reason: Reason) -> u32
    ensures { result ≡ reason_number reason }
{
    match reason {
        Reason::Shape => 1,
        Reason::Range => 2,
        Reason::Unknown => 3,
        Reason::Twice => 4,
        Reason::Order => 5,
        Reason::Limit => 6,
        Reason::Heap => 7,
        Reason::Ended => 8,
        Reason::Frame => 9,
    }
}

/// The refused line of a status and the number of its reason, or 0 and 0.
fn refusal_in(status: Status) -> (u32, u32)
    ensures line { result.0 ≡ line_in status }
    ensures reason { result.1 ≡ reason_in status }
{
    match status {
        Status::Refused { line, reason } => (line, reason_number(reason)),
        _ => (0, 0),
    }
}

/// The entry of a status, or 0.
fn entry_in(status: Status) -> u32
    ensures { result ≡ entry_in status }
{
    match status {
        Status::NotARun { entry } => entry,
        _ => 0,
    }
}

/// The status where the buffers have room or not.
fn status_in(status: Status, image: &[u8], text: &[u8], picture: &[u8], notes: &[u8]) -> Status
    ensures { result ≡ status_in status image.now text.now picture.now notes.now }
{
    if status == Status::Done && !(has_room(image, picture) && has_room(text, notes)) {
        return Status::WriteFault;
    }
    status
}

/// Tells C how a call ended, and puts the image into the picture and the text into the notes, each where it has room for all
/// of it; else it stays. What was done has the status `WriteFault` where one of them has no room.
pub fn give(
    status: Status,
    image: &[u8],
    text: &[u8],
    picture: &mut [u8],
    notes: &mut [u8],
    answer: &mut Answer,
)
    ensures { IsTold status image.now text.now picture.old picture.new notes.old notes.new answer.new }
{
    let ended = status_in(status, image, text, picture, notes);
    let (line, reason) = refusal_in(status);
    *answer = Answer {
        status: u32::from(ended.code()),
        line,
        reason,
        entry: entry_in(status),
        picture_written: put(image, picture),
        notes_written: put(text, notes),
        picture_needed: image.len() as u64,
        notes_needed: text.len() as u64,
    };
}
