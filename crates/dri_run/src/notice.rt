//! The line that is written to the notes for a status other than `Done`. It is built in a buffer of fixed size, so it
//! takes no memory.

ghost use Rattle.std.specs.Prelude.{◌≡◌, ◌≤◌, ◌+◌, ◌++◌, ◌≢◌, length, decimal, codes};
ghost use Rattle.arrayvec.specs.ArrayString.{array_string_len};
ghost use Rattle.dri_run.specs.Notices.{line_of, reason_word};

use crate::Status;
use arrayvec::ArrayString;
use dri_words::Reason;
use itoa::Buffer;

/// A line of at most 128 bytes.
pub type Notice = ArrayString<128>;

/// The word for a reason.
fn word_of(reason: Reason) -> &'static str
    ensures value { result.now ≡ reason_word reason }
    ensures short { length result.now ≤ 8 }
{
    match reason {
        Reason::Shape => "shape",
        Reason::Range => "range",
        Reason::Unknown => "unknown",
        Reason::Twice => "twice",
        Reason::Order => "order",
        Reason::Limit => "limit",
        Reason::Heap => "heap",
        Reason::Ended => "ended",
        Reason::Frame => "frame",
    }
}

/// Puts a number last, for which there is room.
pub fn push_number<const N: usize>(line: &mut ArrayString<N>, number: u32)
    requires { array_string_len line.old + 40 ≤ N }
    ensures bytes { line.new.bytes ≡ line.old.bytes ++ decimal number }
    ensures room { array_string_len line.new ≤ array_string_len line.old + 40 }
{
    let mut digits = Buffer::new();
    line.push_str(digits.format(number));
}

/// The line of a refused text.
fn refusal(line: u32, reason: Reason) -> Notice
    ensures { result.bytes ≡ codes "dri: line " ++ (decimal line ++ (codes ": " ++ (reason_word reason ++ codes "\n"))) }
{
    let mut notice = Notice::new();
    notice.push_str("dri: line ");
    push_number(&mut notice, line);
    notice.push_str(": ");
    notice.push_str(word_of(reason));
    notice.push_str("\n");
    notice
}

/// The line of a journal that is no run.
fn not_a_run(entry: u32) -> Notice
    ensures { result.bytes ≡ codes "dri: not a run: entry " ++ (decimal entry ++ codes "\n") }
{
    let mut notice = Notice::new();
    notice.push_str("dri: not a run: entry ");
    push_number(&mut notice, entry);
    notice.push_str("\n");
    notice
}

/// A line that is the same each time.
fn fixed(line: &str) -> Notice
    requires { length line.now ≤ 100 }
    ensures { result.bytes ≡ line.now }
{
    let mut notice = Notice::new();
    notice.push_str(line);
    notice
}

/// The line of a status: empty for `Done`.
pub fn line_of(status: Status) -> Notice
    ensures { result.bytes ≡ line_of status }
{
    match status {
        Status::Done => fixed(""),
        Status::Usage => fixed(
            "dri: usage: turns | run | solo C K | check | make N | sarea | flip | ring N | many | card16\n",
        ),
        Status::Refused { line, reason } => refusal(line, reason),
        Status::TooLong => fixed("dri: too long\n"),
        Status::ReadFault => fixed("dri: read failed\n"),
        Status::WriteFault => fixed("dri: write failed\n"),
        Status::NotARun { entry } => not_a_run(entry),
        Status::OutOfMemory => fixed("dri: out of memory\n"),
    }
}
