//! The reader of a journal's text: one pass over the lines, up to the title, up to `done`, and to the end.

ghost use Rattle.std.specs.Prelude.{◌≡◌, ◌<◌, ◌≤◌, ◌+◌, length, IfOk, Err, MatchResult};
ghost use Rattle.std.specs.Str.{bytes_eq};
ghost use Rattle.dri_base.specs.Limits.{word_end};
ghost use Rattle.dri_journal.specs.Readings.{Gives, entries_from, journal_of_text, titled_from};
ghost use Rattle.dri_words.specs.Lines.{text_size};

use crate::entry::entry_of;
use crate::fault::JournalFault;
use dri_base::Entries;
use dri_words::{Parts, Reason, Refusal, is_passed_over, to_end};
use std::alloc::Global;

/// Whether a line is this one.
fn is_line(line: &[u8], wanted: &[u8]) -> bool
    ensures { result ≡ bytes_eq line.now wanted.now }
{
    line == wanted
}

/// Takes the lines up to the title and with it: the number of the line that follows.
fn up_to_title(lines: &mut Parts<'_>) -> Result<u32, Refusal>
    requires { text_size lines.old ≤ 4294967295 }
    ensures value { MatchResult result (λ next. titled_from 1 lines.old ≡ entries_from next lines.new) (λ refusal. titled_from 1 lines.old ≡ Err refusal) }
    ensures room { IfOk result (λ next. next + text_size lines.new ≤ 4294967296) }
{
    let mut number: u32 = 1;
    while let Some(line) = lines.next() {
        if lines.is_empty() {
            break;
        }
        if !is_passed_over(line) {
            if is_line(line, b"journal 1") {
                return Ok(number + 1);
            }
            return Err(Refusal {
                line: number,
                reason: Reason::Shape,
            });
        }
        number += 1;
    }
    Err(Refusal {
        line: number,
        reason: Reason::Ended,
    })
}

/// The entries up to `done`, and the end. The first line that is left has the number `first`.
fn entries_from(alloc: Global, mut lines: Parts<'_>, first: u32) -> Result<Entries, JournalFault>
    requires { first + text_size lines ≤ 4294967296 }
    ensures gives { Gives result (entries_from first lines.entry) }
    ensures few { IfOk result (λ entries. length entries < word_end) }
{
    let mut entries = Entries::new(alloc);
    let mut number = first;
    while let Some(line) = lines.next() {
        if lines.is_empty() {
            break;
        }
        if !is_passed_over(line) {
            if is_line(line, b"done") {
                to_end(lines, number + 1)?;
                return Ok(entries);
            }
            match entry_of(line) {
                Ok(entry) => entries.push(entry)?,
                Err(reason) => {
                    return Err(JournalFault::Refused {
                        line: number,
                        reason,
                    });
                }
            }
        }
        number += 1;
    }
    Err(JournalFault::Refused {
        line: number,
        reason: Reason::Ended,
    })
}

/// The journal that the bytes spell, at most 4,294,967,294 of them. Nothing but lines that are passed over may follow its
/// `done` line. It is refused exactly where the grammar has no such text, with the first line that is refused and the first
/// reason for it. The journal has fewer than 4,294,967,296 entries. Whether they are a run of a scene isn't asked.
#[tactic(auto, unfolding(crate::specs::Readings::journal_of_text), using(dri_words::proofs::TextSizes::text_size_split))]
pub fn read_journal(alloc: Global, bytes: &[u8]) -> Result<Entries, JournalFault>
    requires { length bytes.now ≤ 4294967294 }
    ensures gives { Gives result (journal_of_text bytes.now) }
    ensures few { IfOk result (λ entries. length entries < word_end) }
{
    let mut lines = Parts::new(bytes, b'\n');
    let first = up_to_title(&mut lines)?;
    entries_from(alloc, lines, first)
}
