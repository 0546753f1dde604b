//! The lines of a text that are passed over, and the end of a text.

ghost use Rattle.std.specs.Prelude.{◌≡◌, ◌≤◌, ◌+◌};
ghost use Rattle.dri_base.specs.Limits.{word_end};
ghost use Rattle.dri_words.specs.Lines.{ends, is_passed_over, text_size};

use crate::parts::Parts;
use crate::reason::Reason;

/// Why a text is refused: the first line that is refused, counted from 1, and the first reason for it. A text that ends too
/// early is refused at its last line where that has no newline, and else at the line after its last one.
#[derive(Clone, Copy)]
pub struct Refusal {
    pub line: u32,
    pub reason: Reason,
}

/// Whether a line is passed over: it is empty, or begins with `#`.
pub fn is_passed_over(line: &[u8]) -> bool
    ensures { result ≡ is_passed_over line.now }
{
    match line {
        [] => true,
        [first, ..] => *first == b'#',
    }
}

/// Reads the lines that are left, of which the first has the number `first`. It is refused where one of them isn't passed
/// over, or where something stands behind the last newline.
pub fn to_end(mut rest: Parts<'_>, first: u32) -> Result<(), Refusal>
    requires { first + text_size rest ≤ word_end }
    ensures { result ≡ ends first rest.entry }
{
    let mut number = first;
    while let Some(line) = rest.next() {
        if rest.is_empty() {
            if line.is_empty() {
                return Ok(());
            }
            break;
        }
        if !is_passed_over(line) {
            return Err(Refusal {
                line: number,
                reason: Reason::Shape,
            });
        }
        number += 1;
    }
    Err(Refusal {
        line: number,
        reason: Reason::Ended,
    })
}
