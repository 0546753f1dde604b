//! The lines of a group's block, each read from its words: its form, with the numbers as they are written, and then the
//! numbers in their range.

ghost use Rattle.std.specs.Prelude.{◌≡◌};
ghost use Rattle.std.specs.Str.{bytes_eq};
ghost use Rattle.dri_many.specs.Lines.{client_in, clients_in, current_form, group_form, named, numbers_of};
ghost use Rattle.dri_many.specs.Readings.{Yields};
ghost use Rattle.dri_words.specs.Lines.{or_else};
ghost use Rattle.dri_words.specs.Parts.{parts_at};
ghost use Rattle.dri_words.specs.declared.reason.Reason.TheVariants as reasons;

use crate::fault::Stop;
use dri_base::{Numbers, Sequence};
use dri_words::{Parts, Reason, alone, number, within, word};
use std::alloc::Global;

/// The fewest members of a group.
const LEAST_MEMBERS: usize = 2;

/// The most members of a group.
const MOST_MEMBERS: usize = 8;

/// Whether a word is this name.
fn is_word(word: &[u8], name: &[u8]) -> bool
    ensures { result ≡ bytes_eq word.now name.now }
{
    word == name
}

/// The words behind a line's first, where that is the name.
#[tactic(auto, unfolding(crate::specs::Lines::named))]
fn named<'a>(name: &[u8], line: &'a [u8]) -> Option<Parts<'a>>
    ensures { result ≡ named name.now (parts_at 32 line.now) }
{
    let (first, fields) = word(Parts::new(line, b' '))?;
    if is_word(first, name) {
        Some(fields)
    } else {
        None
    }
}

/// The numbers that words spell. Shape: one of them spells none.
fn numbers_of(alloc: Global, mut words: Parts<'_>) -> Result<Sequence<i64>, Stop>
    ensures { Yields result (or_else reasons.Shape (numbers_of words.entry)) }
{
    let mut numbers = Sequence::new(alloc);
    while !words.is_empty() {
        let Some((found, rest)) = number(words) else {
            return Err(Stop::Refused(Reason::Shape));
        };
        numbers.push(found)?;
        words = rest;
    }
    Ok(numbers)
}

/// The numbers of a group's line. Shape: it isn't the word `group` with 2 to 8 numbers.
#[tactic(auto, unfolding(crate::specs::Lines::group_form))]
pub fn group_form(alloc: Global, line: &[u8]) -> Result<Sequence<i64>, Stop>
    ensures { Yields result (or_else reasons.Shape (group_form (parts_at 32 line.now))) }
{
    let Some(fields) = named(b"group", line) else {
        return Err(Stop::Refused(Reason::Shape));
    };
    let numbers = numbers_of(alloc, fields)?;
    if LEAST_MEMBERS <= numbers.len() && numbers.len() <= MOST_MEMBERS {
        Ok(numbers)
    } else {
        Err(Stop::Refused(Reason::Shape))
    }
}

/// The number of a current's line: the word `current` and a number.
#[tactic(auto, unfolding(crate::specs::Lines::current_form))]
pub fn current_form(line: &[u8]) -> Option<i64>
    ensures { result ≡ current_form (parts_at 32 line.now) }
{
    let fields = named(b"current", line)?;
    let (client, rest) = number(fields)?;
    alone(client, rest)
}

/// A client's number: 1 to 32.
pub fn client_in(number: i64) -> Option<u32>
    ensures { result ≡ client_in number }
{
    within(1, 32, number)
}

/// The clients that the numbers name. Range: one of them isn't a client's.
pub fn clients_in(alloc: Global, numbers: &[i64]) -> Result<Numbers, Stop>
    ensures { Yields result (or_else reasons.Range (clients_in numbers.now)) }
{
    let mut clients = Numbers::new(alloc);
    for number in numbers {
        let Some(client) = client_in(*number) else {
            return Err(Stop::Refused(Reason::Range));
        };
        clients.push(client)?;
    }
    Ok(clients)
}
