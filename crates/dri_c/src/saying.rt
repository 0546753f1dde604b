//! What the program says to words over a caller's bytes: the words, the program's top call, and what C is told.

ghost use Rattle.std.specs.Prelude.{◌≡◌, ◌∷◌, IfOk, decimal, map};
ghost use Rattle.std.specs.String.{string_bytes};
ghost use Rattle.dri_c.specs.Obeying.{Gives, Obeys};
ghost use Rattle.dri_run.specs.Forms.{form_of, form_of_words};

use crate::answer::{Answer, give};
use crate::buffer::text_of;
use crate::sink::Gathered;
use crate::source::BytesSource;
use dri_base::{Bytes, OutOfMemory};
use dri_run::{Status, drive};
use std::alloc::Global;

/// What the program said: its status, and what it wrote.
#[derive(Drop)]
pub struct Said {
    status: Status,
    image: Bytes,
    text: Bytes,
}

/// A word and the numbers behind it, as they stand on a command line.
fn words_of(alloc: Global, word: &str, numbers: &[u32]) -> Result<Vec<String>, OutOfMemory>
    ensures { IfOk result (λ words. map string_bytes words.items ≡ word.now ∷ map decimal numbers.now) }
{
    let mut words = vec![in alloc; word.to_string(alloc)?]?;
    for number in numbers {
        words.push(format!(in alloc; "{number}")?)?;
    }
    Ok(words)
}

/// What the program says to these words over these bytes.
fn say(alloc: Global, words: &[String], bytes: &[u8]) -> Result<Said, OutOfMemory>
    ensures { IfOk result (λ s. Obeys (form_of words.now) bytes.now s.status s.image s.text) }
{
    let mut input = BytesSource::new(text_of(bytes));
    let mut picture = Gathered::new(alloc);
    let mut notes = Gathered::new(alloc);
    let status = drive(alloc, words, &mut input, &mut picture, &mut notes);
    if status == Status::OutOfMemory || !picture.is_whole() || !notes.is_whole() {
        return Err(OutOfMemory);
    }
    Ok(Said {
        status,
        image: picture.into_bytes(),
        text: notes.into_bytes(),
    })
}

/// What the program says to a word with numbers behind it, over these bytes.
fn say_to(alloc: Global, word: &str, numbers: &[u32], bytes: &[u8]) -> Result<Said, OutOfMemory>
    ensures { IfOk result (λ s. Obeys (form_of_words (word.now ∷ map decimal numbers.now)) bytes.now s.status s.image s.text) }
{
    let words = words_of(alloc, word, numbers)?;
    say(alloc, words.as_slice(), bytes)
}

/// Tells C what the program says to a word with numbers behind it, over these bytes. Where memory is wanting nothing is written.
pub fn obey(
    alloc: Global,
    word: &str,
    numbers: &[u32],
    bytes: &[u8],
    picture: &mut [u8],
    notes: &mut [u8],
    answer: &mut Answer,
)
    ensures { Gives (word.now ∷ map decimal numbers.now) bytes.now picture.old picture.new notes.old notes.new answer.new }
{
    match say_to(alloc, word, numbers, bytes) {
        Ok(said) => give(
            said.status,
            said.image.as_slice(),
            said.text.as_slice(),
            picture,
            notes,
            answer,
        ),
        Err(_) => give(Status::OutOfMemory, &[], &[], picture, notes, answer),
    }
}
