//! The text of a journal: a title, one line for each entry, and `done`.

ghost use Rattle.std.specs.Prelude.{◌≡◌, ◌<◌, ◌^◌, ◌++◌, [], ◌∷◌, All, IfOk, Ok, OnOk, codes};
ghost use Rattle.std.specs.List.{flat_map};
ghost use Rattle.dri_journal.specs.Readings.{journal_of_text};
ghost use Rattle.dri_journal.specs.Journals.{EntryInRange, FitsWords, entry_line, journal_text, numbered, spaced};

use dri_base::{Bytes, Entry, OutOfMemory};
use itoa::Buffer;
use std::alloc::{AllocError, Global};

/// Puts a space and a number last.
fn push_number(bytes: &mut Vec<u8>, number: u32) -> Result<(), AllocError>
    ensures digits { OnOk result (bytes.new.items ≡ bytes.old.items ++ spaced number) }
    ensures fits { number < 2 ^ 32 }
{
    let mut digits = Buffer::new();
    bytes.push(b' ')?;
    bytes.extend_from_slice(digits.format(number).as_bytes())
}

/// Puts a line last: a word, then numbers.
fn push_line(bytes: &mut Vec<u8>, word: &str, numbers: &[u32]) -> Result<(), AllocError>
    ensures line { OnOk result (bytes.new.items ≡ bytes.old.items ++ numbered word.now numbers.now) }
    ensures fit { OnOk result (All (λ n. n < 2 ^ 32) numbers.now) }
{
    bytes.extend_from_slice(word.as_bytes())?;
    for number in numbers {
        push_number(bytes, *number)?;
    }
    bytes.push(b'\n')?;
    Ok(())
}

/// Puts an entry's line last.
fn push_entry(bytes: &mut Vec<u8>, entry: &Entry) -> Result<(), AllocError>
    ensures line { OnOk result (bytes.new.items ≡ bytes.old.items ++ entry_line entry.now) }
    ensures fits { OnOk result (FitsWords entry.now) }
{
    match *entry {
        Entry::Light { client } => push_line(bytes, "light", &[client]),
        Entry::Kernel { client, found } => push_line(bytes, "kernel", &[client, found]),
        Entry::Stale { client } => push_line(bytes, "stale", &[client]),
        Entry::Emit { client, groups } => push_line(bytes, "emit", &[client, groups as u32]),
        Entry::Place {
            client,
            texture,
            first,
            count,
        } => push_line(bytes, "place", &[client, texture, first, count]),
        Entry::Run { client, place } => push_line(bytes, "run", &[client, place]),
        Entry::Leave { client } => push_line(bytes, "leave", &[client]),
        Entry::Info { client } => push_line(bytes, "info", &[client]),
        Entry::Change { place } => push_line(bytes, "change", &[place]),
        Entry::Gone { client } => push_line(bytes, "gone", &[client]),
    }
}

/// Puts the entries' lines last.
fn push_entries(bytes: &mut Vec<u8>, entries: &[Entry]) -> Result<(), AllocError>
    ensures lines { OnOk result (bytes.new.items ≡ bytes.old.items ++ flat_map entry_line entries.now) }
    ensures fit { OnOk result (All FitsWords entries.now) }
{
    for entry in entries {
        push_entry(bytes, entry)?;
    }
    Ok(())
}

/// The text of a journal. Read again, the text of entries whose numbers are in their ranges gives the entries.
pub fn print_journal(alloc: Global, entries: &[Entry]) -> Result<Bytes, OutOfMemory>
    ensures text { IfOk result (λ b. b ≡ journal_text entries.now) }
    ensures fits { IfOk result (λ b. All FitsWords entries.now) }
    ensures read { IfOk result (λ b. All EntryInRange entries.now → journal_of_text b ≡ Ok entries.now) }
{
    let mut bytes = Vec::new(alloc);
    bytes.extend_from_slice(b"journal 1\n".as_slice())?;
    push_entries(&mut bytes, entries)?;
    bytes.extend_from_slice(b"done\n".as_slice())?;
    Ok(Bytes::from_vec(bytes))
}
