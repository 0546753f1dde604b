//! The line of an item that a world took: what it brought, and the lock word and the queue after it.

ghost use Rattle.std.specs.Prelude.{◌≡◌, ◌++◌, ◌∷◌, OnOk, codes, decimal, map};
ghost use Rattle.std.specs.declared.option.Option.{Option};
ghost use Rattle.dri_base.specs.declared.journal.Event.{Event};
ghost use Rattle.dri_lab_run.specs.EventLines.{event_words, item_name, item_number, line_of_item, lock_words, made_words, unheld_words, word_words};
ghost use Rattle.dri_lab_run.specs.Spaces.{behind_spaces};
ghost use Rattle.dri_scene.specs.Texts.{Adds};
ghost use Rattle.dri_world.specs.Courses.{core_of, turned};

use dri_base::{Event, Item};
use dri_scene::{Word, end_line, push_bytes, push_word, push_words};
use dri_world::{Turned, World};
use std::alloc::AllocError;

/// Bit 31 of the lock word: somebody holds.
const HELD: u32 = 0x8000_0000;

/// Bit 30: the first in the queue has marked the word.
const CONTENDED: u32 = 0x4000_0000;

/// Puts a word and numbers behind it, each behind a space.
fn push_numbered(text: &mut Vec<u8>, label: &[u8], numbers: &[u32]) -> Result<(), AllocError>
    ensures { OnOk result (Adds text.old.items (behind_spaces (label.now ∷ map decimal numbers.now)) text.new.items) }
{
    push_word(text, label)?;
    for number in numbers {
        push_words(text, &[Word::Number(*number)])?;
    }
    Ok(())
}

/// Puts an event's words.
fn push_event(text: &mut Vec<u8>, event: &Event) -> Result<(), AllocError>
    ensures { OnOk result (Adds text.old.items (behind_spaces (event_words event.now)) text.new.items) }
{
    match *event {
        Event::Light { client } => push_numbered(text, b"light", &[client]),
        Event::Kernel { client, found } => push_numbered(text, b"kernel", &[client, found]),
        Event::Stale { client } => push_numbered(text, b"stale", &[client]),
        Event::Emit { client, groups } => push_numbered(text, b"emit", &[client, groups as u32]),
        Event::Place {
            client,
            texture,
            first,
            count,
        } => push_numbered(text, b"place", &[client, texture, first, count]),
        Event::Run { client, place } => push_numbered(text, b"run", &[client, place]),
        Event::Info { client } => push_numbered(text, b"info", &[client]),
        Event::Change { place } => push_numbered(text, b"change", &[place]),
        Event::Gone { client } => push_numbered(text, b"gone", &[client]),
        Event::LeaveLight { client } => push_numbered(text, b"leave", &[client]),
        Event::LeaveKernel { client } => push_numbered(text, b"leave_kernel", &[client]),
        Event::Queue { actor } => push_numbered(text, b"queue", &[actor]),
        Event::Mark { actor } => push_numbered(text, b"mark", &[actor]),
        Event::Stop { client } => push_numbered(text, b"stop", &[client]),
    }
}

/// Puts what an item brought.
fn push_made(text: &mut Vec<u8>, made: &Turned) -> Result<(), AllocError>
    ensures { (event : Option Event) → made.now ≡ turned event → OnOk result (Adds text.old.items (behind_spaces (made_words event)) text.new.items) }
{
    match made {
        Turned::Did(event) => push_event(text, event),
        Turned::Passed => push_numbered(text, b"passed", &[]),
    }
}

/// Puts a lock word without bit 31.
fn push_unheld(text: &mut Vec<u8>, number: u32) -> Result<(), AllocError>
    ensures { OnOk result (Adds text.old.items (behind_spaces (unheld_words number)) text.new.items) }
{
    if number < CONTENDED {
        return push_words(text, &[Word::Number(number)]);
    }
    push_numbered(text, b"contended", &[number - CONTENDED])
}

/// Puts a lock word.
fn push_lock_word(text: &mut Vec<u8>, number: u32) -> Result<(), AllocError>
    ensures { OnOk result (Adds text.old.items (behind_spaces (word_words number)) text.new.items) }
{
    if number < HELD {
        return push_unheld(text, number);
    }
    push_word(text, b"held")?;
    push_unheld(text, number - HELD)
}

/// Puts a lock word and a queue.
fn push_lock(text: &mut Vec<u8>, number: u32, queue: &[u32]) -> Result<(), AllocError>
    ensures { OnOk result (Adds text.old.items (behind_spaces (lock_words number queue.now)) text.new.items) }
{
    push_word(text, b"word")?;
    push_lock_word(text, number)?;
    push_numbered(text, b"queue", queue)
}

/// The first word of an item's line.
fn name_of(item: &Item) -> &'static [u8]
    ensures { result.now ≡ item_name item.now }
{
    match item {
        Item::Turn { .. } => b"turn",
        Item::Kill { .. } => b"kill",
    }
}

/// The number of the actor whose turn it is, or of the client that it kills.
fn number_of(item: &Item) -> u32
    ensures { result ≡ item_number item.now }
{
    match item {
        Item::Turn { actor } => *actor,
        Item::Kill { client } => *client,
    }
}

/// Puts the line of an item that a world took.
pub fn push_item_line(
    text: &mut Vec<u8>,
    item: &Item,
    made: &Turned,
    world: &World,
) -> Result<(), AllocError>
    ensures { (event : Option Event) → made.now ≡ turned event → OnOk result (Adds text.old.items (line_of_item item.now event (core_of world.now)) text.new.items) }
{
    push_bytes(text, name_of(item))?;
    push_words(text, &[Word::Number(number_of(item))])?;
    push_made(text, made)?;
    push_lock(text, world.word(), world.queue())?;
    end_line(text)
}
