//! A scene's text played by turns and kills that are given as numbers.

ghost use Rattle.std.specs.Prelude.{◌≡◌, IfOk, map};
ghost use Rattle.dri_c.specs.Playing.{PlaysText, TellsPlay, fault_of, item_of, played_status, status_for};

use crate::answer::{Answer, give};
use crate::buffer::{has_room, put, text_of};
use dri_base::{Item, Items, OutOfMemory};
use dri_play::{PlayFault, Played, play};
use dri_run::Status;
use dri_scene::{SceneFault, read_scene};
use std::alloc::Global;

/// How many bytes a scene's text may have.
const MOST_TEXT: usize = 16_777_216;

/// What playing left, beside picture and notes. In C it is `struct dri_played`, and its fields have this order.
#[repr(C)]
#[derive(Drop)]
pub struct PlayAnswer {
    /// How many events were made.
    pub events: u64,
    /// How many flags were put at the begin of `passed`: one for each item, or none.
    pub passed_written: u64,
    /// The lock word.
    pub word: u32,
}

/// The item that a number names: the turn of an actor, or the kill of a client by its number's negative.
fn item_of(number: i32) -> Item
    ensures { result ≡ item_of number }
{
    let named = number.unsigned_abs();
    if number < 0 {
        return Item::Kill { client: named };
    }
    Item::Turn { actor: named }
}

/// The items that these numbers name.
fn items_of(alloc: Global, numbers: &[i32]) -> Result<Items, OutOfMemory>
    ensures { IfOk result (λ items. items ≡ map item_of numbers.now) }
{
    let mut items = Items::new(alloc);
    for number in numbers {
        items.push(item_of(*number))?;
    }
    Ok(items)
}

/// The status for a text that has no scene.
fn status_for(fault: SceneFault) -> Status
    ensures { result ≡ status_for fault }
{
    match fault {
        SceneFault::Refused { line, reason } => Status::Refused { line, reason },
        SceneFault::OutOfMemory => Status::OutOfMemory,
    }
}

/// The status for a scene that wasn't played.
fn fault_of(fault: PlayFault) -> Status
    ensures { result ≡ fault_of fault }
{
    match fault {
        PlayFault::OutOfRange => Status::Usage,
        PlayFault::OutOfMemory => Status::OutOfMemory,
    }
}

/// Plays the scene that a text spells by the items that numbers name.
fn play_text(alloc: Global, text: &[u8], numbers: &[i32]) -> Result<Played, Status>
    ensures { PlaysText result text.now numbers.now }
{
    if text.len() > MOST_TEXT {
        return Err(Status::TooLong);
    }
    let scene = match read_scene(alloc, text_of(text)) {
        Ok(scene) => scene,
        Err(fault) => return Err(status_for(fault)),
    };
    let items = match items_of(alloc, numbers) {
        Ok(items) => items,
        Err(OutOfMemory) => return Err(Status::OutOfMemory),
    };
    match play(alloc, scene, items) {
        Ok(played) => Ok(played),
        Err(fault) => Err(fault_of(fault)),
    }
}

/// The status of what was played, where a buffer has room for the flags or not.
fn status_with(flags: &[u8], passed: &[u8]) -> Status
    ensures { result ≡ played_status flags.now passed.now }
{
    if has_room(flags, passed) {
        Status::Done
    } else {
        Status::WriteFault
    }
}

/// Tells C what the scene that a text spells gives, played by the items that numbers name.
pub fn tell_play(
    alloc: Global,
    text: &[u8],
    numbers: &[i32],
    passed: &mut [u8],
    picture: &mut [u8],
    notes: &mut [u8],
    played: &mut PlayAnswer,
    answer: &mut Answer,
)
    ensures { TellsPlay text.now numbers.now passed.old passed.new picture.old picture.new notes.old notes.new played.new answer.new }
{
    match play_text(alloc, text, numbers) {
        Ok(left) => {
            let flags = left.passed.as_slice();
            let status = status_with(flags, passed);
            *played = PlayAnswer {
                events: left.events as u64,
                passed_written: put(flags, passed),
                word: left.word,
            };
            give(
                status,
                left.picture.as_slice(),
                left.notes.as_slice(),
                picture,
                notes,
                answer,
            );
        }
        Err(status) => {
            *played = PlayAnswer {
                events: 0,
                passed_written: 0,
                word: 0,
            };
            give(status, &[], &[], picture, notes, answer);
        }
    }
}
