//! The words of the command line.

ghost use Rattle.std.specs.Prelude.{◌≡◌, IfSome};
ghost use Rattle.dri_base.specs.Ranges.{IsWithin};
ghost use Rattle.dri_run.specs.Forms.{IsFormRanged, counted_form, form_of, form_of_word, is_run, make_form, number_in, ring_form, solo_form};

use dri_words::{Parts, alone, number, within};

/// The greatest number of a client, and so the most clients of a scene.
const MOST_CLIENTS: u32 = 32;

/// The greatest number of a frame: as many as a scene may have commands.
const MOST_FRAMES: u32 = 100_000;

/// What is shown of a scene's run.
#[derive(Clone, Copy)]
pub enum Shown {
    /// `turns`: the screen, and the journal.
    Turns,
    /// `sarea`: the shared area.
    Sarea,
}

/// The most jobs that a ring has room for.
const MOST_ROOM: u32 = 64;

/// What is done with a recording: a scene and a journal.
#[derive(Clone, Copy)]
pub enum Replaying {
    /// `check`: it is told whether the journal is a run of the scene.
    Check,
    /// `flip`: the journal is drawn by a card that flips.
    Flip,
    /// `ring N`: the journal is drawn through a ring with room for so many jobs, 1 to 64.
    Ring { room: u32 },
    /// `card16`: the journal is drawn by a card that keeps colours in sixteen bits and draws lines.
    Sixteen,
}

/// What the words ask for.
#[derive(Clone, Copy)]
pub enum Form {
    /// A scene's run by its schedule.
    Scheduled(Shown),
    /// `many`: a scene's run in groups, without its schedule.
    Grouped,
    /// A recording's replay.
    Replayed(Replaying),
    /// `solo C K`: a client's frame, drawn alone. The client is 1 to 32, the frame 1 to 100,000.
    Solo { client: u32, frame: u32 },
    /// `make N`: a scene for load, of so many clients, 1 to 32.
    Make { clients: u32 },
}

/// The number from `low` to `high` that a word spells.
pub fn number_in(low: u32, high: u32, word: &str) -> Option<u32>
    ensures value { result ≡ number_in low high word.now }
    ensures bound { IfSome result (IsWithin low high) }
{
    let (number, rest) = number(Parts::new(word.as_bytes(), b' '))?;
    let number = alone(number, rest)?;
    within(low, high, number)
}

/// What one word asks for.
fn form_of_word(word: &str) -> Option<Form>
    ensures value { result ≡ form_of_word word.now }
    ensures bound { IfSome result IsFormRanged }
{
    if word == "turns" {
        Some(Form::Scheduled(Shown::Turns))
    } else if word == "sarea" {
        Some(Form::Scheduled(Shown::Sarea))
    } else if word == "check" {
        Some(Form::Replayed(Replaying::Check))
    } else if word == "flip" {
        Some(Form::Replayed(Replaying::Flip))
    } else if word == "card16" {
        Some(Form::Replayed(Replaying::Sixteen))
    } else if word == "many" {
        Some(Form::Grouped)
    } else {
        None
    }
}

/// What the word `make` and a number behind it ask for.
fn make_form(count: &str) -> Option<Form>
    ensures value { result ≡ make_form count.now }
    ensures bound { IfSome result IsFormRanged }
{
    let clients = number_in(1, MOST_CLIENTS, count)?;
    Some(Form::Make { clients })
}

/// What the word `ring` and a number behind it ask for.
fn ring_form(count: &str) -> Option<Form>
    ensures value { result ≡ ring_form count.now }
    ensures bound { IfSome result IsFormRanged }
{
    let room = number_in(1, MOST_ROOM, count)?;
    Some(Form::Replayed(Replaying::Ring { room }))
}

/// What a word and a number behind it ask for.
fn counted_form(word: &str, count: &str) -> Option<Form>
    ensures value { result ≡ counted_form word.now count.now }
    ensures bound { IfSome result IsFormRanged }
{
    if word == "make" {
        make_form(count)
    } else if word == "ring" {
        ring_form(count)
    } else {
        None
    }
}

/// What the word `solo` and two numbers behind it ask for.
fn solo_form(client: &str, frame: &str) -> Option<Form>
    ensures value { result ≡ solo_form client.now frame.now }
    ensures bound { IfSome result IsFormRanged }
{
    let client = number_in(1, MOST_CLIENTS, client)?;
    let frame = number_in(1, MOST_FRAMES, frame)?;
    Some(Form::Solo { client, frame })
}

/// What the words ask for, where they are of a form.
pub fn form_of(words: &[String]) -> Option<Form>
    ensures value { result ≡ form_of words.now }
    ensures bound { IfSome result IsFormRanged }
{
    match words {
        [word] => form_of_word(word.as_str()),
        [word, count] => counted_form(word.as_str(), count.as_str()),
        [word, client, frame] => {
            if word.as_str() == "solo" {
                solo_form(client.as_str(), frame.as_str())
            } else {
                None
            }
        }
        _ => None,
    }
}

/// Whether the words are the one word `run`, which asks for clients in threads.
pub fn is_run(words: &[String]) -> bool
    ensures { result ≡ is_run words.now }
{
    match words {
        [word] => word.as_str() == "run",
        _ => false,
    }
}
