//! The words of the command line.

ghost use Rattle.std.specs.Prelude.{◌≡◌};
ghost use Rattle.dri_lab_run.specs.Forms.{after_form, all_form, counted_form, form_of, pixel_form};

use dri_run::number_in;

/// The most entries or events that a word can ask for.
const MOST: u32 = u32::MAX;

/// The greatest column and row of a screen.
const LAST_PLACE: u32 = 1_023;

/// What is looked at in a recording: a scene and a journal.
#[derive(Clone, Copy)]
pub enum Look {
    /// `after E`: the screen after the journal's first E entries.
    After { entries: u32 },
    /// `pixel X Y`: what touched the place of this column and this row, each 0 to 1,023.
    Pixel { x: u32, y: u32 },
}

/// What the words ask for.
#[derive(Clone, Copy)]
pub enum Form {
    /// A look at a recording.
    Recorded(Look),
    /// `events`: what each item of a scene's schedule, and of the rounds behind it, brings.
    Events,
    /// `all N`: each picture and each journal that a scene's runs of at most N events can end with.
    All { events: u32 },
}

/// What the word `after` and a number behind it ask for.
fn after_form(count: &str) -> Option<Form>
    ensures { result ≡ after_form count.now }
{
    let entries = number_in(0, MOST, count)?;
    Some(Form::Recorded(Look::After { entries }))
}

/// What the word `all` and a number behind it ask for.
fn all_form(count: &str) -> Option<Form>
    ensures { result ≡ all_form count.now }
{
    let events = number_in(0, MOST, count)?;
    Some(Form::All { events })
}

/// What a word and a number behind it ask for.
fn counted_form(word: &str, count: &str) -> Option<Form>
    ensures { result ≡ counted_form word.now count.now }
{
    if word == "after" {
        after_form(count)
    } else if word == "all" {
        all_form(count)
    } else {
        None
    }
}

/// What the word `pixel` and two numbers behind it ask for.
fn pixel_form(column: &str, row: &str) -> Option<Form>
    ensures { result ≡ pixel_form column.now row.now }
{
    let x = number_in(0, LAST_PLACE, column)?;
    let y = number_in(0, LAST_PLACE, row)?;
    Some(Form::Recorded(Look::Pixel { x, y }))
}

/// What the words ask for, where they are of a form.
pub fn form_of(words: &[String]) -> Option<Form>
    ensures { result ≡ form_of words.now }
{
    match words {
        [word] => {
            if word.as_str() == "events" {
                Some(Form::Events)
            } else {
                None
            }
        }
        [word, count] => counted_form(word.as_str(), count.as_str()),
        [word, column, row] => {
            if word.as_str() == "pixel" {
                pixel_form(column.as_str(), row.as_str())
            } else {
                None
            }
        }
        _ => None,
    }
}
