//! The forms of an entry's line, each read from its words. A form has the numbers as they are written, so none of them is out
//! of range.

ghost use Rattle.std.specs.Prelude.{◌≡◌};
ghost use Rattle.std.specs.Option.{option_map};
ghost use Rattle.std.specs.Str.{bytes_eq};
ghost use Rattle.dri_journal.specs.Forms.{form_of, four_of, line_of, single_form, single_of, two_of};
ghost use Rattle.dri_journal.specs.declared.form.Form.TheVariants as forms;
ghost use Rattle.dri_words.specs.Parts.{parts_at};

use dri_words::{Parts, alone, number, word};

/// An entry's line, with its numbers as they are written.
#[derive(Clone, Copy)]
pub enum Form {
    Light {
        client: i64,
    },
    Kernel {
        client: i64,
        found: i64,
    },
    Stale {
        client: i64,
    },
    Emit {
        client: i64,
        groups: i64,
    },
    Place {
        client: i64,
        texture: i64,
        first: i64,
        count: i64,
    },
    Run {
        client: i64,
        place: i64,
    },
    Leave {
        client: i64,
    },
    Info {
        client: i64,
    },
    Change {
        place: i64,
    },
    Gone {
        client: i64,
    },
}

/// Whether a word is this name.
fn is_word(word: &[u8], name: &[u8]) -> bool
    ensures { result ≡ bytes_eq word.now name.now }
{
    word == name
}

/// A form of one number, by its first word.
#[tactic(auto, unfolding(crate::specs::Forms::single_form))]
fn single_form(name: &[u8], number: i64) -> Option<Form>
    ensures { result ≡ single_form name.now number }
{
    if is_word(name, b"light") {
        Some(Form::Light { client: number })
    } else if is_word(name, b"stale") {
        Some(Form::Stale { client: number })
    } else if is_word(name, b"leave") {
        Some(Form::Leave { client: number })
    } else if is_word(name, b"info") {
        Some(Form::Info { client: number })
    } else if is_word(name, b"change") {
        Some(Form::Change { place: number })
    } else if is_word(name, b"gone") {
        Some(Form::Gone { client: number })
    } else {
        None
    }
}

/// A line of one number.
#[tactic(auto, unfolding(crate::specs::Forms::single_of))]
fn single_of(name: &[u8], fields: Parts<'_>) -> Option<Form>
    ensures { result ≡ single_of name.now fields.entry }
{
    let (number, rest) = number(fields)?;
    let form = single_form(name, number)?;
    alone(form, rest)
}

/// `kernel C X`
#[tactic(auto, unfolding(crate::specs::Forms::two_of))]
fn kernel(fields: Parts<'_>) -> Option<Form>
    ensures { result ≡ two_of forms.Kernel fields.entry }
{
    let (client, rest) = number(fields)?;
    let (found, rest) = number(rest)?;
    alone(Form::Kernel { client, found }, rest)
}

/// `emit C G`
#[tactic(auto, unfolding(crate::specs::Forms::two_of))]
fn emit(fields: Parts<'_>) -> Option<Form>
    ensures { result ≡ two_of forms.Emit fields.entry }
{
    let (client, rest) = number(fields)?;
    let (groups, rest) = number(rest)?;
    alone(Form::Emit { client, groups }, rest)
}

/// `run C I`
#[tactic(auto, unfolding(crate::specs::Forms::two_of))]
fn run(fields: Parts<'_>) -> Option<Form>
    ensures { result ≡ two_of forms.Run fields.entry }
{
    let (client, rest) = number(fields)?;
    let (place, rest) = number(rest)?;
    alone(Form::Run { client, place }, rest)
}

/// `place C T FIRST COUNT`
#[tactic(auto, unfolding(crate::specs::Forms::four_of))]
fn place(fields: Parts<'_>) -> Option<Form>
    ensures { result ≡ four_of forms.Place fields.entry }
{
    let (client, rest) = number(fields)?;
    let (texture, rest) = number(rest)?;
    let (first, rest) = number(rest)?;
    let (count, rest) = number(rest)?;
    alone(
        Form::Place {
            client,
            texture,
            first,
            count,
        },
        rest,
    )
}

/// A line of two or four numbers, by its first word, or else of one.
#[tactic(auto, unfolding(crate::specs::Forms::line_of))]
fn line_of(name: &[u8], fields: Parts<'_>) -> Option<Form>
    ensures { result ≡ line_of name.now fields.entry }
{
    if is_word(name, b"kernel") {
        kernel(fields)
    } else if is_word(name, b"emit") {
        emit(fields)
    } else if is_word(name, b"run") {
        run(fields)
    } else if is_word(name, b"place") {
        place(fields)
    } else {
        single_of(name, fields)
    }
}

/// The form of a line's bytes.
#[tactic(auto, unfolding(crate::specs::Forms::form_of))]
pub fn form_of(line: &[u8]) -> Option<Form>
    ensures { result ≡ form_of (parts_at 32 line.now) }
{
    let (name, fields) = word(Parts::new(line, b' '))?;
    line_of(name, fields)
}
