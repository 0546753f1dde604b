//! An entry, made of its line's form.

ghost use Rattle.std.specs.Prelude.{◌≡◌};
ghost use Rattle.dri_journal.specs.Forms.{client_in, entry_in, place_in};
ghost use Rattle.dri_journal.specs.Readings.{entry_of};
ghost use Rattle.dri_journal.specs.declared.form.Form.TheVariants as forms;

use crate::form::{Form, form_of};
use dri_base::Entry;
use dri_words::{Reason, within};

/// A client's number.
fn client_in(number: i64) -> Option<u32>
    ensures { result ≡ client_in number }
{
    within(1, 32, number)
}

/// `kernel`: the context found is 0 to 33.
#[tactic(auto, unfolding(crate::specs::Forms::entry_in))]
fn kernel_in(client: i64, found: i64) -> Option<Entry>
    ensures { result ≡ entry_in (forms.Kernel client found) }
{
    let client = client_in(client)?;
    let found = within(0, 33, found)?;
    Some(Entry::Kernel { client, found })
}

/// `emit`: the bits of the groups are 1 to 127.
#[tactic(auto, unfolding(crate::specs::Forms::entry_in))]
fn emit_in(client: i64, groups: i64) -> Option<Entry>
    ensures { result ≡ entry_in (forms.Emit client groups) }
{
    let client = client_in(client)?;
    let groups = within(1, 127, groups)? as u8;
    Some(Entry::Emit { client, groups })
}

/// `place`: a texture 1 to 64, the first region 0 to 63, 1 to 64 regions.
#[tactic(auto, unfolding(crate::specs::Forms::place_in))]
fn place_in(client: i64, texture: i64, first: i64, count: i64) -> Option<Entry>
    ensures { result ≡ place_in client texture first count }
{
    let client = client_in(client)?;
    let texture = within(1, 64, texture)?;
    let first = within(0, 63, first)?;
    let count = within(1, 64, count)?;
    Some(Entry::Place {
        client,
        texture,
        first,
        count,
    })
}

/// `run`: a command 1 to 100,000.
#[tactic(auto, unfolding(crate::specs::Forms::entry_in))]
fn run_in(client: i64, place: i64) -> Option<Entry>
    ensures { result ≡ entry_in (forms.Run client place) }
{
    let client = client_in(client)?;
    let place = within(1, 100_000, place)?;
    Some(Entry::Run { client, place })
}

/// `change`: a change 1 to 4,096.
#[tactic(auto, unfolding(crate::specs::Forms::entry_in))]
fn change_in(place: i64) -> Option<Entry>
    ensures { result ≡ entry_in (forms.Change place) }
{
    let place = within(1, 4096, place)?;
    Some(Entry::Change { place })
}

/// The entry of a form, where its numbers are in their ranges.
#[tactic(auto, unfolding(crate::specs::Forms::entry_in))]
fn entry_in(form: Form) -> Option<Entry>
    ensures { result ≡ entry_in form }
{
    match form {
        Form::Kernel { client, found } => kernel_in(client, found),
        Form::Emit { client, groups } => emit_in(client, groups),
        Form::Place {
            client,
            texture,
            first,
            count,
        } => place_in(client, texture, first, count),
        Form::Run { client, place } => run_in(client, place),
        Form::Change { place } => change_in(place),
        Form::Light { client } => Some(Entry::Light {
            client: client_in(client)?,
        }),
        Form::Stale { client } => Some(Entry::Stale {
            client: client_in(client)?,
        }),
        Form::Leave { client } => Some(Entry::Leave {
            client: client_in(client)?,
        }),
        Form::Info { client } => Some(Entry::Info {
            client: client_in(client)?,
        }),
        Form::Gone { client } => Some(Entry::Gone {
            client: client_in(client)?,
        }),
    }
}

/// The entry of a line's bytes: its form, and then its ranges.
#[tactic(auto, unfolding(crate::specs::Readings::entry_of))]
pub fn entry_of(line: &[u8]) -> Result<Entry, Reason>
    ensures { result ≡ entry_of line.now }
{
    let Some(form) = form_of(line) else {
        return Err(Reason::Shape);
    };
    match entry_in(form) {
        Some(entry) => Ok(entry),
        None => Err(Reason::Range),
    }
}
