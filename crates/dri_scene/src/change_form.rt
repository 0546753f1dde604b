//! The forms of a change's line and of an item's line.

ghost use Rattle.std.specs.Prelude.{◌≡◌};
ghost use Rattle.dri_scene.specs.Forms.{plain_change_of, move_of, resize_of, item_in, item_of, change_of};
ghost use Rattle.dri_scene.specs.declared.form.ChangeForm.TheVariants as changes;

use crate::form::{ChangeForm, Form, ItemForm, is_word, number_in};
use dri_words::{Parts, alone, number};

/// `map W`
#[tactic(auto, unfolding(crate::specs::Forms::plain_change_of))]
fn map<'a>(fields: Parts<'a>) -> Option<Form<'a>>
    ensures { result ≡ plain_change_of changes.Map fields.entry }
{
    let (window, rest) = number(fields)?;
    alone(Form::Change(ChangeForm::Map { window }), rest)
}

/// `unmap W`
#[tactic(auto, unfolding(crate::specs::Forms::plain_change_of))]
fn unmap<'a>(fields: Parts<'a>) -> Option<Form<'a>>
    ensures { result ≡ plain_change_of changes.Unmap fields.entry }
{
    let (window, rest) = number(fields)?;
    alone(Form::Change(ChangeForm::Unmap { window }), rest)
}

/// `move W X Y`
#[tactic(auto, unfolding(crate::specs::Forms::move_of))]
fn move_to<'a>(fields: Parts<'a>) -> Option<Form<'a>>
    ensures { result ≡ move_of fields.entry }
{
    let (window, rest) = number(fields)?;
    let (x, rest) = number(rest)?;
    let (y, rest) = number(rest)?;
    alone(Form::Change(ChangeForm::Move { window, x, y }), rest)
}

/// `resize W WIDTH HEIGHT`
#[tactic(auto, unfolding(crate::specs::Forms::resize_of))]
fn resize<'a>(fields: Parts<'a>) -> Option<Form<'a>>
    ensures { result ≡ resize_of fields.entry }
{
    let (window, rest) = number(fields)?;
    let (width, rest) = number(rest)?;
    let (height, rest) = number(rest)?;
    alone(
        Form::Change(ChangeForm::Resize {
            window,
            width,
            height,
        }),
        rest,
    )
}

/// `raise W`
#[tactic(auto, unfolding(crate::specs::Forms::plain_change_of))]
fn raise<'a>(fields: Parts<'a>) -> Option<Form<'a>>
    ensures { result ≡ plain_change_of changes.Raise fields.entry }
{
    let (window, rest) = number(fields)?;
    alone(Form::Change(ChangeForm::Raise { window }), rest)
}

/// `lower W`
#[tactic(auto, unfolding(crate::specs::Forms::plain_change_of))]
fn lower<'a>(fields: Parts<'a>) -> Option<Form<'a>>
    ensures { result ≡ plain_change_of changes.Lower fields.entry }
{
    let (window, rest) = number(fields)?;
    alone(Form::Change(ChangeForm::Lower { window }), rest)
}

/// `s`, a number, or `x` and a number
#[tactic(auto, unfolding(crate::specs::Forms::item_in))]
fn item_in(word: &[u8]) -> Option<ItemForm>
    ensures { result ≡ item_in word.now }
{
    match word {
        [] => None,
        [b's'] => Some(ItemForm::Server),
        [b'x', rest @ ..] => {
            let client = number_in(rest)?;
            Some(ItemForm::Kill { client })
        }
        _ => {
            let client = number_in(word)?;
            Some(ItemForm::Turn { client })
        }
    }
}

/// A line of one item.
#[tactic(auto, unfolding(crate::specs::Forms::item_of))]
fn item_of<'a>(word: &'a [u8], fields: Parts<'a>) -> Option<Form<'a>>
    ensures { result ≡ item_of word.now fields.entry }
{
    let item = item_in(word)?;
    alone(Form::Item(item), fields)
}

/// A change's line, by its first word, or else an item's.
#[tactic(auto, unfolding(crate::specs::Forms::change_of))]
pub fn change_of<'a>(name: &'a [u8], fields: Parts<'a>) -> Option<Form<'a>>
    ensures { result ≡ change_of name.now fields.entry }
{
    if is_word(name, b"map") {
        map(fields)
    } else if is_word(name, b"unmap") {
        unmap(fields)
    } else if is_word(name, b"move") {
        move_to(fields)
    } else if is_word(name, b"resize") {
        resize(fields)
    } else if is_word(name, b"raise") {
        raise(fields)
    } else if is_word(name, b"lower") {
        lower(fields)
    } else {
        item_of(name, fields)
    }
}
