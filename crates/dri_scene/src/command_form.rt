//! The forms of a command's line: settings, clears and triangles.

ghost use Rattle.std.specs.Prelude.{◌≡◌};
ghost use Rattle.std.specs.Option.{option_map};
ghost use Rattle.dri_scene.specs.Forms.{shade_of, depth_func_of, switch_of, blend_of, tex_mode_of, wrap_of, plain_of, bind_of, corners_of, scissor_of, setting_of, set_of, clear_of, corner_at, triangle_of, command_of};

use crate::change_form::change_of;
use crate::form::{CommandForm, CornerForm, Form, ScissorForm, SettingForm, is_word, number_in};
use dri_base::{Blend, DepthFunc, Shade, TexMode, Wrap};
use dri_words::{Parts, alone, colour, colour_alpha, number, word};

/// `flat` or `smooth`
#[tactic(auto, unfolding(crate::specs::Forms::shade_of))]
fn shade_of(word: &[u8]) -> Option<Shade>
    ensures { result ≡ shade_of word.now }
{
    if is_word(word, b"flat") {
        Some(Shade::Flat)
    } else if is_word(word, b"smooth") {
        Some(Shade::Smooth)
    } else {
        None
    }
}

/// The depth functions.
#[tactic(auto, unfolding(crate::specs::Forms::depth_func_of))]
fn depth_func_of(word: &[u8]) -> Option<DepthFunc>
    ensures { result ≡ depth_func_of word.now }
{
    if is_word(word, b"never") {
        Some(DepthFunc::Never)
    } else if is_word(word, b"less") {
        Some(DepthFunc::Less)
    } else if is_word(word, b"equal") {
        Some(DepthFunc::Equal)
    } else if is_word(word, b"lequal") {
        Some(DepthFunc::LessEqual)
    } else if is_word(word, b"greater") {
        Some(DepthFunc::Greater)
    } else if is_word(word, b"notequal") {
        Some(DepthFunc::NotEqual)
    } else if is_word(word, b"gequal") {
        Some(DepthFunc::GreaterEqual)
    } else if is_word(word, b"always") {
        Some(DepthFunc::Always)
    } else {
        None
    }
}

/// `on` or `off`
#[tactic(auto, unfolding(crate::specs::Forms::switch_of))]
fn switch_of(word: &[u8]) -> Option<bool>
    ensures { result ≡ switch_of word.now }
{
    if is_word(word, b"on") {
        Some(true)
    } else if is_word(word, b"off") {
        Some(false)
    } else {
        None
    }
}

/// `off`, `alpha` or `add`
#[tactic(auto, unfolding(crate::specs::Forms::blend_of))]
fn blend_of(word: &[u8]) -> Option<Blend>
    ensures { result ≡ blend_of word.now }
{
    if is_word(word, b"off") {
        Some(Blend::Off)
    } else if is_word(word, b"alpha") {
        Some(Blend::Alpha)
    } else if is_word(word, b"add") {
        Some(Blend::Add)
    } else {
        None
    }
}

/// `off`, `replace` or `modulate`
#[tactic(auto, unfolding(crate::specs::Forms::tex_mode_of))]
fn tex_mode_of(word: &[u8]) -> Option<TexMode>
    ensures { result ≡ tex_mode_of word.now }
{
    if is_word(word, b"off") {
        Some(TexMode::Off)
    } else if is_word(word, b"replace") {
        Some(TexMode::Replace)
    } else if is_word(word, b"modulate") {
        Some(TexMode::Modulate)
    } else {
        None
    }
}

/// `repeat` or `clamp`
#[tactic(auto, unfolding(crate::specs::Forms::wrap_of))]
fn wrap_of(word: &[u8]) -> Option<Wrap>
    ensures { result ≡ wrap_of word.now }
{
    if is_word(word, b"repeat") {
        Some(Wrap::Repeat)
    } else if is_word(word, b"clamp") {
        Some(Wrap::Clamp)
    } else {
        None
    }
}

/// A setting by a word alone, behind its name.
#[tactic(auto, unfolding(crate::specs::Forms::plain_of))]
fn plain_of(name: &[u8], word: &[u8]) -> Option<SettingForm>
    ensures { result ≡ plain_of name.now word.now }
{
    if is_word(name, b"shade") {
        shade_of(word).map(SettingForm::Shade)
    } else if is_word(name, b"depth") {
        depth_func_of(word).map(SettingForm::DepthFunc)
    } else if is_word(name, b"write") {
        switch_of(word).map(SettingForm::DepthWrite)
    } else if is_word(name, b"blend") {
        blend_of(word).map(SettingForm::Blend)
    } else if is_word(name, b"texmode") {
        tex_mode_of(word).map(SettingForm::TexMode)
    } else if is_word(name, b"wrap") {
        wrap_of(word).map(SettingForm::Wrap)
    } else {
        None
    }
}

/// `T` or `none`, behind `bind`.
#[tactic(auto, unfolding(crate::specs::Forms::bind_of))]
fn bind_of(word: &[u8]) -> Option<SettingForm>
    ensures { result ≡ bind_of word.now }
{
    if is_word(word, b"none") {
        return Some(SettingForm::Bind(None));
    }
    let texture = number_in(word)?;
    Some(SettingForm::Bind(Some(texture)))
}

/// `X1 Y1 X2 Y2`, behind `scissor`.
#[tactic(auto, unfolding(crate::specs::Forms::corners_of))]
fn corners_of(word: &[u8], fields: Parts<'_>) -> Option<SettingForm>
    ensures { result ≡ corners_of word.now fields.entry }
{
    let x1 = number_in(word)?;
    let (y1, rest) = number(fields)?;
    let (x2, rest) = number(rest)?;
    let (y2, rest) = number(rest)?;
    alone(
        SettingForm::Scissor(Some(ScissorForm { x1, y1, x2, y2 })),
        rest,
    )
}

/// `X1 Y1 X2 Y2` or `none`, behind `scissor`.
#[tactic(auto, unfolding(crate::specs::Forms::scissor_of))]
fn scissor_of(word: &[u8], fields: Parts<'_>) -> Option<SettingForm>
    ensures { result ≡ scissor_of word.now fields.entry }
{
    if is_word(word, b"none") {
        alone(SettingForm::Scissor(None), fields)
    } else {
        corners_of(word, fields)
    }
}

/// What stands behind `set`: a name, and its value.
#[tactic(auto, unfolding(crate::specs::Forms::setting_of))]
fn setting_of(name: &[u8], word: &[u8], fields: Parts<'_>) -> Option<SettingForm>
    ensures { result ≡ setting_of name.now word.now fields.entry }
{
    if is_word(name, b"bind") {
        alone(bind_of(word)?, fields)
    } else if is_word(name, b"scissor") {
        scissor_of(word, fields)
    } else {
        alone(plain_of(name, word)?, fields)
    }
}

/// `set` and a setting
#[tactic(auto, unfolding(crate::specs::Forms::set_of))]
fn set<'a>(fields: Parts<'a>) -> Option<Form<'a>>
    ensures { result ≡ set_of fields.entry }
{
    let (name, rest) = word(fields)?;
    let (value, rest) = word(rest)?;
    let setting = setting_of(name, value, rest)?;
    Some(Form::Command(CommandForm::Set(setting)))
}

/// `clear RRGGBB Z`
#[tactic(auto, unfolding(crate::specs::Forms::clear_of))]
fn clear<'a>(fields: Parts<'a>) -> Option<Form<'a>>
    ensures { result ≡ clear_of fields.entry }
{
    let (colour, rest) = colour(fields)?;
    let (depth, rest) = number(rest)?;
    alone(Form::Command(CommandForm::Clear { colour, depth }), rest)
}

/// `X Y Z RRGGBBAA S T`, a corner of a triangle.
#[tactic(auto, unfolding(crate::specs::Forms::corner_at))]
fn corner<'a>(fields: Parts<'a>) -> Option<(CornerForm, Parts<'a>)>
    ensures { option_map (λ x. (x.0, x.1)) result ≡ corner_at fields.entry }
{
    let (x, rest) = number(fields)?;
    let (y, rest) = number(rest)?;
    let (z, rest) = number(rest)?;
    let (colour, rest) = colour_alpha(rest)?;
    let (s, rest) = number(rest)?;
    let (t, rest) = number(rest)?;
    Some((
        CornerForm {
            x,
            y,
            z,
            colour,
            s,
            t,
        },
        rest,
    ))
}

/// `triangle` and three corners
#[tactic(auto, unfolding(crate::specs::Forms::triangle_of))]
fn triangle<'a>(fields: Parts<'a>) -> Option<Form<'a>>
    ensures { result ≡ triangle_of fields.entry }
{
    let (a, rest) = corner(fields)?;
    let (b, rest) = corner(rest)?;
    let (c, rest) = corner(rest)?;
    alone(Form::Command(CommandForm::Triangle { a, b, c }), rest)
}

/// A command's line, by its first word, or else a line of another block.
#[tactic(auto, unfolding(crate::specs::Forms::command_of))]
pub fn command_of<'a>(name: &'a [u8], fields: Parts<'a>) -> Option<Form<'a>>
    ensures { result ≡ command_of name.now fields.entry }
{
    if is_word(name, b"set") {
        set(fields)
    } else if is_word(name, b"clear") {
        clear(fields)
    } else if is_word(name, b"triangle") {
        triangle(fields)
    } else if is_word(name, b"swap") {
        alone(Form::Command(CommandForm::Swap), fields)
    } else if is_word(name, b"yield") {
        alone(Form::Command(CommandForm::Yield), fields)
    } else if is_word(name, b"die") {
        alone(Form::Command(CommandForm::Die), fields)
    } else {
        change_of(name, fields)
    }
}
