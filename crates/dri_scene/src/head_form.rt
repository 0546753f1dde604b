//! The form of a line, by its first word: the lines outside the blocks, those that begin and end them, and textures.

ghost use Rattle.std.specs.Prelude.{◌≡◌};
ghost use Rattle.std.specs.List.{list_all};
ghost use Rattle.dri_words.specs.Parts.{parts_at};
ghost use Rattle.dri_scene.specs.Forms.{is_hex_digit, is_image, title_of, screen_of, heap_of, mapped_of, window_of, client_of, format_of, texture_of, block_of, head_of, form_of};

use crate::command_form::command_of;
use crate::form::{Digits, Form, TextureForm, WindowForm, is_word};
use dri_base::TexFormat;
use dri_words::{Parts, alone, colour, number, word};

/// Whether a byte is a hexadecimal digit in lower case.
fn is_hex_digit(c: u8) -> bool
    ensures { result ≡ is_hex_digit c }
{
    matches!(c, b'0'..=b'9' | b'a'..=b'f')
}

/// Whether a word has hexadecimal digits alone.
fn are_hex_digits(word: &[u8]) -> bool
    ensures { result ≡ list_all is_hex_digit word.now }
{
    word.iter().all(|c| is_hex_digit(*c))
}

/// Whether a word spells an image: at least one digit, and nothing else.
fn is_image(word: &[u8]) -> bool
    ensures { result ≡ is_image word.now }
{
    !word.is_empty() && are_hex_digits(word)
}

/// `dri 1`
#[tactic(auto, unfolding(crate::specs::Forms::title_of))]
fn title<'a>(fields: Parts<'a>) -> Option<Form<'a>>
    ensures { result ≡ title_of fields.entry }
{
    let (version, rest) = word(fields)?;
    if is_word(version, b"1") {
        alone(Form::Title, rest)
    } else {
        None
    }
}

/// `screen W H RRGGBB`
#[tactic(auto, unfolding(crate::specs::Forms::screen_of))]
fn screen<'a>(fields: Parts<'a>) -> Option<Form<'a>>
    ensures { result ≡ screen_of fields.entry }
{
    let (width, rest) = number(fields)?;
    let (height, rest) = number(rest)?;
    let (root, rest) = colour(rest)?;
    alone(
        Form::Screen {
            width,
            height,
            root,
        },
        rest,
    )
}

/// `heap N SIZE`
#[tactic(auto, unfolding(crate::specs::Forms::heap_of))]
fn heap<'a>(fields: Parts<'a>) -> Option<Form<'a>>
    ensures { result ≡ heap_of fields.entry }
{
    let (regions, rest) = number(fields)?;
    let (region_size, rest) = number(rest)?;
    alone(
        Form::Heap {
            regions,
            region_size,
        },
        rest,
    )
}

/// `up` or `down`
#[tactic(auto, unfolding(crate::specs::Forms::mapped_of))]
fn mapped_of(word: &[u8]) -> Option<bool>
    ensures { result ≡ mapped_of word.now }
{
    if is_word(word, b"up") {
        Some(true)
    } else if is_word(word, b"down") {
        Some(false)
    } else {
        None
    }
}

/// `window W X Y WIDTH HEIGHT RRGGBB OWNER up`, or `down`
#[tactic(auto, unfolding(crate::specs::Forms::window_of))]
fn window<'a>(fields: Parts<'a>) -> Option<Form<'a>>
    ensures { result ≡ window_of fields.entry }
{
    let (window, rest) = number(fields)?;
    let (x, rest) = number(rest)?;
    let (y, rest) = number(rest)?;
    let (width, rest) = number(rest)?;
    let (height, rest) = number(rest)?;
    let (background, rest) = colour(rest)?;
    let (owner, rest) = number(rest)?;
    let (state, rest) = word(rest)?;
    let mapped = mapped_of(state)?;
    alone(
        Form::Window(WindowForm {
            number: window,
            x,
            y,
            width,
            height,
            background,
            owner,
            mapped,
        }),
        rest,
    )
}

/// `client C W`
#[tactic(auto, unfolding(crate::specs::Forms::client_of))]
fn client<'a>(fields: Parts<'a>) -> Option<Form<'a>>
    ensures { result ≡ client_of fields.entry }
{
    let (client, rest) = number(fields)?;
    let (window, rest) = number(rest)?;
    alone(
        Form::Client {
            number: client,
            window,
        },
        rest,
    )
}

/// `l8` or `rgb565`
#[tactic(auto, unfolding(crate::specs::Forms::format_of))]
fn format_of(word: &[u8]) -> Option<TexFormat>
    ensures { result ≡ format_of word.now }
{
    if is_word(word, b"l8") {
        Some(TexFormat::L8)
    } else if is_word(word, b"rgb565") {
        Some(TexFormat::Rgb565)
    } else {
        None
    }
}

/// `texture T l8 WIDTH HEIGHT HEX`, or `rgb565`
#[tactic(auto, unfolding(crate::specs::Forms::texture_of))]
fn texture<'a>(fields: Parts<'a>) -> Option<Form<'a>>
    ensures { result ≡ texture_of fields.entry }
{
    let (texture, rest) = number(fields)?;
    let (format, rest) = word(rest)?;
    let format = format_of(format)?;
    let (width, rest) = number(rest)?;
    let (height, rest) = number(rest)?;
    let (image, rest) = word(rest)?;
    if !is_image(image) {
        return None;
    }
    let image = Digits::new(image);
    alone(
        Form::Texture(TextureForm {
            number: texture,
            format,
            width,
            height,
            image,
        }),
        rest,
    )
}

/// A line that begins or ends a block, or a texture's, by its first word, or else a line within a block.
#[tactic(auto, unfolding(crate::specs::Forms::block_of))]
fn block_of<'a>(name: &'a [u8], fields: Parts<'a>) -> Option<Form<'a>>
    ensures { result ≡ block_of name.now fields.entry }
{
    if is_word(name, b"client") {
        client(fields)
    } else if is_word(name, b"texture") {
        texture(fields)
    } else if is_word(name, b"server") {
        alone(Form::Server, fields)
    } else if is_word(name, b"turns") {
        alone(Form::Turns, fields)
    } else if is_word(name, b"end") {
        alone(Form::End, fields)
    } else {
        command_of(name, fields)
    }
}

/// A line outside the blocks, by its first word, or else a block's line.
#[tactic(auto, unfolding(crate::specs::Forms::head_of))]
fn head_of<'a>(name: &'a [u8], fields: Parts<'a>) -> Option<Form<'a>>
    ensures { result ≡ head_of name.now fields.entry }
{
    if is_word(name, b"dri") {
        title(fields)
    } else if is_word(name, b"screen") {
        screen(fields)
    } else if is_word(name, b"heap") {
        heap(fields)
    } else if is_word(name, b"window") {
        window(fields)
    } else if is_word(name, b"done") {
        alone(Form::Done, fields)
    } else {
        block_of(name, fields)
    }
}

/// The form of a line's bytes.
#[tactic(auto, unfolding(crate::specs::Forms::form_of))]
pub fn form_of<'a>(line: &'a [u8]) -> Option<Form<'a>>
    ensures { result ≡ form_of (parts_at 32 line.now) }
{
    let (name, fields) = word(Parts::new(line, b' '))?;
    head_of(name, fields)
}
