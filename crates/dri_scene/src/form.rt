//! The forms of a line, each read from its words. A form has the numbers as they are written, so none of them is out of
//! range; which forms may stand at a place of the text is decided later.

ghost use Rattle.std.specs.Prelude.{◌≡◌};
ghost use Rattle.std.specs.Str.{bytes_eq};
ghost use Rattle.dri_scene.specs.Forms.{number_in};

use dri_base::{Blend, DepthFunc, Rgb, Rgba, Shade, TexFormat, TexMode, Wrap};
use dri_words::{Parts, alone, number};
use std::marker::Model;

/// The hexadecimal digits of an image. Contracts see them as the list of their bytes.
#[derive(Drop)]
pub struct Digits<'a> {
    digits: &'a [u8],
}

impl<'a> Model for Digits<'a> {
    ghost use Rattle.std.specs.Prelude.{List, ℕ};

    ghost Value = { List ℕ };

    ghost view = { λ d. d.digits.now };
}

impl<'a> Digits<'a> {
    /// These digits.
    pub fn new(digits: &'a [u8]) -> Digits<'a>
        ensures { result ≡ digits.now }
    {
        Digits { digits }
    }

    /// The digits, from the left.
    pub fn as_slice(&self) -> &'a [u8]
        ensures { result.now ≡ self.now }
    {
        self.digits
    }
}

/// `window` and the numbers of a window line.
#[derive(Clone, Copy)]
pub struct WindowForm {
    pub number: i64,
    pub x: i64,
    pub y: i64,
    pub width: i64,
    pub height: i64,
    pub background: Rgb,
    pub owner: i64,
    pub mapped: bool,
}

/// `texture`: its number, its shape, and the digits of its image.
#[derive(Drop)]
pub struct TextureForm<'a> {
    pub number: i64,
    pub format: TexFormat,
    pub width: i64,
    pub height: i64,
    pub image: Digits<'a>,
}

/// A corner of a triangle.
#[derive(Clone, Copy)]
pub struct CornerForm {
    pub x: i64,
    pub y: i64,
    pub z: i64,
    pub colour: Rgba,
    pub s: i64,
    pub t: i64,
}

/// The four numbers of a scissor.
#[derive(Clone, Copy)]
pub struct ScissorForm {
    pub x1: i64,
    pub y1: i64,
    pub x2: i64,
    pub y2: i64,
}

/// What stands behind `set`.
#[derive(Clone, Copy)]
pub enum SettingForm {
    Shade(Shade),
    DepthFunc(DepthFunc),
    DepthWrite(bool),
    Blend(Blend),
    TexMode(TexMode),
    Wrap(Wrap),
    Bind(Option<i64>),
    Scissor(Option<ScissorForm>),
}

/// A command of a client.
#[derive(Clone, Copy)]
pub enum CommandForm {
    Set(SettingForm),
    Clear {
        colour: Rgb,
        depth: i64,
    },
    Triangle {
        a: CornerForm,
        b: CornerForm,
        c: CornerForm,
    },
    Swap,
    Yield,
    Die,
}

/// A change of the server.
#[derive(Clone, Copy)]
pub enum ChangeForm {
    Map {
        window: i64,
    },
    Unmap {
        window: i64,
    },
    Move {
        window: i64,
        x: i64,
        y: i64,
    },
    Resize {
        window: i64,
        width: i64,
        height: i64,
    },
    Raise {
        window: i64,
    },
    Lower {
        window: i64,
    },
}

/// An item of the schedule: `s`, a client's number, or `x` before one.
#[derive(Clone, Copy)]
pub enum ItemForm {
    Server,
    Turn { client: i64 },
    Kill { client: i64 },
}

/// A line, with its numbers as they are written.
#[derive(Drop)]
pub enum Form<'a> {
    Title,
    Screen { width: i64, height: i64, root: Rgb },
    Heap { regions: i64, region_size: i64 },
    Window(WindowForm),
    Client { number: i64, window: i64 },
    Texture(TextureForm<'a>),
    Command(CommandForm),
    Server,
    Change(ChangeForm),
    Turns,
    Item(ItemForm),
    End,
    Done,
}

/// The number that a whole word spells.
pub fn number_in(word: &[u8]) -> Option<i64>
    ensures { result ≡ number_in word.now }
{
    let (number, rest) = number(Parts::new(word, b' '))?;
    alone(number, rest)
}

/// Whether a word is this name.
pub fn is_word(word: &[u8], name: &[u8]) -> bool
    ensures { result ≡ bytes_eq word.now name.now }
{
    word == name
}
