//! The words of a printed line. A line is begun with its first word, further words are put behind a space each, and it is
//! ended with a newline.

ghost use Rattle.std.specs.Prelude.{◌≡◌, ◌++◌, ◌∷◌, [], ◌<◌, ◌≤◌, All, OnOk, decimal, map};
ghost use Rattle.std.specs.Fmt.{signed_decimal};
ghost use Rattle.std.specs.List.{flat_map};
ghost use Rattle.dri_scene.specs.Stored.{IsColour, IsColourAlpha, IsStoredWord};
ghost use Rattle.dri_scene.specs.Texts.{Adds, colour_alpha_word, colour_word, digit, format_word, hex, mapped_word, spaced, spelled};
ghost use Rattle.dri_words.specs.Lines.{line_bytes};

use dri_base::{Bytes, Rgb, Rgba, TexFormat};
use itoa::Buffer;
use std::alloc::AllocError;

/// A word of a line, behind its first word.
#[derive(Clone, Copy)]
pub enum Word {
    /// A number.
    Number(u32),
    /// A number of sixteen bits.
    Small(u16),
    /// A number of either sign.
    Signed(i32),
    /// `RRGGBB`
    Colour(Rgb),
    /// `RRGGBBAA`
    ColourAlpha(Rgba),
    /// `up` or `down`
    Mapped(bool),
    /// `l8` or `rgb565`
    Format(TexFormat),
}

/// Puts bytes as they are: a line's first word, or a whole line.
pub fn push_bytes(text: &mut Vec<u8>, bytes: &[u8]) -> Result<(), AllocError>
    ensures { OnOk result (Adds text.old.items bytes.now text.new.items) }
{
    text.extend_from_slice(bytes)
}

/// Ends the line.
pub fn end_line(text: &mut Vec<u8>) -> Result<(), AllocError>
    ensures { OnOk result (Adds text.old.items (10 ∷ []) text.new.items) }
{
    text.extend_from_slice(b"\n")
}

/// Puts a space and a word.
pub fn push_word(text: &mut Vec<u8>, word: &[u8]) -> Result<(), AllocError>
    ensures { OnOk result (Adds text.old.items (32 ∷ word.now) text.new.items) }
{
    text.extend_from_slice(b" ")?;
    text.extend_from_slice(word)
}

/// Puts a number as it is.
pub fn push_digits(text: &mut Vec<u8>, number: u32) -> Result<(), AllocError>
    ensures { OnOk result (Adds text.old.items (decimal number) text.new.items) }
{
    let mut digits = Buffer::new();
    push_bytes(text, digits.format(number).as_bytes())
}

/// Puts a space and a number of sixteen bits.
fn push_small(text: &mut Vec<u8>, number: u16) -> Result<(), AllocError>
    ensures text { OnOk result (Adds text.old.items (32 ∷ decimal number) text.new.items) }
    ensures stored { OnOk result (number < 65536) }
{
    let mut digits = Buffer::new();
    push_word(text, digits.format(number).as_bytes())
}

/// Puts a space and a number.
fn push_number(text: &mut Vec<u8>, number: u32) -> Result<(), AllocError>
    ensures { OnOk result (Adds text.old.items (32 ∷ decimal number) text.new.items) }
{
    let mut digits = Buffer::new();
    push_word(text, digits.format(number).as_bytes())
}

/// Puts a space and a number of either sign.
fn push_signed(text: &mut Vec<u8>, number: i32) -> Result<(), AllocError>
    ensures { OnOk result (Adds text.old.items (32 ∷ signed_decimal number) text.new.items) }
{
    let mut digits = Buffer::new();
    push_word(text, digits.format(number).as_bytes())
}

/// A hexadecimal digit in lower case, of a number below 16.
fn digit(n: u8) -> u8
    requires { n < 16 }
    ensures { result ≡ digit n }
{
    if n < 10 { n + b'0' } else { n - 10 + b'a' }
}

/// A byte as two hexadecimal digits.
fn hex(byte: u8) -> [u8; 2]
    ensures { result ≡ hex byte }
{
    [digit(byte / 16), digit(byte % 16)]
}

/// Puts a byte as two hexadecimal digits.
fn push_hex(text: &mut Vec<u8>, byte: u8) -> Result<(), AllocError>
    ensures { OnOk result (Adds text.old.items (hex byte) text.new.items) }
{
    text.extend_from_slice(&hex(byte))
}

/// Puts a space and a colour.
fn push_colour(text: &mut Vec<u8>, colour: Rgb) -> Result<(), AllocError>
    ensures text { OnOk result (Adds text.old.items (32 ∷ colour_word colour) text.new.items) }
    ensures stored { OnOk result (IsColour colour) }
{
    let [r1, r2] = hex(colour.r);
    let [g1, g2] = hex(colour.g);
    let [b1, b2] = hex(colour.b);
    push_word(text, &[r1, r2, g1, g2, b1, b2])
}

/// Puts a space and a colour with its alpha.
fn push_colour_alpha(text: &mut Vec<u8>, colour: Rgba) -> Result<(), AllocError>
    ensures text { OnOk result (Adds text.old.items (32 ∷ colour_alpha_word colour) text.new.items) }
    ensures stored { OnOk result (IsColourAlpha colour) }
{
    let [r1, r2] = hex(colour.r);
    let [g1, g2] = hex(colour.g);
    let [b1, b2] = hex(colour.b);
    let [a1, a2] = hex(colour.a);
    push_word(text, &[r1, r2, g1, g2, b1, b2, a1, a2])
}

/// Puts a space and an image, two digits for each byte.
pub fn push_image(text: &mut Vec<u8>, image: &Bytes) -> Result<(), AllocError>
    ensures text { OnOk result (Adds text.old.items (32 ∷ flat_map hex image.now) text.new.items) }
    ensures stored { OnOk result (All (λ b. b < 256) image.now) }
{
    text.extend_from_slice(b" ")?;
    for byte in image.as_slice() {
        push_hex(text, *byte)?;
    }
    Ok(())
}

/// `up` or `down`
fn mapped_word(mapped: bool) -> &'static [u8]
    ensures { result.now ≡ mapped_word mapped }
{
    if mapped { b"up" } else { b"down" }
}

/// `l8` or `rgb565`
fn format_word(format: TexFormat) -> &'static [u8]
    ensures { result.now ≡ format_word format }
{
    match format {
        TexFormat::L8 => b"l8",
        TexFormat::Rgb565 => b"rgb565",
    }
}

/// Puts a space and a word as it is spelled.
fn push_spelled(text: &mut Vec<u8>, word: &Word) -> Result<(), AllocError>
    ensures text { OnOk result (Adds text.old.items (spaced word.now) text.new.items) }
    ensures stored { OnOk result (IsStoredWord word.now) }
{
    match word {
        Word::Number(number) => push_number(text, *number),
        Word::Small(number) => push_small(text, *number),
        Word::Signed(number) => push_signed(text, *number),
        Word::Colour(colour) => push_colour(text, *colour),
        Word::ColourAlpha(colour) => push_colour_alpha(text, *colour),
        Word::Mapped(mapped) => push_word(text, mapped_word(*mapped)),
        Word::Format(format) => push_word(text, format_word(*format)),
    }
}

/// Puts words, each behind a space.
pub fn push_words(text: &mut Vec<u8>, words: &[Word]) -> Result<(), AllocError>
    ensures text { OnOk result (Adds text.old.items (flat_map spaced words.now) text.new.items) }
    ensures stored { OnOk result (All IsStoredWord words.now) }
{
    for word in words {
        push_spelled(text, word)?;
    }
    Ok(())
}

/// Puts a line: its first words as they are, the words behind them, and a newline.
pub fn push_line(text: &mut Vec<u8>, name: &[u8], words: &[Word]) -> Result<(), AllocError>
    ensures text { OnOk result (Adds text.old.items (line_bytes (name.now ∷ map spelled words.now)) text.new.items) }
    ensures stored { OnOk result (All IsStoredWord words.now) }
{
    push_bytes(text, name)?;
    push_words(text, words)?;
    end_line(text)
}
