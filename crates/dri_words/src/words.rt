//! Words of a line, read from the left: each reader takes the words that are left and gives a value with the words
//! after it. Numbers are `0`, or a digit 1 to 9 followed by at most nine digits, or such a number above 0 with `-` before
//! it; colours have two lower-case hexadecimal digits a channel.

ghost use Rattle.std.specs.Prelude.{◌≡◌, ◌<◌, IfSome};
ghost use Rattle.std.specs.Option.{option_map};
ghost use Rattle.dri_words.specs.Words.{NumbersAreDecimal, alone, negative_of, colour_alpha_at, colour_alpha_of, signed_of, byte_of, colour_at, colour_of, digits_from, nibble_of, number_at, number_of, word_at};

use crate::parts::Parts;
use dri_base::{Rgb, Rgba};

/// The number that digits spell, at most ten of them.
fn digits(word: &[u8]) -> Option<u64>
    ensures value { result ≡ digits_from 0 word.now }
    ensures small { IfSome result (λ n. n < 10000000000) }
{
    let mut number = 0u64;
    for c in word {
        if !c.is_ascii_digit() || number >= 1_000_000_000 {
            return None;
        }
        number = number * 10 + u64::from(*c - b'0');
    }
    Some(number)
}

/// The number from 0 on that a word spells.
fn number_of(word: &[u8]) -> Option<u64>
    ensures value { result ≡ number_of word.now }
    ensures small { IfSome result (λ n. n < 10000000000) }
{
    match word {
        [] => None,
        [b'0'] => Some(0),
        [b'0', ..] => None,
        _ => digits(word),
    }
}

/// A word spells a number exactly where it is the number's decimal digits. It does nothing: its contract is the law.
pub fn numbers_are_decimal()
    ensures { NumbersAreDecimal }
{}

/// The value of a hexadecimal digit in lower case.
fn nibble_of(c: u8) -> Option<u8>
    ensures { result ≡ nibble_of c }
{
    match c {
        b'0'..=b'9' => Some(c - b'0'),
        b'a'..=b'f' => Some(c - b'a' + 10),
        _ => None,
    }
}

/// The byte that two hexadecimal digits spell.
fn byte_of(high: u8, low: u8) -> Option<u8>
    ensures { result ≡ byte_of high low }
{
    let high = nibble_of(high)?;
    let low = nibble_of(low)?;
    Some(16 * high + low)
}

/// The colour that six hexadecimal digits spell.
fn colour_of(word: &[u8]) -> Option<Rgb>
    ensures { result ≡ colour_of word.now }
{
    match word {
        [a, b, c, d, e, f] => Some(Rgb {
            r: byte_of(*a, *b)?,
            g: byte_of(*c, *d)?,
            b: byte_of(*e, *f)?,
        }),
        _ => None,
    }
}

/// The next word. None where no word is left.
pub fn word(mut words: Parts<'_>) -> Option<(&[u8], Parts<'_>)>
    ensures { option_map (λ x. (x.0.now, x.1)) result ≡ word_at words.entry }
{
    let word = words.next()?;
    Some((word, words))
}

/// The number below 0 whose digits stand behind a minus sign.
fn negative_of(digits: &[u8]) -> Option<i64>
    ensures { result ≡ negative_of digits.now }
{
    let number = number_of(digits)?;
    if number == 0 {
        None
    } else {
        Some(-(number as i64))
    }
}

/// The number that a word spells.
fn signed_of(word: &[u8]) -> Option<i64>
    ensures { result ≡ signed_of word.now }
{
    match word {
        [] => None,
        [b'-', rest @ ..] => negative_of(rest),
        _ => {
            let number = number_of(word)?;
            Some(number as i64)
        }
    }
}

/// A number, as it is written, of either sign. None where the next word isn't one.
#[tactic(auto, unfolding(crate::specs::Words::number_at))]
pub fn number(words: Parts<'_>) -> Option<(i64, Parts<'_>)>
    ensures { option_map (λ x. (x.0, x.1)) result ≡ number_at words.entry }
{
    let (word, rest) = word(words)?;
    let number = signed_of(word)?;
    Some((number, rest))
}

/// A colour of six hexadecimal digits. None where the next word isn't one.
#[tactic(auto, unfolding(crate::specs::Words::colour_at))]
pub fn colour(words: Parts<'_>) -> Option<(Rgb, Parts<'_>)>
    ensures { option_map (λ x. (x.0, x.1)) result ≡ colour_at words.entry }
{
    let (word, rest) = word(words)?;
    let colour = colour_of(word)?;
    Some((colour, rest))
}

/// The colour with alpha that eight hexadecimal digits spell.
fn colour_alpha_of(word: &[u8]) -> Option<Rgba>
    ensures { result ≡ colour_alpha_of word.now }
{
    match word {
        [a, b, c, d, e, f, g, h] => Some(Rgba {
            r: byte_of(*a, *b)?,
            g: byte_of(*c, *d)?,
            b: byte_of(*e, *f)?,
            a: byte_of(*g, *h)?,
        }),
        _ => None,
    }
}

/// A colour of eight hexadecimal digits. None where the next word isn't one.
#[tactic(auto, unfolding(crate::specs::Words::colour_alpha_at))]
pub fn colour_alpha(words: Parts<'_>) -> Option<(Rgba, Parts<'_>)>
    ensures { option_map (λ x. (x.0, x.1)) result ≡ colour_alpha_at words.entry }
{
    let (word, rest) = word(words)?;
    let colour = colour_alpha_of(word)?;
    Some((colour, rest))
}

/// The value, where no word is left.
pub fn alone<T: Drop>(value: T, words: Parts<'_>) -> Option<T>
    ensures value { result ≡ alone value words.entry }
    ensures same { IfSome result (λ v. v ≡ value) }
{
    if words.is_empty() { Some(value) } else { None }
}
