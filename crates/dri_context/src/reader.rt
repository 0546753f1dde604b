//! Register words are read one by one. Between groups the next word is the header of a later group; within a group it is
//! one of the group's words, and with the last of these the group's registers change.

ghost use Rattle.std.specs.Prelude.{◌≡◌, ◌≤◌, ◌+◌, ◌*◌, IfSome};
ghost use Rattle.dri_context.specs.Reading.{shade_of, depth_of, blend_of, mode_of, wrap_of, format_of, is_texture_side, fits_bound, fits_scissor, IsReader, bound_of, scissor_of, fits, size, with_group, header_read, word_taken, after, opened};

use crate::values::{HALF, HEADER, LAST_EDGE, LAST_GROUP, LAST_SIDE};
use dri_base::{
    Blend, BoundTexture, ClipRect, DepthFunc, Registers, Shade, TexFormat, TexMode, TexShape, Wrap,
};

/// What the words so far have left: the registers; the group that a word lies in, or, between groups, the least that
/// may come; which of the group's words comes next, from 1, or 0 between groups; and the group's first two words.
#[derive(Clone, Copy, Drop)]
pub struct Reader {
    pub registers: Registers,
    pub group: u32,
    pub at: u32,
    pub first: u32,
    pub second: u32,
}

fn shade_of(word: u32) -> Shade
    ensures { result ≡ shade_of word }
{
    if word == 0 {
        return Shade::Flat;
    }
    Shade::Smooth
}

fn depth_of(word: u32) -> DepthFunc
    ensures { result ≡ depth_of word }
{
    match word {
        0 => DepthFunc::Never,
        1 => DepthFunc::Less,
        2 => DepthFunc::Equal,
        3 => DepthFunc::LessEqual,
        4 => DepthFunc::Greater,
        5 => DepthFunc::NotEqual,
        6 => DepthFunc::GreaterEqual,
        _ => DepthFunc::Always,
    }
}

fn blend_of(word: u32) -> Blend
    ensures { result ≡ blend_of word }
{
    match word {
        0 => Blend::Off,
        1 => Blend::Alpha,
        _ => Blend::Add,
    }
}

fn mode_of(word: u32) -> TexMode
    ensures { result ≡ mode_of word }
{
    match word {
        0 => TexMode::Off,
        1 => TexMode::Replace,
        _ => TexMode::Modulate,
    }
}

fn wrap_of(word: u32) -> Wrap
    ensures { result ≡ wrap_of word }
{
    if word == 0 {
        return Wrap::Repeat;
    }
    Wrap::Clamp
}

fn format_of(word: u32) -> TexFormat
    ensures { result ≡ format_of word }
{
    if word == 1 {
        return TexFormat::L8;
    }
    TexFormat::Rgb565
}

fn bound_of(format: u32, base: u32, sides: u32) -> Option<BoundTexture>
    ensures { result ≡ bound_of format base sides }
{
    if format == 0 {
        return None;
    }
    let shape = TexShape {
        format: format_of(format),
        width: sides % HALF,
        height: sides / HALF,
    };
    Some(BoundTexture { shape, base })
}

fn scissor_of(flag: u32, upper: u32, lower: u32) -> Option<ClipRect>
    ensures { result ≡ scissor_of flag upper lower }
{
    if flag == 0 {
        return None;
    }
    Some(ClipRect {
        x1: (upper % HALF) as u16,
        y1: (upper / HALF) as u16,
        x2: (lower % HALF) as u16,
        y2: (lower / HALF) as u16,
    })
}

// How many words a group has behind its header.
fn size(group: u32) -> u32
    ensures value { result ≡ size group }
    ensures some { 1 ≤ result }
    ensures most { result ≤ 3 }
{
    match group {
        1 => 2,
        5 | 6 => 3,
        _ => 1,
    }
}

fn is_texture_side(side: u32) -> bool
    ensures { result ≡ is_texture_side side }
{
    1 <= side && side <= LAST_SIDE
}

// Whether a word can stand behind the first word of a bound texture.
fn fits_bound(at: u32, first: u32, word: u32) -> bool
    ensures { result ≡ fits_bound at first word }
{
    if at == 1 {
        return word < 3;
    }
    if first == 0 {
        return word == 0;
    }
    if at == 2 {
        return true;
    }
    is_texture_side(word % HALF) && is_texture_side(word / HALF)
}

// The same of a scissor.
fn fits_scissor(at: u32, first: u32, word: u32) -> bool
    ensures { result ≡ fits_scissor at first word }
{
    if at == 1 {
        return word < 2;
    }
    if first == 0 {
        return word == 0;
    }
    word % HALF <= LAST_EDGE && word / HALF <= LAST_EDGE
}

// Whether a word can be the group's word at that place, behind its first word.
fn fits(group: u32, at: u32, first: u32, word: u32) -> bool
    ensures { result ≡ fits group at first word }
{
    match group {
        0 => word < 2,
        1 => {
            if at == 1 {
                return word < 8;
            }
            word < 2
        }
        2 => word < 3,
        3 => word < 3,
        4 => word < 2,
        5 => fits_bound(at, first, word),
        _ => fits_scissor(at, first, word),
    }
}

// The registers with a group's words.
fn with_group(registers: Registers, group: u32, first: u32, second: u32, word: u32) -> Registers
    ensures { result ≡ with_group group first second word registers }
{
    match group {
        0 => Registers {
            shade: shade_of(word),
            ..registers
        },
        1 => Registers {
            depth_func: depth_of(first),
            depth_write: word == 1,
            ..registers
        },
        2 => Registers {
            blend: blend_of(word),
            ..registers
        },
        3 => Registers {
            tex_mode: mode_of(word),
            ..registers
        },
        4 => Registers {
            wrap: wrap_of(word),
            ..registers
        },
        5 => Registers {
            bound: bound_of(first, second, word),
            ..registers
        },
        _ => Registers {
            scissor: scissor_of(first, second, word),
            ..registers
        },
    }
}

impl Reader {
    /// No word is read.
    pub fn new(registers: Registers) -> Reader
        ensures { result ≡ opened registers }
    {
        Reader {
            registers,
            group: 0,
            at: 0,
            first: 0,
            second: 0,
        }
    }

    // Between groups: the header of a group that may come.
    fn header(self, word: u32) -> Option<Reader>
        requires reader { IsReader self }
        requires between { self.at ≡ 0 }
        ensures value { result ≡ header_read self word }
        ensures reader { IfSome result IsReader }
        ensures count { IfSome result (λ r. 4 * self.group + self.at + 1 ≤ 4 * r.group + r.at) }
    {
        if word < HEADER + self.group || HEADER + LAST_GROUP < word {
            return None;
        }
        Some(Reader {
            group: word - HEADER,
            at: 1,
            ..self
        })
    }

    // Within a group: a word that fits.
    fn take(self, word: u32) -> Reader
        requires reader { IsReader self }
        requires within { self.at ≡ 0 → ⊥ }
        ensures value { result ≡ word_taken self word }
        ensures reader { IsReader result }
        ensures count { 4 * self.group + self.at + 1 ≤ 4 * result.group + result.at }
    {
        if self.at == size(self.group) {
            return Reader {
                registers: with_group(self.registers, self.group, self.first, self.second, word),
                group: self.group + 1,
                at: 0,
                ..self
            };
        }
        if self.at == 1 {
            return Reader {
                first: word,
                at: 2,
                ..self
            };
        }
        Reader {
            second: word,
            at: 3,
            ..self
        }
    }

    /// What one word more leaves, where register words can go on with it.
    pub fn after(self, word: u32) -> Option<Reader>
        requires { IsReader self }
        ensures value { result ≡ after self word }
        ensures reader { IfSome result IsReader }
        ensures count { IfSome result (λ r. 4 * self.group + self.at + 1 ≤ 4 * r.group + r.at) }
    {
        if self.at == 0 {
            return self.header(word);
        }
        if !fits(self.group, self.at, self.first, word) {
            return None;
        }
        Some(self.take(word))
    }
}
