//! The number of each value in a register word.

ghost use Rattle.std.specs.Prelude.{◌≡◌, ◌≤◌, ◌+◌, ◌*◌};
ghost use Rattle.dri_model.specs.Groups.{shade_word, depth_word, blend_word, mode_word, wrap_word, flag_word, same_number, same_rect};
ghost use Rattle.dri_model.specs.Words.{format_word, halves, bound_words, scissor_words, IsBoundInRange};

use dri_base::{Blend, BoundTexture, ClipRect, DepthFunc, Shade, TexFormat, TexMode, Wrap};

/// The header of group 0. Each further group's header is one more.
pub const HEADER: u32 = 0x5200_0000;

/// The last group, the scissor's; the first is 0.
pub const LAST_GROUP: u32 = 6;

/// The most register words of a state: seven headers, and the words of each group.
pub const MOST_WORDS: usize = 7 + (1 + 2 + 1 + 1 + 1 + 3 + 3);

/// What a word of two numbers has of the upper one: it stands above sixteen bits.
pub const HALF: u32 = 65_536;

/// A texture's sides are 1 to this.
pub const LAST_SIDE: u32 = 256;

/// A scissor's numbers are 0 to this: twice the widest screen.
pub const LAST_EDGE: u32 = 2048;

pub fn shade_word(shade: Shade) -> u32
    ensures { result ≡ shade_word shade }
{
    match shade {
        Shade::Flat => 0,
        Shade::Smooth => 1,
    }
}

pub fn depth_word(func: DepthFunc) -> u32
    ensures { result ≡ depth_word func }
{
    match func {
        DepthFunc::Never => 0,
        DepthFunc::Less => 1,
        DepthFunc::Equal => 2,
        DepthFunc::LessEqual => 3,
        DepthFunc::Greater => 4,
        DepthFunc::NotEqual => 5,
        DepthFunc::GreaterEqual => 6,
        DepthFunc::Always => 7,
    }
}

pub fn flag_word(flag: bool) -> u32
    ensures { result ≡ flag_word flag }
{
    if flag { 1 } else { 0 }
}

pub fn blend_word(blend: Blend) -> u32
    ensures { result ≡ blend_word blend }
{
    match blend {
        Blend::Off => 0,
        Blend::Alpha => 1,
        Blend::Add => 2,
    }
}

pub fn mode_word(mode: TexMode) -> u32
    ensures { result ≡ mode_word mode }
{
    match mode {
        TexMode::Off => 0,
        TexMode::Replace => 1,
        TexMode::Modulate => 2,
    }
}

pub fn wrap_word(wrap: Wrap) -> u32
    ensures { result ≡ wrap_word wrap }
{
    match wrap {
        Wrap::Repeat => 0,
        Wrap::Clamp => 1,
    }
}

fn format_word(format: TexFormat) -> u32
    ensures { result ≡ format_word format }
{
    match format {
        TexFormat::L8 => 1,
        TexFormat::Rgb565 => 2,
    }
}

// Two numbers of sixteen bits in one word.
fn halves(low: u32, high: u32) -> u32
    requires low { low ≤ 65535 }
    requires high { high ≤ 65535 }
    ensures { result ≡ halves low high }
{
    low + HALF * high
}

/// The words of a bound texture, whose sides are 1 to 256.
pub fn bound_words(bound: Option<BoundTexture>) -> [u32; 3]
    requires { IsBoundInRange bound }
    ensures { result ≡ bound_words bound }
{
    match bound {
        None => [0, 0, 0],
        Some(texture) => [
            format_word(texture.shape.format),
            texture.base,
            halves(texture.shape.width, texture.shape.height),
        ],
    }
}

/// The words of a scissor.
pub fn scissor_words(scissor: Option<ClipRect>) -> [u32; 3]
    ensures { result ≡ scissor_words scissor }
{
    match scissor {
        None => [0, 0, 0],
        Some(rect) => [
            1,
            halves(u32::from(rect.x1), u32::from(rect.y1)),
            halves(u32::from(rect.x2), u32::from(rect.y2)),
        ],
    }
}

/// Whether both are none, or one number.
pub fn same_number(a: Option<u32>, b: Option<u32>) -> bool
    ensures { result ≡ same_number a b }
{
    match (a, b) {
        (None, None) => true,
        (Some(a), Some(b)) => a == b,
        _ => false,
    }
}

/// Whether both are none, or one rectangle.
pub fn same_rect(a: Option<ClipRect>, b: Option<ClipRect>) -> bool
    ensures { result ≡ same_rect a b }
{
    match (a, b) {
        (None, None) => true,
        (Some(a), Some(b)) => (a.x1 == b.x1 && a.y1 == b.y1) && (a.x2 == b.x2 && a.y2 == b.y2),
        _ => false,
    }
}
