//! The lines of a client's commands.

ghost use Rattle.std.specs.Prelude.{◌≡◌, ◌++◌, ◌∷◌, [], ℕ, List, codes, decimal, Some, OnOk};
ghost use Rattle.dri_base.specs.declared.command.Command.TheVariants as Command;
ghost use Rattle.dri_base.specs.declared.state.Setting.TheVariants as Setting;
ghost use Rattle.dri_scene.specs.Stored.{IsCorner, IsStoredCommand};
ghost use Rattle.dri_scene.specs.Texts.{Adds, blend_word, command_words, corner_words, depth_func_word, setting_words, shade_word, switch_word, tex_mode_word, wrap_word};
ghost use Rattle.dri_words.specs.Lines.{line_bytes, words_bytes};

use crate::words::{Word, end_line, push_bytes, push_line, push_word, push_words};
use dri_base::{
    Blend, ClipRect, Command, DepthFunc, Rgb, Setting, Shade, TexMode, Triangle, Vertex, Wrap,
};
use std::alloc::AllocError;

/// `flat` or `smooth`
fn shade_word(shade: Shade) -> &'static [u8]
    ensures { result.now ≡ shade_word shade }
{
    match shade {
        Shade::Flat => b"flat",
        Shade::Smooth => b"smooth",
    }
}

/// The depth functions.
fn depth_func_word(depth_func: DepthFunc) -> &'static [u8]
    ensures { result.now ≡ depth_func_word depth_func }
{
    match depth_func {
        DepthFunc::Never => b"never",
        DepthFunc::Less => b"less",
        DepthFunc::Equal => b"equal",
        DepthFunc::LessEqual => b"lequal",
        DepthFunc::Greater => b"greater",
        DepthFunc::NotEqual => b"notequal",
        DepthFunc::GreaterEqual => b"gequal",
        DepthFunc::Always => b"always",
    }
}

/// `on` or `off`
fn switch_word(on: bool) -> &'static [u8]
    ensures { result.now ≡ switch_word on }
{
    if on { b"on" } else { b"off" }
}

/// `off`, `alpha` or `add`
fn blend_word(blend: Blend) -> &'static [u8]
    ensures { result.now ≡ blend_word blend }
{
    match blend {
        Blend::Off => b"off",
        Blend::Alpha => b"alpha",
        Blend::Add => b"add",
    }
}

/// `off`, `replace` or `modulate`
fn tex_mode_word(tex_mode: TexMode) -> &'static [u8]
    ensures { result.now ≡ tex_mode_word tex_mode }
{
    match tex_mode {
        TexMode::Off => b"off",
        TexMode::Replace => b"replace",
        TexMode::Modulate => b"modulate",
    }
}

/// `repeat` or `clamp`
fn wrap_word(wrap: Wrap) -> &'static [u8]
    ensures { result.now ≡ wrap_word wrap }
{
    match wrap {
        Wrap::Repeat => b"repeat",
        Wrap::Clamp => b"clamp",
    }
}

/// `set`, a name and a word
fn push_plain_setting(text: &mut Vec<u8>, name: &[u8], word: &[u8]) -> Result<(), AllocError>
    ensures { OnOk result (Adds text.old.items (line_bytes (codes "set" ∷ name.now ∷ word.now ∷ [])) text.new.items) }
{
    push_bytes(text, b"set")?;
    push_word(text, name)?;
    push_word(text, word)?;
    end_line(text)
}

/// `set bind T`
fn push_bind(text: &mut Vec<u8>, texture: u32) -> Result<(), AllocError>
    ensures { OnOk result (Adds text.old.items (line_bytes (codes "set" ∷ codes "bind" ∷ decimal texture ∷ [])) text.new.items) }
{
    push_line(text, b"set bind", &[Word::Number(texture)])
}

/// `set scissor X1 Y1 X2 Y2`
fn push_scissor(text: &mut Vec<u8>, rect: &ClipRect) -> Result<(), AllocError>
    ensures { OnOk result (Adds text.old.items (line_bytes (codes "set" ∷ setting_words (Setting.Scissor (Some rect.now)))) text.new.items) }
{
    let words = [
        Word::Small(rect.x1),
        Word::Small(rect.y1),
        Word::Small(rect.x2),
        Word::Small(rect.y2),
    ];
    push_line(text, b"set scissor", &words)
}

/// `set` and a setting
fn push_setting(text: &mut Vec<u8>, setting: &Setting) -> Result<(), AllocError>
    ensures { OnOk result (Adds text.old.items (line_bytes (codes "set" ∷ setting_words setting.now)) text.new.items) }
{
    let (name, word): (&[u8], &[u8]) = match setting {
        Setting::Shade(shade) => (b"shade", shade_word(*shade)),
        Setting::DepthFunc(func) => (b"depth", depth_func_word(*func)),
        Setting::DepthWrite(on) => (b"write", switch_word(*on)),
        Setting::Blend(blend) => (b"blend", blend_word(*blend)),
        Setting::TexMode(mode) => (b"texmode", tex_mode_word(*mode)),
        Setting::Wrap(wrap) => (b"wrap", wrap_word(*wrap)),
        Setting::Bind(None) => (b"bind", b"none"),
        Setting::Bind(Some(texture)) => return push_bind(text, *texture),
        Setting::Scissor(None) => (b"scissor", b"none"),
        Setting::Scissor(Some(rect)) => return push_scissor(text, rect),
    };
    push_plain_setting(text, name, word)
}

/// `clear RRGGBB Z`
fn push_clear(text: &mut Vec<u8>, colour: Rgb, depth: u16) -> Result<(), AllocError>
    ensures text { OnOk result (Adds text.old.items (line_bytes (command_words (Command.Clear colour depth))) text.new.items) }
    ensures stored { OnOk result (IsStoredCommand (Command.Clear colour depth)) }
{
    let words = [Word::Colour(colour), Word::Small(depth)];
    push_line(text, b"clear", &words)
}

/// The words of a corner, each behind a space.
fn push_corner(text: &mut Vec<u8>, vertex: &Vertex) -> Result<(), AllocError>
    ensures text { OnOk result ((more : List (List ℕ)) → Adds text.old.items (words_bytes (corner_words vertex.now more)) (text.new.items ++ words_bytes more)) }
    ensures stored { OnOk result (IsCorner vertex.now) }
{
    let words = [
        Word::Signed(vertex.x),
        Word::Signed(vertex.y),
        Word::Small(vertex.z),
        Word::ColourAlpha(vertex.colour),
        Word::Small(vertex.s),
        Word::Small(vertex.t),
    ];
    push_words(text, &words)
}

/// `triangle` and three corners
fn push_triangle(text: &mut Vec<u8>, triangle: &Triangle) -> Result<(), AllocError>
    ensures text { OnOk result (Adds text.old.items (line_bytes (command_words (Command.Triangle triangle.now))) text.new.items) }
    ensures stored { OnOk result (IsStoredCommand (Command.Triangle triangle.now)) }
{
    push_bytes(text, b"triangle")?;
    push_corner(text, &triangle.a)?;
    push_corner(text, &triangle.b)?;
    push_corner(text, &triangle.c)?;
    end_line(text)
}

/// A command's line.
pub fn push_command(text: &mut Vec<u8>, command: &Command) -> Result<(), AllocError>
    ensures text { OnOk result (Adds text.old.items (line_bytes (command_words command.now)) text.new.items) }
    ensures stored { OnOk result (IsStoredCommand command.now) }
{
    match command {
        Command::Set(setting) => push_setting(text, setting),
        Command::Clear { colour, depth } => push_clear(text, *colour, *depth),
        Command::Triangle(triangle) => push_triangle(text, triangle),
        Command::Swap => push_bytes(text, b"swap\n"),
        Command::Yield => push_bytes(text, b"yield\n"),
        Command::Die => push_bytes(text, b"die\n"),
    }
}
