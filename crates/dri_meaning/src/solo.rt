//! A frame drawn alone, at one pixel: the plain, slow program whose contract is the definition. It goes through the
//! script once to find the frame, and once through the commands up to the frame's end, with the state beside it.

ghost use Rattle.std.specs.Prelude.{◌≡◌, ◌≤◌, ◌<◌, ◌-◌, Some, length, suc};
ghost use Rattle.dri_base.specs.Fragments.{fragment, rules_of};
ghost use Rattle.dri_base.specs.Ranges.{CommandInRange, TriangleInRange, texture_numbers};
ghost use Rattle.dri_base.specs.Texels.{own_image};
ghost use Rattle.dri_meaning.specs.Scripts.{IsWindowPlace, ScriptInRange};
ghost use Rattle.dri_core.specs.Solo.{blank, drawn_by, solo, solo_frame};

use crate::bound::texture_bound;
use crate::frame::{Frame, frame_of};
use crate::settings::{state_after, state_at};
use crate::triangle::triangle_at;
use dri_base::{ClientScript, Command, Pixel, Rgb, State, Triangle};

/// Black, as deep as can be: what stands under a frame's clear.
pub const BLANK: Pixel = Pixel {
    colour: Rgb { r: 0, g: 0, b: 0 },
    depth: 65535,
};

/// The pair that a triangle of the script leaves in a state at a window's pixel, over the pair under it.
fn triangle_drawn(
    script: &ClientScript,
    state: &State,
    triangle: &Triangle,
    x: i32,
    y: i32,
    under: Pixel,
) -> Pixel
    requires script { ScriptInRange script.now }
    requires range { TriangleInRange triangle.now }
    requires x { IsWindowPlace x }
    requires y { IsWindowPlace y }
    ensures { result ≡ fragment (rules_of state.now) (own_image script.now.textures state.now.bound) triangle.now x y under }
{
    let texture = texture_bound(script.textures.as_slice(), state.bound);
    triangle_at(triangle, state, texture, x, y, under)
}

/// The pair that a command of the script leaves in a state at a window's pixel, over the pair under it.
fn drawn_by(
    script: &ClientScript,
    state: &State,
    command: &Command,
    x: i32,
    y: i32,
    under: Pixel,
) -> Pixel
    requires script { ScriptInRange script.now }
    requires range { CommandInRange (texture_numbers script.now.textures) command.now }
    requires x { IsWindowPlace x }
    requires y { IsWindowPlace y }
    ensures { result ≡ drawn_by (rules_of state.now) (own_image script.now.textures state.now.bound) (Some command.now) x y under }
{
    match command {
        Command::Clear { colour, depth } => Pixel {
            colour: *colour,
            depth: *depth,
        },
        Command::Triangle(triangle) => triangle_drawn(script, state, triangle, x, y, under),
        _ => under,
    }
}

/// The pair that a frame leaves at a window's pixel.
pub fn solo(script: &ClientScript, frame: Frame, x: i32, y: i32) -> Pixel
    requires script { ScriptInRange script.now }
    requires first { 0 < frame.clear }
    requires order { frame.clear < frame.swap }
    requires within { frame.swap ≤ length script.now.commands }
    requires x { IsWindowPlace x }
    requires y { IsWindowPlace y }
    ensures { result ≡ solo script.now frame.clear (frame.swap - suc frame.clear) x y }
{
    let mut state = state_at(script.commands.as_slice(), frame.clear);
    let mut pixel = BLANK;
    for n in 0..frame.swap - frame.clear {
        let command = script.commands.get(frame.clear - 1 + n);
        pixel = drawn_by(script, &state, command, x, y, pixel);
        state = state_after(command, state);
    }
    pixel
}

/// The colour of frame `frame`, drawn alone, at the window's pixel (x, y), each 0 to 1,023. It is None exactly where the
/// frame doesn't exist or doesn't begin with a clear. The script is a client's of a scene in range.
pub fn solo_pixel(script: &ClientScript, frame: u32, x: i32, y: i32) -> Option<Rgb>
    requires script { ScriptInRange script.now }
    requires x { IsWindowPlace x }
    requires y { IsWindowPlace y }
    ensures { result ≡ solo_frame script.now frame x y }
{
    let frame = frame_of(script.commands.as_slice(), frame)?;
    Some(solo(script, frame, x, y).colour)
}
