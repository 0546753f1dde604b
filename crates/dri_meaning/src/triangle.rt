//! What a triangle leaves at one pixel of the window, by the pixel rule: where it covers the pixel, and the pixel is in
//! the scissor, its own colour, the texel and the depth there make a fragment, which meets the pair under it.

ghost use Rattle.std.specs.Prelude.{◌≡◌, IfSome, IsTrue, option_copied};
ghost use Rattle.dri_base.specs.Coverage.{covers, quantity};
ghost use Rattle.dri_base.specs.Fragments.{fragment, in_scissor, rules_of, shaded};
ghost use Rattle.dri_base.specs.Ranges.{TriangleInRange};
ghost use Rattle.dri_base.specs.Texels.{given_image};
ghost use Rattle.dri_raster.specs.Channels.{most, value_of};
ghost use Rattle.dri_texel.specs.Pixels.{texel_used, view_of};
ghost use Rattle.dri_meaning.specs.Scripts.{HasTexels, IsWindowPlace};

use crate::bound::texel_of;
use dri_base::{ClipRect, Pixel, Rgb, Rgba, Shade, State, TexMode, Texture, Triangle};
use dri_raster::{Channel, Setup};
use dri_texel::{RegisterView, fragment, pixel_rule};

/// Whether a window's pixel lies in the scissor, where there is one.
fn in_scissor(scissor: Option<ClipRect>, x: i32, y: i32) -> bool
    ensures { result ≡ in_scissor scissor x y }
{
    match scissor {
        None => true,
        Some(rect) => {
            let in_columns = i32::from(rect.x1) <= x && x < i32::from(rect.x2);
            let in_rows = i32::from(rect.y1) <= y && y < i32::from(rect.y2);
            in_columns && in_rows
        }
    }
}

/// A channel of the triangle's colour at a pixel that it covers.
fn colour_channel(setup: &Setup, channel: Channel, x: i32, y: i32) -> u8
    requires covered { IsTrue (covers setup.now x y) }
    requires colour { most channel ≡ 255 }
    ensures { result ≡ quantity setup.now (value_of channel) x y }
{
    setup.value_at(channel, x, y) as u8
}

/// The triangle's own colour at a pixel that it covers.
fn shaded(setup: &Setup, shade: Shade, third: Rgba, x: i32, y: i32) -> Rgba
    requires covered { IsTrue (covers setup.now x y) }
    requires third { third ≡ setup.now.c.colour }
    ensures { result ≡ shaded shade setup.now x y }
{
    match shade {
        Shade::Flat => third,
        Shade::Smooth => Rgba {
            r: colour_channel(setup, Channel::R, x, y),
            g: colour_channel(setup, Channel::G, x, y),
            b: colour_channel(setup, Channel::B, x, y),
            a: colour_channel(setup, Channel::A, x, y),
        },
    }
}

/// The texel that is used at a pixel that the triangle covers: none where the mode is off or no texture is bound.
fn texel_used(
    setup: &Setup,
    state: &State,
    texture: Option<&Texture>,
    x: i32,
    y: i32,
) -> Option<Rgb>
    requires covered { IsTrue (covers setup.now x y) }
    requires whole { IfSome (option_copied texture) HasTexels }
    ensures { result ≡ texel_used state.now.tex_mode (given_image (option_copied texture.entry)) state.now.wrap (quantity setup.now (λ v. v.s) x y) (quantity setup.now (λ v. v.t) x y) }
{
    let Some(texture) = texture else {
        return None;
    };
    if let TexMode::Off = state.tex_mode {
        return None;
    }
    let s = setup.value_at(Channel::S, x, y);
    let t = setup.value_at(Channel::T, x, y);
    Some(texel_of(texture, state.wrap, s, t))
}

/// What the pixel rule reads of a state once a pixel is covered and in the scissor.
fn view_of(state: &State) -> RegisterView
    ensures { result ≡ view_of (rules_of state.now) }
{
    RegisterView {
        depth_func: state.depth_func,
        depth_write: state.depth_write,
        blend: state.blend,
        tex_mode: state.tex_mode,
    }
}

/// The pair that a triangle leaves at a window's pixel, over the pair under it, in a state and with the texture that is
/// bound.
pub fn triangle_at(
    triangle: &Triangle,
    state: &State,
    texture: Option<&Texture>,
    x: i32,
    y: i32,
    under: Pixel,
) -> Pixel
    requires range { TriangleInRange triangle.now }
    requires whole { IfSome (option_copied texture) HasTexels }
    requires x { IsWindowPlace x }
    requires y { IsWindowPlace y }
    ensures { result ≡ fragment (rules_of state.now) (given_image (option_copied texture.entry)) triangle.now x y under }
{
    let Some(setup) = Setup::new(triangle) else {
        return under;
    };
    if !setup.covers(x, y) {
        return under;
    }
    if !in_scissor(state.scissor, x, y) {
        return under;
    }
    pixel_rule();
    let texel = texel_used(&setup, state, texture, x, y);
    let colour = shaded(&setup, state.shade, triangle.c.colour, x, y);
    let z = setup.value_at(Channel::Z, x, y) as u16;
    fragment(&view_of(state), texel, colour, z, under)
}
