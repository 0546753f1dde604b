//! The texture that a state binds, looked up by its number among the client's own, and its texels.

ghost use Rattle.std.specs.Prelude.{◌≡◌, All, IfSome, option_copied};
ghost use Rattle.dri_base.specs.Texels.{given_image, texel, texture_bound};
ghost use Rattle.dri_meaning.specs.Scripts.{HasTexels, image_of};

use dri_base::{Rgb, Texture, Wrap};
use dri_core::texture_in;
use dri_texel::fetch;

/// The texture that is bound, where there is one.
pub fn texture_bound(textures: &[Texture], bound: Option<u32>) -> Option<&Texture>
    requires { All HasTexels textures.now }
    ensures found { option_copied result ≡ texture_bound textures.now bound }
    ensures whole { IfSome (option_copied result) HasTexels }
{
    match bound {
        None => None,
        Some(number) => texture_in(textures, number),
    }
}

/// The texel of a texture at the coordinates s and t, in sixteenths of a texel.
pub fn texel_of(texture: &Texture, wrap: Wrap, s: u32, t: u32) -> Rgb
    requires { HasTexels texture.now }
    ensures { result ≡ texel (image_of texture.now) wrap s t }
{
    fetch(texture.bytes.as_slice(), 0, &texture.shape, wrap, s, t)
}
