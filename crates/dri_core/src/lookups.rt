//! What is looked up in a script's textures, and how many regions of texture memory a texture takes.

ghost use Rattle.std.specs.Prelude.{◌≡◌, ◌<◌, ◌≤◌, option_copied};
ghost use Rattle.dri_base.specs.Scenes.{regions_for};
ghost use Rattle.dri_base.specs.Texels.{texture_in};
ghost use Rattle.dri_core.specs.TextureSizes.{most_memory};

use dri_base::Texture;

/// The texture with this number, where there is one.
pub fn texture_in(textures: &[Texture], number: u32) -> Option<&Texture>
    ensures { option_copied result ≡ texture_in textures.now number }
{
    for texture in textures {
        if texture.number == number {
            return Some(texture);
        }
    }
    None
}

/// How many regions of a size, 1 to 65,536 bytes, so many bytes take. No texture memory has more bytes.
pub fn regions_for(size: u32, bytes: u32) -> u32
    requires some { 0 < size }
    requires size { size ≤ 65536 }
    requires bytes { bytes ≤ most_memory }
    ensures { result ≡ regions_for size bytes }
{
    (bytes + (size - 1)) / size
}
