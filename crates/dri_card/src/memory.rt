//! The texture memory: bytes that images are written into, and the tests that bytes end in it and that an image lies in it.

ghost use Rattle.std.specs.Prelude.{◌≡◌, ◌≤◌, ◌<◌, ◌+◌, ℕ, length, replicate, get_or, IfOk, OnOk, IfErr, IsOk, ◌↔◌};
ghost use Rattle.dri_base.specs.Ranges.{IsWithin};
ghost use Rattle.dri_model.specs.Heaps.{uploaded};
ghost use Rattle.dri_model.specs.Words.{IsBoundInRange};
ghost use Rattle.dri_card.specs.Loading.{IsImageWithin, PassesMemory, image_bytes};
ghost use Rattle.dri_walk.specs.Samplings.{byte_in};
ghost use Rattle.dri_card.specs.declared.faults.OutsideCard.TheVariants.{Base};

use crate::faults::OutsideCard;
use dri_base::{BoundTexture, OutOfMemory, TexFormat, TexShape};
use std::alloc::Global;

/// That many bytes, all of them 0.
pub fn zeros(alloc: Global, number: usize) -> Result<Vec<u8>, OutOfMemory>
    ensures { IfOk result (λ bytes. bytes.items ≡ replicate number 0) }
{
    Ok(vec![in alloc; 0; number]?)
}

/// Refuses so many bytes from a base on exactly where they end beyond a texture memory of so many bytes. There are at most
/// 4,294,967,295 of them.
pub fn expect_room(base: u32, number: usize, bytes: usize) -> Result<(), OutsideCard>
    requires { number ≤ 4294967295 }
    ensures within { IsOk result ↔ (base + number ≤ bytes) }
    ensures outside { IfErr result (λ outside. outside ≡ Base base number) }
{
    if bytes < base as usize + number {
        return Err(OutsideCard::Base {
            base,
            len: number as u32,
        });
    }
    Ok(())
}

/// Writes bytes over those of the memory, from a place on.
pub fn write(memory: &mut [u8], start: usize, bytes: &[u8])
    requires { start + length bytes.now ≤ length memory.old }
    ensures bytes { (a : ℕ) → a < length memory.old → byte_in memory.new a ≡ uploaded (byte_in memory.old) start bytes.now a }
    ensures len { length memory.new ≡ length memory.old }
{
    memory[start..start + bytes.len()].copy_from_slice(bytes);
}

/// Refuses a bound image that passes so many bytes of memory. Its sides are 1 to 256.
pub fn expect_within(bound: &Option<BoundTexture>, bytes: usize) -> Result<(), OutsideCard>
    requires { IsBoundInRange bound.now }
    ensures within { OnOk result (IsImageWithin bytes bound.now) }
    ensures passes { IfErr result (PassesMemory bytes bound.now) }
{
    let Some(texture) = bound else {
        return Ok(());
    };
    let len = image_bytes(&texture.shape);
    if bytes < texture.base as usize + len as usize {
        return Err(OutsideCard::Base {
            base: texture.base,
            len,
        });
    }
    Ok(())
}

// How many bytes an image has.
fn image_bytes(shape: &TexShape) -> u32
    requires wide { IsWithin 1 256 shape.now.width }
    requires high { IsWithin 1 256 shape.now.height }
    ensures { result ≡ image_bytes shape.now }
{
    let texels = shape.width * shape.height;
    match shape.format {
        TexFormat::L8 => texels,
        TexFormat::Rgb565 => 2 * texels,
    }
}
