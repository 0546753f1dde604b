//! The reading of an image in which nothing is wrong.

ghost use Rattle.std.specs.Prelude.{◌≡◌, ◌≤◌, ◌<◌, ◌+◌, ◌*◌, ℕ, length, get_or, None, IfOk};
ghost use Rattle.dri_sarea.specs.Areas.{no_drawable, no_region};
ghost use Rattle.dri_sarea.specs.Layouts.{pieces, drawable_fields, drawable_values, entry_fields, entry_values};
ghost use Rattle.dri_sarea.specs.Images.{first_bad, numbers_at};

use crate::check::number_at;
use crate::drawable::Drawable;
use crate::layout::{
    DRAWABLE_COUNT, DRAWABLE_SIZE, DRAWABLES, ENTRIES, ENTRY_COUNT, ENTRY_SIZE, Width,
};
use dri_base::{OutOfMemory, TexRegion};
use std::alloc::Global;

/// An entry that no region has.
pub const NO_REGION: TexRegion = TexRegion {
    next: 0,
    prev: 0,
    in_use: 0,
    age: 0,
};

/// The 256 drawables.
pub fn read_drawables(alloc: Global, bytes: &[u8]) -> Result<Vec<Drawable>, OutOfMemory>
    requires { length bytes.now ≡ 8192 }
    ensures values { IfOk result (λ list. numbers_at bytes.now 128 (pieces (λ i. drawable_fields) 256) ≡ pieces (λ i. drawable_values (get_or list.items i no_drawable)) 256) }
    ensures size { IfOk result (λ list. length list.items ≡ 256) }
{
    let mut list = Vec::with_capacity(alloc, DRAWABLE_COUNT)?;
    for i in 0..DRAWABLE_COUNT {
        let at = DRAWABLES + DRAWABLE_SIZE * i;
        list.push(Drawable {
            stamp: number_at(bytes, at, Width::Number),
            flags: number_at(bytes, at + 4, Width::Number),
        })?;
    }
    Ok(list)
}

// An entry of the list of regions.
fn read_entry(bytes: &[u8], count: u32, i: usize) -> TexRegion
    requires whole { length bytes.now ≡ 8192 }
    requires i { i < 65 }
    requires good { first_bad bytes.now (2216 + 8 * i) (entry_fields count i) ≡ None }
    ensures values { numbers_at bytes.now (2216 + 8 * i) (entry_fields count i) ≡ entry_values count i result }
    ensures unused { count < i → result ≡ no_region }
{
    if (count as usize) < i {
        return NO_REGION;
    }
    let at = ENTRIES + ENTRY_SIZE * i;
    TexRegion {
        next: bytes[at],
        prev: bytes[at + 1],
        in_use: bytes[at + 2],
        age: number_at(bytes, at + 4, Width::Number),
    }
}

/// The 65 entries of the list of regions.
pub fn read_entries(alloc: Global, bytes: &[u8], count: u32) -> Result<Vec<TexRegion>, OutOfMemory>
    requires whole { length bytes.now ≡ 8192 }
    requires good { first_bad bytes.now 2216 (pieces (entry_fields count) 65) ≡ None }
    ensures values { IfOk result (λ list. numbers_at bytes.now 2216 (pieces (entry_fields count) 65) ≡ pieces (λ i. entry_values count i (get_or list.items i no_region)) 65) }
    ensures size { IfOk result (λ list. length list.items ≡ 65) }
    ensures unused { IfOk result (λ list. (i : ℕ) → count < i → get_or list.items i no_region ≡ no_region) }
{
    let mut list = Vec::with_capacity(alloc, ENTRY_COUNT)?;
    for i in 0..ENTRY_COUNT {
        list.push(read_entry(bytes, count, i))?;
    }
    Ok(list)
}
