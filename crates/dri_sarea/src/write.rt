//! The writing of an image, field by field.

ghost use Rattle.std.specs.Prelude.{◌≡◌, ◌≤◌, ◌<◌, ◌+◌, ◌^◌, ◌++◌, ℕ, length, get_or, true, OnOk};
ghost use Rattle.byteorder.specs.Endian.{little_bytes};
ghost use Rattle.dri_sarea.specs.Layouts.{bytes_in, zero_fields, zero_values, pieces, drawable_fields, drawable_values, entry_fields, entry_values};
ghost use Rattle.dri_sarea.specs.Areas.{no_drawable, no_region};
ghost use Rattle.dri_sarea.specs.Images.{written, are_held};

use crate::drawable::Drawable;
use crate::layout::{ENTRY_SIZE, Field, Width, drawable, entry, zero};
use byteorder::{ByteOrder, LittleEndian};
use dri_base::{OutOfMemory, TexRegion};

// Puts a number's bytes last. A byte's number is below 256.
fn put(out: &mut Vec<u8>, width: Width, value: u32) -> Result<(), OutOfMemory>
    requires { value < 256 ^ bytes_in width }
    ensures { OnOk result (out.new.items ≡ out.old.items ++ little_bytes (bytes_in width) value) }
{
    match width {
        Width::Byte => out.push(value as u8)?,
        Width::Number => {
            let mut bytes = [0; 4];
            LittleEndian::write_u32(&mut bytes, value);
            out.extend_from_slice(&bytes)?;
        }
    }
    Ok(())
}

/// Puts fields last that stand one after another.
pub fn put_fields(out: &mut Vec<u8>, fields: &[Field], values: &[u32]) -> Result<(), OutOfMemory>
    requires { are_held fields.now values.now ≡ true }
    ensures { OnOk result (out.new.items ≡ out.old.items ++ written fields.now values.now) }
{
    for i in 0..fields.len() {
        put(out, fields[i].width, values[i])?;
    }
    Ok(())
}

/// Puts so many zeros last.
pub fn put_zeros(out: &mut Vec<u8>, count: usize) -> Result<(), OutOfMemory>
    ensures { OnOk result (out.new.items ≡ out.old.items ++ written (zero_fields count) (zero_values count)) }
{
    for _ in 0..count {
        put_fields(out, &[zero()], &[0])?;
    }
    Ok(())
}

/// Puts the drawables last, each of which its fields can hold.
pub fn put_drawables(out: &mut Vec<u8>, drawables: &[Drawable]) -> Result<(), OutOfMemory>
    requires { (i : ℕ) → i < length drawables.now → are_held drawable_fields (drawable_values (get_or drawables.now i no_drawable)) ≡ true }
    ensures { OnOk result (out.new.items ≡ out.old.items ++ written (pieces (λ i. drawable_fields) (length drawables.now)) (pieces (λ i. drawable_values (get_or drawables.now i no_drawable)) (length drawables.now))) }
{
    for shown in drawables {
        put_fields(out, &drawable(), &[shown.stamp, shown.flags])?;
    }
    Ok(())
}

// Puts an entry of the list of regions last.
fn put_entry(out: &mut Vec<u8>, count: u32, i: usize, region: TexRegion) -> Result<(), OutOfMemory>
    requires { are_held (entry_fields count i) (entry_values count i region) ≡ true }
    ensures { OnOk result (out.new.items ≡ out.old.items ++ written (entry_fields count i) (entry_values count i region)) }
{
    if (count as usize) < i {
        return put_zeros(out, ENTRY_SIZE);
    }
    put_fields(
        out,
        &entry(count),
        &[
            u32::from(region.next),
            u32::from(region.prev),
            u32::from(region.in_use),
            0,
            region.age,
        ],
    )
}

/// Puts the entries of the list of regions last, each of which its fields can hold.
pub fn put_entries(out: &mut Vec<u8>, count: u32, regions: &[TexRegion]) -> Result<(), OutOfMemory>
    requires { (i : ℕ) → i < length regions.now → are_held (entry_fields count i) (entry_values count i (get_or regions.now i no_region)) ≡ true }
    ensures { OnOk result (out.new.items ≡ out.old.items ++ written (pieces (entry_fields count) (length regions.now)) (pieces (λ i. entry_values count i (get_or regions.now i no_region)) (length regions.now))) }
{
    for (i, region) in regions.iter().enumerate() {
        put_entry(out, count, i, *region)?;
    }
    Ok(())
}
