//! The test of an image: each field in turn, up to the first that can't hold its number. Each function answers where
//! that field begins.

ghost use Rattle.std.specs.Prelude.{◌≡◌, ◌≤◌, ◌<◌, ◌+◌, ◌*◌, ◌^◌, length};
ghost use Rattle.dri_sarea.specs.Layouts.{bytes_in, size, pieces, zero_fields, drawable_fields, entry_fields, layout, count_offset};
ghost use Rattle.dri_sarea.specs.Images.{number_at, first_bad};

use crate::layout::{
    DRAWABLE_COUNT, DRAWABLE_LOCK, DRAWABLE_LOCK_SIZE, DRAWABLE_SIZE, DRAWABLES, ENTRIES,
    ENTRY_COUNT, ENTRY_SIZE, FRAME, Field, PADDING, PADDING_SIZE, REGION_COUNT, REST, REST_SIZE,
    Width, drawable, entry, numbers, zero,
};
use byteorder::{ByteOrder, LittleEndian};

/// The number in the bytes from a place on.
pub fn number_at(bytes: &[u8], at: usize, width: Width) -> u32
    requires { at + bytes_in width ≤ length bytes.now }
    ensures number { result ≡ number_at bytes.now at (bytes_in width) }
    ensures small { result < 256 ^ bytes_in width }
{
    let rest = bytes.split_at(at).1;
    match width {
        Width::Byte => u32::from(rest[0]),
        Width::Number => LittleEndian::read_u32(rest),
    }
}

// The first bad field of those that stand one after another from a place on.
fn bad_field(bytes: &[u8], at: usize, fields: &[Field]) -> Option<u32>
    requires room { at + size fields.now ≤ length bytes.now }
    requires whole { length bytes.now ≤ 8192 }
    ensures { result ≡ first_bad bytes.now at fields.now }
{
    let mut place = at;
    for field in fields {
        if !field.range.holds(number_at(bytes, place, field.width)) {
            return Some(place as u32);
        }
        place += field.width.bytes();
    }
    None
}

// The first of so many bytes that isn't 0.
fn bad_zero(bytes: &[u8], at: usize, count: usize) -> Option<u32>
    requires room { at + count ≤ length bytes.now }
    requires whole { length bytes.now ≤ 8192 }
    ensures { result ≡ first_bad bytes.now at (zero_fields count) }
{
    for i in 0..count {
        if let Some(bad) = bad_field(bytes, at + i, &[zero()]) {
            return Some(bad);
        }
    }
    None
}

// The first bad field of the drawables.
fn bad_drawable(bytes: &[u8]) -> Option<u32>
    requires { length bytes.now ≡ 8192 }
    ensures { result ≡ first_bad bytes.now 128 (pieces (λ i. drawable_fields) 256) }
{
    for i in 0..DRAWABLE_COUNT {
        if let Some(bad) = bad_field(bytes, DRAWABLES + DRAWABLE_SIZE * i, &drawable()) {
            return Some(bad);
        }
    }
    None
}

// The first bad field of an entry of the list of regions.
fn bad_in_entry(bytes: &[u8], count: u32, i: usize) -> Option<u32>
    requires whole { length bytes.now ≡ 8192 }
    requires i { i < 65 }
    ensures { result ≡ first_bad bytes.now (2216 + 8 * i) (entry_fields count i) }
{
    let at = ENTRIES + ENTRY_SIZE * i;
    if i <= count as usize {
        bad_field(bytes, at, &entry(count))
    } else {
        bad_zero(bytes, at, ENTRY_SIZE)
    }
}

// The first bad field of the entries of the list of regions.
fn bad_entry(bytes: &[u8], count: u32) -> Option<u32>
    requires { length bytes.now ≡ 8192 }
    ensures { result ≡ first_bad bytes.now 2216 (pieces (entry_fields count) 65) }
{
    for i in 0..ENTRY_COUNT {
        if let Some(bad) = bad_in_entry(bytes, count, i) {
            return Some(bad);
        }
    }
    None
}

/// The first bad field of an image of the right length.
pub fn first_bad(bytes: &[u8]) -> Option<u32>
    requires { length bytes.now ≡ 8192 }
    ensures { result ≡ first_bad bytes.now 0 (layout (number_at bytes.now count_offset 4)) }
{
    if let Some(bad) = bad_zero(bytes, PADDING, PADDING_SIZE) {
        return Some(bad);
    }
    if let Some(bad) = bad_zero(bytes, DRAWABLE_LOCK, DRAWABLE_LOCK_SIZE) {
        return Some(bad);
    }
    if let Some(bad) = bad_drawable(bytes) {
        return Some(bad);
    }
    if let Some(bad) = bad_field(bytes, FRAME, &numbers()) {
        return Some(bad);
    }
    let count = number_at(bytes, REGION_COUNT, Width::Number);
    if let Some(bad) = bad_entry(bytes, count) {
        return Some(bad);
    }
    bad_zero(bytes, REST, REST_SIZE)
}
