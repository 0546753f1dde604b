//! The shared area as a value: what the lock, the windows and the texture heap show of themselves. The lists of drawables
//! and regions have their memory from the start.

ghost use Rattle.std.specs.Prelude.{◌≡◌, ◌<◌, ◌≤◌, ℕ, length, get_or, Some, None, IfOk, OnOk, Err, All, ◌↔◌, slice_get};
ghost use Rattle.dri_base.specs.Ranges.{IsRegionSize};
ghost use Rattle.dri_base.specs.Limits.{word_end};
ghost use Rattle.dri_texheap.specs.RegionStates.{heap_of};
ghost use Rattle.dri_sarea.specs.Areas.{Area, all_entries, no_drawable, no_region};
ghost use Rattle.dri_texheap.specs.Ring.{entry};
ghost use Rattle.dri_sarea.specs.Layouts.{table, layout, count_offset};
ghost use Rattle.dri_sarea.specs.Images.{IsArea, area_bytes, bad_at, first_bad, number_at, FollowOn};
ghost use Rattle.dri_sarea.specs.declared.fault.SareaFault.TheVariants.{Bad};

use crate::check::{first_bad, number_at};
use crate::drawable::Drawable;
use crate::fault::{BadSarea, SareaFault};
use crate::layout::{
    AGE, DRAWABLE_LOCK_SIZE, ENTRY_COUNT, HEIGHT, LENGTH, OWNER, PADDING_SIZE, REGION_COUNT,
    REGION_SIZE, REST_SIZE, WIDTH, Width, numbers, word,
};
use crate::read::{NO_REGION, read_drawables, read_entries};
use crate::write::{put_drawables, put_entries, put_fields, put_zeros};
use dri_base::{Bytes, OutOfMemory, TexRegion};
use dri_texheap::Regions;
use std::alloc::Global;
use std::marker::Model;

/// A shared area. Contracts see its numbers, 256 drawables and 65 entries of the list of regions, all in their ranges.
#[derive(Drop)]
pub struct Sarea {
    word: u32,
    drawables: Vec<Drawable>,
    width: u32,
    height: u32,
    owner: u32,
    age: u32,
    region_count: u32,
    region_size: u32,
    regions: Vec<TexRegion>,
}

impl Model for Sarea {
    ghost use Rattle.dri_sarea.specs.Areas.{Area};
    ghost use Rattle.dri_sarea.specs.Images.{IsArea};

    ghost Value = { Area };

    ghost view = { λ it. record { word = it.word; drawables = it.drawables.items; width = it.width; height = it.height; owner = it.owner; age = it.age; region_count = it.region_count; region_size = it.region_size; regions = it.regions.items } };

    ghost invariant = { λ it. IsArea (record { word = it.word; drawables = it.drawables.items; width = it.width; height = it.height; owner = it.owner; age = it.age; region_count = it.region_count; region_size = it.region_size; regions = it.regions.items }) };
}

// The number itself. What is read from a list is known to be of 32 bits only once it is passed.
fn word_of(number: u32) -> u32
    ensures same { result ≡ number }
    ensures small { result < word_end }
{
    number
}

// A drawable, whose stamp is a number of 32 bits.
fn shown(drawable: &Drawable) -> Drawable
    ensures same { result ≡ drawable.now }
    ensures small { result.stamp < word_end }
{
    Drawable {
        stamp: word_of(drawable.stamp),
        flags: drawable.flags,
    }
}

// The list of drawables, whose stamps are numbers of 32 bits.
fn copied(alloc: Global, drawables: &[Drawable]) -> Result<Vec<Drawable>, OutOfMemory>
    ensures same { IfOk result (λ list. list.items ≡ drawables.now) }
    ensures small { IfOk result (λ list. (i : ℕ) → (get_or list.items i no_drawable).stamp < word_end) }
{
    let mut list = Vec::with_capacity(alloc, drawables.len())?;
    for drawable in drawables {
        list.push(shown(drawable))?;
    }
    Ok(list)
}

// An entry of these regions, whose age is a number of 32 bits.
fn entry(regions: &Regions, i: u32) -> TexRegion
    requires { i ≤ regions.now.count }
    ensures entry { result ≡ entry regions.now.count (heap_of regions.now) i }
    ensures small { result.age < word_end }
{
    let TexRegion {
        next,
        prev,
        in_use,
        age,
    } = regions.region(i);
    TexRegion {
        next,
        prev,
        in_use,
        age,
    }
}

// The 65 entries of these regions.
fn all_entries(alloc: Global, regions: &Regions) -> Result<Vec<TexRegion>, OutOfMemory>
    ensures entries { IfOk result (λ list. list.items ≡ all_entries regions.now.count (heap_of regions.now)) }
    ensures small { IfOk result (λ list. (i : ℕ) → (get_or list.items i no_region).age < word_end) }
{
    let mut list = vec![in alloc; NO_REGION; ENTRY_COUNT]?;
    for i in 0..regions.count() + 1 {
        list[i as usize] = entry(regions, i);
    }
    Ok(list)
}

// The shared area with an image in which nothing is wrong.
fn read(alloc: Global, bytes: &[u8]) -> Result<Sarea, OutOfMemory>
    requires whole { length bytes.now ≡ 8192 }
    requires good { first_bad bytes.now 0 (layout (number_at bytes.now count_offset 4)) ≡ None }
    ensures image { IfOk result (λ area. bytes.now ≡ area_bytes area) }
    ensures area { IfOk result IsArea }
    ensures only { IfOk result (λ area. (other : Area) → IsArea other → bytes.now ≡ area_bytes other → other ≡ area) }
{
    let region_count = number_at(bytes, REGION_COUNT, Width::Number);
    let drawables = read_drawables(alloc, bytes)?;
    let regions = read_entries(alloc, bytes, region_count)?;
    Ok(Sarea {
        word: number_at(bytes, 0, Width::Number),
        drawables,
        width: number_at(bytes, WIDTH, Width::Number),
        height: number_at(bytes, HEIGHT, Width::Number),
        owner: number_at(bytes, OWNER, Width::Number),
        age: number_at(bytes, AGE, Width::Number),
        region_count,
        region_size: number_at(bytes, REGION_SIZE, Width::Number),
        regions,
    })
}

impl Sarea {
    /// The shared area with this lock word, these 256 drawables, whose flags are 0 or 1, these sides of the screen, 1 to
    /// 1,024, this owner, at most 33, this global age, and these regions of so many bytes, a power of two from 256 to
    /// 65,536.
    pub fn new(
        alloc: Global,
        word: u32,
        drawables: &[Drawable],
        width: u32,
        height: u32,
        owner: u32,
        age: u32,
        region_size: u32,
        regions: &Regions,
    ) -> Result<Sarea, OutOfMemory>
        requires drawables { length drawables.now ≡ 256 }
        requires flags { All (λ d. d.flags ≤ 1) drawables.now }
        requires wide { (1 ≤ width) × (width ≤ 1024) }
        requires high { (1 ≤ height) × (height ≤ 1024) }
        requires owner { owner ≤ 33 }
        requires sized { IsRegionSize region_size }
        ensures area { IfOk result IsArea }
        ensures values { IfOk result (λ area. area ≡ record { word = word; drawables = drawables.now; width = width; height = height; owner = owner; age = age; region_count = regions.now.count; region_size = region_size; regions = all_entries regions.now.count (heap_of regions.now) }) }
    {
        let drawables = copied(alloc, drawables)?;
        let region_count = regions.count();
        let regions = all_entries(alloc, regions)?;
        Ok(Sarea {
            word,
            drawables,
            width,
            height,
            owner,
            age,
            region_count,
            region_size,
            regions,
        })
    }

    /// The lock word.
    pub fn word(&self) -> u32
        ensures { result ≡ self.now.word }
    {
        self.word
    }

    /// A window's drawable, by its number below 256.
    pub fn drawable(&self, i: u32) -> Drawable
        requires { i < 256 }
        ensures { slice_get self.now.drawables i ≡ Some result }
    {
        self.drawables[i as usize]
    }

    /// The screen's width, 1 to 1,024.
    pub fn width(&self) -> u32
        ensures { result ≡ self.now.width }
    {
        self.width
    }

    /// The screen's height, 1 to 1,024.
    pub fn height(&self) -> u32
        ensures { result ≡ self.now.height }
    {
        self.height
    }

    /// The context that last took the card over, at most 33.
    pub fn owner(&self) -> u32
        ensures { result ≡ self.now.owner }
    {
        self.owner
    }

    /// The global age.
    pub fn age(&self) -> u32
        ensures { result ≡ self.now.age }
    {
        self.age
    }

    /// How many regions there are, 1 to 64.
    pub fn region_count(&self) -> u32
        ensures { result ≡ self.now.region_count }
    {
        self.region_count
    }

    /// The size of a region in bytes, a power of two from 256 to 65,536.
    pub fn region_size(&self) -> u32
        ensures { result ≡ self.now.region_size }
    {
        self.region_size
    }

    /// An entry of the list of regions, below 65: the regions, then the list's head, then empty entries.
    pub fn region(&self, i: u32) -> TexRegion
        requires { i < 65 }
        ensures { slice_get self.now.regions i ≡ Some result }
    {
        self.regions[i as usize]
    }

    // The bytes of the image, field by field.
    fn image(&self, alloc: Global) -> Result<Vec<u8>, OutOfMemory>
        ensures image { IfOk result (λ bytes. bytes.items ≡ area_bytes self.now) }
        ensures area { OnOk result (IsArea self.now) }
    {
        let mut out = Vec::with_capacity(alloc, LENGTH)?;
        put_fields(&mut out, &[word()], &[self.word])?;
        put_zeros(&mut out, PADDING_SIZE)?;
        put_zeros(&mut out, DRAWABLE_LOCK_SIZE)?;
        put_drawables(&mut out, self.drawables.as_slice())?;
        put_fields(
            &mut out,
            &numbers(),
            &[
                0,
                0,
                self.width,
                self.height,
                0,
                0,
                self.owner,
                self.age,
                self.region_count,
                self.region_size,
            ],
        )?;
        put_entries(&mut out, self.region_count, self.regions.as_slice())?;
        put_zeros(&mut out, REST_SIZE)?;
        Ok(out)
    }

    /// The image of 8,192 bytes, which no other area has. `from_bytes` finds nothing wrong with it, and reads this area
    /// back.
    pub fn to_bytes(&self, alloc: Global) -> Result<Bytes, OutOfMemory>
        ensures image { IfOk result (λ bytes. bytes ≡ area_bytes self.now) }
        ensures size { IfOk result (λ bytes. length bytes ≡ 8192) }
        ensures good { IfOk result (λ bytes. bad_at bytes ≡ None) }
        ensures area { OnOk result (IsArea self.now) }
        ensures only { IfOk result (λ bytes. (other : Area) → IsArea other → bytes ≡ area_bytes other → other ≡ self.now) }
    {
        let bytes = self.image(alloc)?;
        Ok(Bytes::from_vec(bytes))
    }

    /// The shared area with this image, which is the only one that has it. The bytes are bad exactly where they aren't
    /// 8,192, or a field is out of its range.
    pub fn from_bytes(alloc: Global, bytes: &[u8]) -> Result<Sarea, SareaFault>
        ensures image { IfOk result (λ area. bytes.now ≡ area_bytes area) }
        ensures area { IfOk result IsArea }
        ensures only { IfOk result (λ area. (other : Area) → IsArea other → bytes.now ≡ area_bytes other → other ≡ area) }
        ensures bad { (at : ℕ) → (bad_at bytes.now ≡ Some at) ↔ (result ≡ Err (Bad (record { at = at }))) }
    {
        if bytes.len() != LENGTH {
            return Err(SareaFault::Bad(BadSarea {
                at: bytes.len().min(LENGTH) as u32,
            }));
        }
        if let Some(at) = first_bad(bytes) {
            return Err(SareaFault::Bad(BadSarea { at }));
        }
        read(alloc, bytes).map_err(|_| SareaFault::OutOfMemory)
    }
}

/// Each row of the table of fields begins where the one before it ends, and the last ends at byte 8,192.
pub fn rows_follow_on()
    ensures { (n : ℕ) → FollowOn 0 (table n) }
{}
