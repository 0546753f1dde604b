//! Where a client's textures are placed: for each texture its spot, or none, of which the first slot is texture 1's; and
//! by a region's number the level of each region that small textures of the client share.

ghost use Rattle.std.specs.Prelude.{◌≡◌, ◌≤◌, ◌<◌, ◌+◌, ◌==◌, ◌^◌, ℕ, true, false, nat_lt, length, get_or, if◌then◌else◌, Option, None, Some, IfOk, IfSome};
ghost use Rattle.dri_model.specs.Heaps.{is_newer, lose};
ghost use Rattle.dri_model.specs.Shares.{blocks_for, fits_above, is_small_for, levels_after, lose_levels, room_for};
ghost use Rattle.dri_texheap.specs.RegionStates.{heap_of, IsInside};
ghost use Rattle.dri_texheap.specs.Placements.{placed_of, levels_of, spot_at, AreInside, is_lost, is_bound_lost};

use crate::regions::Regions;
use crate::run::{Run, Spot};
use dri_base::OutOfMemory;
use std::alloc::Global;
use std::marker::Model;

/// The bytes of a block.
pub const BLOCK: u32 = 64;

/// The most regions that there are.
const MOST_REGIONS: u32 = 64;

/// The blocks that a texture of so many bytes takes in a shared region: 0 where it isn't small.
pub fn small_blocks(region_size: u32, bytes: usize) -> u32
    ensures { result ≡ (if is_small_for region_size bytes then blocks_for bytes else 0) }
{
    if bytes == 0 || bytes > region_size as usize / 2 {
        return 0;
    }
    bytes.div_ceil(BLOCK as usize) as u32
}

/// The spots of a client's textures, and the levels of its shared regions. Contracts see the lists of both: `placed_of` says
/// where a texture is placed, and `levels_of` which level a region has.
#[derive(Drop)]
pub struct Placed {
    spots: Vec<Option<Spot>>,
    levels: [Option<u32>; 64],
    region_size: u32,
}

impl Model for Placed {
    ghost use Rattle.dri_texheap.specs.Placements.{Placements};

    ghost Value = { Placements };

    ghost view = { λ it. record { spots = it.spots.items; levels = it.levels; region_size = it.region_size } };
}

// Whether a region of the spot's run, where there is one, has an age above `local`.
fn is_lost(regions: &Regions, local: u32, spot: Option<Spot>) -> bool
    requires { IfSome spot (λ s. IsInside regions.now.count s.run) }
    ensures { result ≡ is_lost (is_newer (heap_of regions.now) local) spot }
{
    match spot {
        Some(spot) => regions.is_any_newer(spot.run, local),
        None => false,
    }
}

// Takes a spot away where a region of its run has an age above `local`.
fn lose(regions: &Regions, local: u32, slot: &mut Option<Spot>)
    requires { IfSome slot.old (λ s. IsInside regions.now.count s.run) }
    ensures { slot.new ≡ lose (is_newer (heap_of regions.now) local) slot.old }
{
    if is_lost(regions, local, *slot) {
        *slot = None;
    }
}

// Takes each spot away where a region of its run has an age above `local`.
fn lose_each(regions: &Regions, local: u32, spots: &mut [Option<Spot>])
    requires { (t : ℕ) → IfSome (spot_at spots.old t) (λ s. IsInside regions.now.count s.run) }
    ensures { (k : ℕ) → get_or spots.new k None ≡ lose (is_newer (heap_of regions.now) local) (get_or spots.old k None) }
{
    for slot in spots.iter_mut() {
        lose(regions, local, slot);
    }
}

// Takes each level away whose region has an age above `local`.
fn lose_levels(regions: &Regions, local: u32, levels: &mut [Option<u32>; 64])
    requires { (k level : ℕ) → get_or levels.old k None ≡ Some level → k < regions.now.count }
    ensures { (k : ℕ) → get_or levels.new k None ≡ lose_levels (is_newer (heap_of regions.now) local) (λ j. get_or levels.old j None) k }
{
    for k in 0..regions.count() {
        if regions.is_newer(k, local) {
            levels[k as usize] = None;
        }
    }
}

// Whether so many blocks fit above a level of a region of so many bytes.
fn fits_above(region_size: u32, blocks: u32, level: u32) -> bool
    ensures { result ≡ fits_above region_size blocks (Some level) }
{
    u64::from(level) + u64::from(blocks) <= u64::from(region_size / BLOCK)
}

impl Placed {
    /// No texture is placed, of textures from 1 on to that number, and no region is shared. `region_size` counts the bytes
    /// of a region.
    pub fn new(alloc: Global, textures: u32, region_size: u32) -> Result<Placed, OutOfMemory>
        ensures placed { IfOk result (λ placed. placed_of placed ≡ λ t. None) }
        ensures levels { IfOk result (λ placed. levels_of placed ≡ λ k. None) }
        ensures textures { IfOk result (λ placed. length placed.spots ≡ textures) }
        ensures size { IfOk result (λ placed. placed.region_size ≡ region_size) }
    {
        let spots = vec![in alloc; None; textures as usize]?;
        Ok(Placed {
            spots,
            levels: [None; 64],
            region_size,
        })
    }

    /// How many bytes a region has.
    pub fn region_size(&self) -> u32
        ensures { result ≡ self.now.region_size }
    {
        self.region_size
    }

    /// Where a texture is placed: `None` where it isn't placed, or where there is no such texture.
    pub fn resident(&self, texture: u32) -> Option<Spot>
        ensures { result ≡ placed_of self.now texture }
    {
        if texture == 0 {
            return None;
        }
        match self.spots.get(texture as usize - 1) {
            Some(spot) => *spot,
            None => None,
        }
    }

    /// The room for a small texture of so many blocks: above the level of the shared region with the lowest number where
    /// they fit. `None` exactly where no shared region has room.
    pub fn room(&self, blocks: u32) -> Option<Spot>
        ensures { result ≡ room_for self.now.region_size (levels_of self.now) blocks }
    {
        for first in 0..MOST_REGIONS {
            let Some(block) = self.levels[first as usize] else {
                continue;
            };
            if fits_above(self.region_size, blocks, block) {
                let run = Run { first, count: 1 };
                return Some(Spot { run, block });
            }
        }
        None
    }

    /// Places a texture. Its number is 1 to the number of textures that `new` was given. `blocks` counts the blocks of a
    /// small texture and is 0 for another; with a small one the spot's region is shared, and its level is behind the last of
    /// these blocks.
    pub fn set(&mut self, texture: u32, spot: Spot, blocks: u32)
        requires first { 1 ≤ texture }
        requires last { texture ≤ length self.old.spots }
        requires region { 0 < blocks → spot.run.first < 64 }
        requires level { spot.block + blocks < 2 ^ 32 }
        ensures placed { placed_of self.new ≡ λ t. if t == texture then Some spot else placed_of self.old t }
        ensures levels { levels_of self.new ≡ levels_after (levels_of self.old) (λ k. false) (nat_lt 0 blocks) spot blocks }
        ensures textures { length self.new.spots ≡ length self.old.spots }
        ensures size { self.new.region_size ≡ self.old.region_size }
    {
        self.spots[texture as usize - 1] = Some(spot);
        if blocks > 0 {
            self.levels[spot.run.first as usize] = Some(spot.block + blocks);
        }
    }

    /// Takes away each texture with a region whose age is above `local`, and each shared region with such an age, and tells
    /// whether the bound texture was taken away. Each run that is placed lies inside these regions, and so does each shared
    /// region.
    pub fn lose(&mut self, regions: &Regions, local: u32, bound: Option<u32>) -> bool
        requires { AreInside regions.now.count self.old }
        ensures placed { placed_of self.new ≡ λ t. lose (is_newer (heap_of regions.now) local) (placed_of self.old t) }
        ensures levels { levels_of self.new ≡ lose_levels (is_newer (heap_of regions.now) local) (levels_of self.old) }
        ensures textures { length self.new.spots ≡ length self.old.spots }
        ensures size { self.new.region_size ≡ self.old.region_size }
        ensures bound { result ≡ is_bound_lost (is_newer (heap_of regions.now) local) self.old bound }
    {
        let lost = match bound {
            Some(texture) => is_lost(regions, local, self.resident(texture)),
            None => false,
        };
        lose_each(regions, local, self.spots.as_mut_slice());
        lose_levels(regions, local, &mut self.levels);
        lost
    }
}
