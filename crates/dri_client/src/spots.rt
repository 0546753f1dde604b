//! Where a texture is put: in the room that its client's shared regions have for it, or in regions that are allocated.

ghost use Rattle.std.specs.Prelude.{◌≡◌, ◌<◌, ◌≤◌, ◌+◌, None, Some, true, MatchOption};
ghost use Rattle.dri_base.specs.Limits.{last_age};
ghost use Rattle.dri_base.specs.Scenes.{regions_for};
ghost use Rattle.dri_core.specs.Effects.{heap_placed, spot_for};
ghost use Rattle.dri_core.specs.EntryTable.{is_start_for};
ghost use Rattle.dri_model.specs.Heaps.{allocated, is_place_for, marked};
ghost use Rattle.dri_model.specs.Shares.{is_small_for};
ghost use Rattle.dri_texheap.specs.RegionStates.{heap_of};

use dri_core::regions_for;
use dri_texheap::{Regions, Spot, small_blocks};

/// Allocates regions for a texture of so many bytes, which stands at their beginning. The region of a small one is marked as
/// shared.
fn allocated(regions: &mut Regions, size: u32, bytes: u32) -> Spot
    requires sized { 0 < size }
    requires size { size ≤ 65536 }
    requires bytes { bytes ≤ 4194304 }
    requires some { 1 ≤ regions_for size bytes }
    requires few { regions_for size bytes ≤ regions.old.count }
    requires age { (heap_of regions.old).global ≤ last_age }
    ensures count { regions.new.count ≡ regions.old.count }
    ensures block { result.block ≡ 0 }
    ensures many { result.run.count ≡ regions_for size bytes }
    ensures start { is_place_for regions.old.count (heap_of regions.old) result.run.count result.run.first ≡ true }
    ensures heap { heap_of regions.new ≡ marked (is_small_for size bytes) result.run.first (allocated regions.old.count (heap_of regions.old) result.run) }
{
    let run = regions.allocate(regions_for(size, bytes)).unwrap();
    if small_blocks(size, bytes as usize) > 0 {
        regions.mark_shared(run.first);
    }
    Spot { run, block: 0 }
}

/// Where a texture of so many bytes is put: in its room, where there is one, and else in regions that are allocated for it.
pub fn stand(regions: &mut Regions, room: Option<Spot>, size: u32, bytes: u32) -> Spot
    requires sized { 0 < size }
    requires size { size ≤ 65536 }
    requires bytes { bytes ≤ 4194304 }
    requires some { 1 ≤ regions_for size bytes }
    requires few { regions_for size bytes ≤ regions.old.count }
    requires age { (heap_of regions.old).global ≤ last_age }
    ensures count { regions.new.count ≡ regions.old.count }
    ensures spot { result ≡ spot_for room result.run }
    ensures many { MatchOption room (result.run.count ≡ regions_for size bytes) (λ spot. result.run.count ≡ spot.run.count) }
    ensures start { is_start_for room regions.old.count (heap_of regions.old) result.run.count result.run.first ≡ true }
    ensures heap { heap_of regions.new ≡ heap_placed room (is_small_for size bytes) regions.old.count (heap_of regions.old) result.run }
{
    match room {
        Some(spot) => spot,
        None => allocated(regions, size, bytes),
    }
}
