//! The steps that make ready for a triangle: its texture is placed, and the card learns the groups that are dirty.

ghost use Rattle.std.specs.Prelude.{◌≡◌, ◌<◌, ℕ, Some};
ghost use Rattle.dri_base.specs.declared.journal.Entry.TheVariants.{Emit, Place};
ghost use Rattle.dri_base.specs.declared.scene.ClientScript.{ClientScript};
ghost use Rattle.dri_base.specs.declared.scene.Scene.{Scene};
ghost use Rattle.dri_base.specs.Scenes.{script_of};
ghost use Rattle.dri_core.specs.Effects.{spot_for};
ghost use Rattle.dri_core.specs.EntryTable.{LegalEntry, after_entry};
ghost use Rattle.dri_core.specs.Privates.{textured_with};
ghost use Rattle.dri_core.specs.Runs.{Intact, IsCurrent};
ghost use Rattle.dri_core.specs.Worlds.{World};
ghost use Rattle.dri_model.specs.Groups.{bits, no_groups};
ghost use Rattle.dri_model.specs.Shares.{room_for};
ghost use Rattle.dri_model.specs.Words.{IsBoundInRange, emitted_words};
ghost use Rattle.dri_texheap.specs.Placements.{levels_of};
ghost use Rattle.dri_texheap.specs.RegionStates.{AreRegionsOf, IsInside, heap_of};
ghost use Rattle.dri_client.specs.Kept.{IsKept, IsScript, StaysKept};
ghost use Rattle.dri_client.specs.Parts.{Agrees, part_after};
ghost use Rattle.dri_client.specs.Placings.{IsPlaced, IsPut, IsTaken};
ghost use Rattle.dri_model.specs.Heaps as Heaps;
ghost use Rattle.dri_client.specs.Textures.{room_of};

use super::ClientPart;
use dri_base::{BoundTexture, ClientScript};
use dri_context::{EmitWords, Groups};
use dri_texheap::{Regions, Spot};

impl ClientPart {
    /// It placed a texture, the one that its triangles need: in the room that its shared regions have for it, where they
    /// have some, or else at the beginning of regions that were allocated for it. `spot` is where it stands. Its textures and shared regions in regions that were freed for it are
    /// lost then: these regions are newer than the age up to which it knew them.
    pub fn place_texture(
        &mut self,
        script: &ClientScript,
        texture: u32,
        spot: &Spot,
        regions: &Regions,
    )
        requires script { IsScript script.now }
        requires kept { IsKept script.now regions.now.count self.old }
        requires used { textured_with self.old.state ≡ Some texture }
        requires spot { spot.now ≡ spot_for (room_of self.old.placed.region_size script.now self.old texture) spot.now.run }
        requires run { IsInside regions.now.count spot.now.run }
        requires some { 0 < spot.now.run.count }
        ensures size { self.new.placed.region_size ≡ self.old.placed.region_size }
        ensures part { (s : Scene) (w : World) (c : ℕ) → script.now ≡ script_of s c → s.region_size ≡ self.old.placed.region_size → Agrees self.old (w.client c) → Intact s w → IsCurrent s w c → LegalEntry s w (Place c texture spot.now.run.first spot.now.run.count) → AreRegionsOf s (after_entry s w (Place c texture spot.now.run.first spot.now.run.count)).heap regions.now → Agrees self.new (part_after s w (Place c texture spot.now.run.first spot.now.run.count) c) }
        ensures kept { IsKept script.now regions.now.count self.new }
    {
        let room = self.room(script, texture);
        let blocks = self.blocks(script, texture);
        self.put_texture(script, texture, room, *spot, blocks, regions);
        self.context.dirty_bound();
    }

    // A texture of so many blocks stands in its room, or else in the run.
    fn put_texture(
        &mut self,
        script: &ClientScript,
        texture: u32,
        room: Option<Spot>,
        spot: Spot,
        blocks: u32,
        regions: &Regions,
    )
        requires script { IsScript script.now }
        requires kept { IsKept script.now regions.now.count self.old }
        requires used { textured_with self.old.state ≡ Some texture }
        requires room { (r : Heaps.Spot) → room ≡ Some r → room_for self.old.placed.region_size (levels_of self.old.placed) blocks ≡ Some r }
        requires run { IsInside regions.now.count spot.run }
        requires some { 0 < spot.run.count }
        requires spot { spot ≡ spot_for room spot.run }
        ensures size { self.new.placed.region_size ≡ self.old.placed.region_size }
        ensures placed { IsPlaced self.old self.new (heap_of regions.now) texture room spot blocks }
        ensures kept { IsKept script.now regions.now.count self.new }
    {
        match room {
            Some(room) => self.fill_room(script, texture, room, blocks, regions),
            None => self.take_regions(script, texture, spot, blocks, regions),
        }
    }

    // A small texture stands in a room of its shared regions.
    fn fill_room(
        &mut self,
        script: &ClientScript,
        texture: u32,
        spot: Spot,
        blocks: u32,
        regions: &Regions,
    )
        requires script { IsScript script.now }
        requires kept { IsKept script.now regions.now.count self.old }
        requires used { textured_with self.old.state ≡ Some texture }
        requires room { room_for self.old.placed.region_size (levels_of self.old.placed) blocks ≡ Some spot }
        ensures size { self.new.placed.region_size ≡ self.old.placed.region_size }
        ensures put { IsPut self.old self.new texture spot blocks }
        ensures kept { IsKept script.now regions.now.count self.new }
    {
        let _count = regions.count();
        self.placed.set(texture, spot, blocks);
    }

    // A texture stands at the beginning of regions that were allocated for it.
    fn take_regions(
        &mut self,
        script: &ClientScript,
        texture: u32,
        spot: Spot,
        blocks: u32,
        regions: &Regions,
    )
        requires script { IsScript script.now }
        requires kept { IsKept script.now regions.now.count self.old }
        requires used { textured_with self.old.state ≡ Some texture }
        requires run { IsInside regions.now.count spot.run }
        requires some { 0 < spot.run.count }
        requires start { spot.block ≡ 0 }
        ensures size { self.new.placed.region_size ≡ self.old.placed.region_size }
        ensures taken { IsTaken self.old self.new (heap_of regions.now) texture spot blocks }
        ensures kept { IsKept script.now regions.now.count self.new }
    {
        let age = regions.age();
        let _ = self.placed.lose(regions, self.local, None);
        self.placed.set(texture, spot, blocks);
        self.local = age;
    }

    /// It told the card what was dirty, which is the answer. Nothing is dirty then.
    pub fn emit(&mut self) -> Groups
        ensures groups { result ≡ self.old.dirty }
        ensures state { self.new ≡ record self.old { dirty = no_groups } }
        ensures part { (s : Scene) (w : World) (c : ℕ) → Agrees self.old (w.client c) → Agrees self.new (part_after s w (Emit c (bits self.old.dirty)) c) }
        ensures kept { StaysKept self.old self.new }
    {
        self.context.take_dirty()
    }

    /// The register words of these groups, with the texture that is bound where it is placed. Its sides are 1 to 256.
    pub fn words(&self, groups: Groups, bound: Option<BoundTexture>) -> EmitWords
        requires { IsBoundInRange bound }
        ensures { result ≡ emitted_words groups self.now.state bound }
    {
        self.context.emit_words(groups, bound)
    }
}
