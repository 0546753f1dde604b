//! The client's textures: which one a triangle needs, where it is placed, and what the card is to know of the bound one.

ghost use Rattle.std.specs.Prelude.{◌≡◌, ◌&&◌};
ghost use Rattle.dri_base.specs.Ranges.{CardInRange};
ghost use Rattle.dri_base.specs.Texels.{texture_bound};
ghost use Rattle.dri_core.specs.Privates.{bound_at, is_ready_for, spot_of, textured_with};
ghost use Rattle.dri_model.specs.Groups.{is_empty};
ghost use Rattle.dri_model.specs.Words.{IsBoundInRange};
ghost use Rattle.dri_texheap.specs.Placements.{placed_of};
ghost use Rattle.dri_client.specs.Kept.{IsKept, IsScript};
ghost use Rattle.dri_client.specs.Textures.{blocks_of, missing_texture, room_of, run_used, spot_used};

use super::ClientPart;
use crate::script::{bytes_in, shape_in};
use dri_base::{BoundTexture, ClientScript, Scene, State, TexMode};
use dri_texheap::{Run, Spot, small_blocks};

// The texture that triangles are textured with: the bound one, where the texture mode isn't off.
fn textured_with(state: &State) -> Option<u32>
    ensures { result ≡ textured_with state.now }
{
    match state.tex_mode {
        TexMode::Off => None,
        TexMode::Replace | TexMode::Modulate => state.bound,
    }
}

impl ClientPart {
    /// The texture that its triangles need, where they need one.
    pub fn texture_used(&self) -> Option<u32>
        ensures { result ≡ textured_with self.now.state }
    {
        textured_with(&self.context.state())
    }

    /// How many bytes a region has.
    pub fn region_size(&self) -> u32
        ensures { result ≡ self.now.placed.region_size }
    {
        self.placed.region_size()
    }

    /// Where a texture is placed: `None` where it isn't, or where there is no such texture.
    pub fn resident(&self, texture: u32) -> Option<Spot>
        ensures { result ≡ placed_of self.now.placed texture }
    {
        self.placed.resident(texture)
    }

    /// The texture that its triangles need, where it isn't placed.
    pub fn missing_texture(&self) -> Option<u32>
        ensures { result ≡ missing_texture self.now }
    {
        let texture = self.texture_used()?;
        match self.placed.resident(texture) {
            Some(_) => None,
            None => Some(texture),
        }
    }

    // Where the texture stands that its triangles need.
    pub(crate) fn used_spot(&self) -> Option<Spot>
        ensures { result ≡ spot_used self.now }
    {
        match self.texture_used() {
            Some(texture) => self.placed.resident(texture),
            None => None,
        }
    }

    /// The regions of the texture that its triangles need.
    pub fn used_run(&self) -> Option<Run>
        ensures { result ≡ run_used self.now }
    {
        match self.used_spot() {
            Some(spot) => Some(spot.run),
            None => None,
        }
    }

    // The blocks that a texture takes in a shared region: 0 where it isn't small.
    pub(crate) fn blocks(&self, script: &ClientScript, texture: u32) -> u32
        ensures { result ≡ blocks_of self.now.placed.region_size script.now texture }
    {
        small_blocks(self.region_size(), bytes_in(script, texture))
    }

    /// The room for a texture of its script in its shared regions, whose bytes are those that `new` was given: only for a
    /// small one, above the level of the region with the lowest number where it fits.
    pub fn room(&self, script: &ClientScript, texture: u32) -> Option<Spot>
        ensures { result ≡ room_of self.now.placed.region_size script.now self.now texture }
    {
        let blocks = self.blocks(script, texture);
        if blocks == 0 {
            return None;
        }
        self.placed.room(blocks)
    }

    /// Whether its triangles need no texture, or the one that they need is placed.
    pub fn is_ready(&self) -> bool
        ensures { result ≡ is_ready_for (placed_of self.now.placed) (textured_with self.now.state) }
    {
        match self.texture_used() {
            Some(texture) => self.placed.resident(texture).is_some(),
            None => true,
        }
    }

    /// Whether a triangle can be drawn: nothing is dirty, and the texture that it needs is placed.
    pub fn can_draw(&self) -> bool
        ensures { result ≡ (is_empty self.now.dirty && is_ready_for (placed_of self.now.placed) (textured_with self.now.state)) }
    {
        self.dirty().is_empty() && self.is_ready()
    }

    /// The bound texture as the card is to know it: none where it isn't placed.
    pub fn bound_texture(&self, scene: &Scene, script: &ClientScript) -> Option<BoundTexture>
        requires card { CardInRange scene.now }
        requires script { IsScript script.now }
        requires kept { IsKept script.now scene.now.regions self.now }
        ensures bound { result ≡ bound_at scene.now.region_size (texture_bound script.now.textures self.now.state.bound) (spot_of (placed_of self.now.placed) self.now.state.bound) }
        ensures in_range { IsBoundInRange result }
    {
        let number = self.context.state().bound?;
        let shape = shape_in(script.textures.as_slice(), number)?;
        let spot = self.placed.resident(number)?;
        Some(BoundTexture {
            shape,
            base: spot.base(scene.region_size),
        })
    }
}
