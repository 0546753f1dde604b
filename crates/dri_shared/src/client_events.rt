//! A client's events but for the runs of commands: each puts its entry last in the journal, and makes of the holdings
//! what the entry makes of the world. A call reborrows the shared value first, whose fields it then reaches.

ghost use Rattle.std.specs.Prelude.{◌≡◌, ◌≤◌, ◌<◌, ◌+◌, ◌==◌, not};
ghost use Rattle.dri_base.specs.declared.journal.Entry.TheVariants.{Light, Kernel, Stale, Emit, Place, Leave};
ghost use Rattle.dri_base.specs.Scenes.{window_of};
ghost use Rattle.dri_core.specs.Effects.{spot_for};
ghost use Rattle.dri_core.specs.Privates.{own_registers, room_in};
ghost use Rattle.dri_core.specs.Runs.{HoldRun};
ghost use Rattle.dri_model.specs.Groups.{bits};
ghost use Rattle.dri_model.specs.Words.{register_words};
ghost use Rattle.dri_shared.specs.Commands.{WantsPlace};
ghost use Rattle.dri_shared.specs.Sides.{Makes, MayMake, client_at, part_at, value_at, world_at};
ghost use Rattle.dri_texheap.specs.RegionStates.{IsInside, heap_of};

use crate::answers::Taken;
use crate::client_side::ClientSide;
use crate::scripts::window_of;
use crate::shared::Shared;
use dri_base::Entry;
use dri_client::stand;
use dri_context::Groups;
use dri_draw::texture_bytes;
use dri_texheap::{Regions, Spot};

/// The entry of a client's texture that is placed there.
pub fn place_entry(client: u32, texture: u32, spot: &Spot) -> Entry
    ensures { result ≡ Place client texture spot.now.run.first spot.now.run.count }
{
    Entry::Place {
        client,
        texture,
        first: spot.run.first,
        count: spot.run.count,
    }
}

impl ClientSide<'_> {
    /// The client takes the lock by the light exchange.
    pub fn light(&mut self)
        requires room { 1 ≤ (value_at self.old).spare }
        requires legal { MayMake self.old (Light (client_at self.old)) }
        ensures { Makes self.old self.new (Light (client_at self.old)) }
    {
        let client = self.client;
        let shared = &mut *self.shared;
        shared.holdings.holder = Some(client);
        shared.journal.push_reserved(Entry::Light { client });
    }

    /// The kernel lets the client in, which found this context in the word. From now on the client's context owns the
    /// card.
    pub fn kernel(&mut self, found: u32) -> Taken
        requires room { 1 ≤ (value_at self.old).spare }
        requires legal { MayMake self.old (Kernel (client_at self.old) found) }
        ensures made { Makes self.old self.new (Kernel (client_at self.old) found) }
        ensures owner { result.new_owner ≡ not ((world_at self.old).owner == client_at self.old + 1) }
        ensures stamp { result.stamp ≡ (world_at self.old).stamps (window_of (value_at self.old).scene (client_at self.old)) }
        ensures age { result.age ≡ (world_at self.old).heap.global }
    {
        let client = self.client;
        let shared = &mut *self.shared;
        let window = window_of(&shared.scene, client);
        let taken = Taken {
            new_owner: shared.holdings.owner != client + 1,
            stamp: shared.holdings.board.stamp(window),
            age: shared.holdings.regions.age(),
        };
        shared.holdings.holder = Some(client);
        shared.holdings.owner = client + 1;
        shared
            .journal
            .push_reserved(Entry::Kernel { client, found });
        taken
    }

    /// The client says that its stamp is old.
    pub fn stale(&mut self)
        requires room { 1 ≤ (value_at self.old).spare }
        requires legal { MayMake self.old (Stale (client_at self.old)) }
        ensures { Makes self.old self.new (Stale (client_at self.old)) }
    {
        let client = self.client;
        let shared = &mut *self.shared;
        let _holdings = &shared.holdings;
        shared.journal.push_reserved(Entry::Stale { client });
    }

    /// A texture of the client is put into the room that its shared regions have for it, or else into regions that are
    /// allocated for it, and its bytes are uploaded there. The next command is a triangle that is textured with this
    /// texture, which isn't placed. `room` is what `Placed::room` gives for a small texture, and `None` for another.
    pub fn place(&mut self, texture: u32, room: Option<Spot>) -> Spot
        requires room { 1 ≤ (value_at self.old).spare }
        requires wanted { WantsPlace (value_at self.old).scene (world_at self.old) (client_at self.old) texture }
        requires shared { room ≡ room_in (value_at self.old).scene (client_at self.old) (part_at self.old) texture }
        ensures legal { MayMake self.old (Place (client_at self.old) texture result.run.first result.run.count) }
        ensures spot { result ≡ spot_for room result.run }
        ensures inside { IsInside (value_at self.old).scene.regions result.run }
        ensures some { 0 < result.run.count }
        ensures made { Makes self.old self.new (Place (client_at self.old) texture result.run.first result.run.count) }
    {
        let client = self.client;
        let shared = &mut *self.shared;
        let size = shared.scene.region_size;
        let bytes = texture_bytes(&shared.scene, client, texture);
        let regions = &mut shared.holdings.regions;
        let spot = stand(regions, room, size, bytes.len() as u32);
        shared.holdings.card.upload(spot.base(size), bytes).unwrap();
        let entry = place_entry(client, texture, &spot);
        shared.journal.push_reserved(entry);
        spot
    }

    /// The card's registers of these groups are loaded. `groups` is the set of the client's dirty groups, and `words` are
    /// their register words.
    pub fn emit(&mut self, groups: Groups, words: &[u32])
        requires room { 1 ≤ (value_at self.old).spare }
        requires groups { groups ≡ (part_at self.old).dirty }
        requires legal { MayMake self.old (Emit (client_at self.old) (bits groups)) }
        requires words { words.now ≡ register_words groups (own_registers (value_at self.old).scene (client_at self.old) (part_at self.old)) }
        ensures { Makes self.old self.new (Emit (client_at self.old) (bits groups)) }
    {
        let client = self.client;
        let shared = &mut *self.shared;
        shared.holdings.card.load_registers(words).unwrap();
        shared.journal.push_reserved(Entry::Emit {
            client,
            groups: groups.bits(),
        });
    }

    /// The client leaves the lock.
    pub fn leave(&mut self)
        requires room { 1 ≤ (value_at self.old).spare }
        requires legal { MayMake self.old (Leave (client_at self.old)) }
        ensures { Makes self.old self.new (Leave (client_at self.old)) }
    {
        let client = self.client;
        let shared = &mut *self.shared;
        shared.holdings.holder = None;
        shared.holdings.left = client + 1;
        shared.journal.push_reserved(Entry::Leave { client });
    }

    /// The texture regions, with their ages. What the shared value keeps is said here too: its journal is a hold-run of its
    /// scene.
    pub fn regions(&self) -> &Regions
        ensures heap { heap_of result.now ≡ (world_at self.now).heap }
        ensures count { result.now.count ≡ (value_at self.now).scene.regions }
        ensures run { HoldRun (value_at self.now).scene (value_at self.now).journal }
    {
        let shared: &Shared = self.shared;
        &shared.holdings.regions
    }
}
