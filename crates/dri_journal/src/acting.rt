//! What an entry of a client does to its part and to the regions.

ghost use Rattle.std.specs.Prelude.{◌≡◌, ◌≤◌, ◌+◌, ◌==◌, not, IfSome};
ghost use Rattle.dri_base.specs.Limits.{last_age};
ghost use Rattle.dri_base.specs.Scenes.{script_of, window_of};
ghost use Rattle.dri_base.specs.declared.scene.Scene.{Scene};
ghost use Rattle.dri_client.specs.Kept.{IsKept, IsScript};
ghost use Rattle.dri_client.specs.Parts.{Agrees, PartState, next_command, part_after};
ghost use Rattle.dri_client.specs.Textures.{run_used, spot_used};
ghost use Rattle.dri_core.specs.Effects.{heap_after};
ghost use Rattle.dri_core.specs.EntryTable.{LegalEntry, after_entry};
ghost use Rattle.dri_core.specs.Phases.{In};
ghost use Rattle.dri_core.specs.Runs.{Intact, IsCurrent, client_of};
ghost use Rattle.dri_core.specs.Worlds.{World};
ghost use Rattle.dri_journal.specs.Acts.{MayAct, UsesRegions, heap_by, own_spot};
ghost use Rattle.dri_texheap.specs.RegionStates.{AreRegionsOf, IsInUse, IsInside, heap_of};

use dri_base::{ClientScript, Command, Entry};
use dri_client::{ClientPart, bytes_in, stand};
use dri_texheap::{Regions, Run, Spot};

/// The client's next command uses the regions: a triangle those of the texture that it needs.
fn touch_used(regions: &mut Regions, script: &ClientScript, part: &ClientPart)
    requires inside { IfSome (run_used part.now) (IsInside regions.old.count) }
    requires used { IfSome (run_used part.now) (IsInUse (heap_of regions.old)) }
    requires age { (heap_of regions.old).global ≤ last_age }
    ensures heap { heap_of regions.new ≡ heap_after (heap_of regions.old) (spot_used part.now) (next_command script.now part.now) }
    ensures count { regions.new.count ≡ regions.old.count }
{
    match (part.next_command(script), part.used_run()) {
        (Some(Command::Triangle(_)), Some(run)) => regions.touch(run),
        _ => {}
    }
}

/// What the entry does to the regions, where its client's part was this before it: a texture that is placed takes regions
/// where the part has no room for it, and a triangle uses those that its texture has.
pub fn use_regions(regions: &mut Regions, script: &ClientScript, part: &ClientPart, entry: &Entry)
    requires { UsesRegions script.now part.now regions.old entry.now }
    ensures heap { heap_of regions.new ≡ heap_by script.now part.now regions.old.count (heap_of regions.old) entry.now }
    ensures count { regions.new.count ≡ regions.old.count }
{
    match *entry {
        Entry::Place {
            client: _,
            texture,
            first: _,
            count: _,
        } => {
            let room = part.room(script, texture);
            let bytes = bytes_in(script, texture) as u32;
            let _ = stand(regions, room, part.region_size(), bytes);
        }
        Entry::Run {
            client: _,
            place: _,
        } => touch_used(regions, script, part),
        _ => {}
    }
}

/// Where a texture of the part stands that is placed in this run: in the part's room for it, where it has one, and else at
/// the beginning of the run.
fn own_spot(part: &ClientPart, script: &ClientScript, texture: u32, run: Run) -> Spot
    ensures { result ≡ own_spot script.now part.now texture run }
{
    match part.room(script, texture) {
        Some(spot) => spot,
        None => Spot { run, block: 0 },
    }
}

/// The step of an entry that is the client's own. The regions are those after it; the stamp is that of the client's window.
pub fn act(
    part: &mut ClientPart,
    script: &ClientScript,
    entry: &Entry,
    regions: &Regions,
    stamp: u32,
    is_new_owner: bool,
)
    requires script { IsScript script.now }
    requires kept { IsKept script.now regions.now.count part.old }
    requires may { MayAct script.now regions.now.count part.old entry.now }
    ensures part { (s : Scene) (w : World) → script.now ≡ script_of s (client_of entry.now) → s.region_size ≡ part.old.placed.region_size → Agrees part.old (w.client (client_of entry.now)) → LegalEntry s w entry.now → stamp ≡ w.stamps (window_of s (client_of entry.now)) → is_new_owner ≡ not (w.owner == client_of entry.now + 1) → Intact s w → ((w.client (client_of entry.now)).phase ≡ In → IsCurrent s w (client_of entry.now)) → AreRegionsOf s (after_entry s w entry.now).heap regions.now → Agrees part.new (part_after s w entry.now (client_of entry.now)) }
    ensures kept { IsKept script.now regions.now.count part.new }
    ensures size { part.new.placed.region_size ≡ part.old.placed.region_size }
{
    match *entry {
        Entry::Light { client: _ } => part.light(),
        Entry::Kernel {
            client: _,
            found: _,
        } => {
            let _ = part.kernel(regions, stamp, is_new_owner);
        }
        Entry::Stale { client: _ } => part.stale(),
        Entry::Leave { client: _ } => part.leave(script),
        Entry::Info { client: _ } => part.told(stamp),
        Entry::Emit {
            client: _,
            groups: _,
        } => {
            let _ = part.emit();
        }
        Entry::Place {
            client: _,
            texture,
            first,
            count,
        } => {
            let spot = own_spot(part, script, texture, Run { first, count });
            part.place_texture(script, texture, &spot, regions);
        }
        Entry::Run {
            client: _,
            place: _,
        } => {
            let command = part.next_command(script).unwrap();
            part.run(script, &command, regions);
        }
        Entry::Gone { client: _ } => part.gone(),
        Entry::Change { place: _ } => {}
    }
}
