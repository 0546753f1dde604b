//! Whether an entry is legal, by what is kept of the world before it: a condition after the other, and the first that
//! isn't met is the answer.

ghost use Rattle.std.specs.Prelude.{◌≡◌, ◌≤◌, ◌+◌, ◌==◌, ◌&&◌, ◌||◌, not, is_none, length, nat_le, Some, true, [], ◌∷◌, ◌<◌};
ghost use Rattle.dri_base.specs.Limits.{last_age};
ghost use Rattle.dri_base.specs.Scenes.{kills_in, regions_for};
ghost use Rattle.dri_client.specs.Activities.{phase_in};
ghost use Rattle.dri_client.specs.Parts.{next_command};
ghost use Rattle.dri_client.specs.Textures.{bytes_in};
ghost use Rattle.dri_core.specs.Decide.{is_die};
ghost use Rattle.dri_core.specs.EntryTable.{is_start_for};
ghost use Rattle.dri_core.specs.Phases.{Ask, Asking, In, Old, Out, Over, is_done, is_holding, same_phase};
ghost use Rattle.dri_core.specs.Privates.{can_run, is_ready_for, is_triangle, textured_with};
ghost use Rattle.dri_journal.specs.Acts.{own_room};
ghost use Rattle.dri_journal.specs.Reasons.{first_unmet, told_reason, ways_to_go};
ghost use Rattle.dri_journal.specs.Replays.{allows};
ghost use Rattle.dri_journal.specs.declared.refusal.Refusal.TheVariants as refusals;
ghost use Rattle.dri_model.specs.Groups.{bits, is_empty, same_number};
ghost use Rattle.dri_texheap.specs.Placements.{placed_of};
ghost use Rattle.dri_texheap.specs.RegionStates.{heap_of};

use crate::marks::Marks;
use crate::refusal::Refusal;
use dri_base::{ClientScript, Command, Item};
use dri_client::{Activity, ClientPart, bytes_in};
use dri_core::regions_for;
use dri_texheap::{Regions, Run, Spot};

/// The refusal, where a condition isn't met.
fn require(is_met: bool, refusal: Refusal) -> Result<(), Refusal>
    ensures allows { allows result ≡ is_met }
    ensures reason { told_reason result ≡ first_unmet ((is_met, refusal) ∷ []) }
{
    if is_met { Ok(()) } else { Err(refusal) }
}

/// Whether a client is in a phase.
fn is_in(part: &ClientPart, activity: Activity) -> bool
    ensures { result ≡ same_phase part.now.phase (phase_in activity) }
{
    part.activity() == activity
}

/// Whether a client has ended or is dead.
pub fn is_done(part: &ClientPart) -> bool
    ensures { result ≡ is_done part.now.phase }
{
    match part.activity() {
        Activity::Ended | Activity::Dead => true,
        _ => false,
    }
}

/// Whether a client holds.
fn is_holding(part: &ClientPart) -> bool
    ensures { result ≡ is_holding part.now.phase }
{
    match part.activity() {
        Activity::Old | Activity::In | Activity::Over | Activity::Ask => true,
        _ => false,
    }
}

/// Whether the client's next command is a triangle.
fn is_at_triangle(part: &ClientPart, script: &ClientScript) -> bool
    ensures { result ≡ is_triangle (next_command script.now part.now) }
{
    match part.next_command(script) {
        Some(Command::Triangle(_)) => true,
        _ => false,
    }
}

/// Whether the client's next command is `die`.
fn is_at_die(part: &ClientPart, script: &ClientScript) -> bool
    ensures { result ≡ is_die (next_command script.now part.now) }
{
    match part.next_command(script) {
        Some(Command::Die) => true,
        _ => false,
    }
}

/// A light take.
pub fn light(part: &ClientPart, marks: Marks, client: u32) -> Result<(), Refusal>
    requires { client ≤ 32 }
    ensures { told_reason result ≡ first_unmet ((same_phase part.now.phase Out, refusals.WrongPhase) ∷ (is_none marks.holder, refusals.Held) ∷ (marks.left == client + 1, refusals.NotTheLast) ∷ []) }
{
    require(is_in(part, Activity::Out), Refusal::WrongPhase)?;
    require(marks.holder.is_none(), Refusal::Held)?;
    require(marks.left == client + 1, Refusal::NotTheLast)
}

/// A take through the kernel.
pub fn kernel(part: &ClientPart, marks: Marks, client: u32, found: u32) -> Result<(), Refusal>
    requires { client ≤ 32 }
    ensures { told_reason result ≡ first_unmet ((same_phase part.now.phase Out, refusals.WrongPhase) ∷ (is_none marks.holder, refusals.Held) ∷ ((found == 0) || (found == marks.left), refusals.WrongContext) ∷ (not (found == client + 1), refusals.WrongContext) ∷ []) }
{
    require(is_in(part, Activity::Out), Refusal::WrongPhase)?;
    require(marks.holder.is_none(), Refusal::Held)?;
    require(found == 0 || found == marks.left, Refusal::WrongContext)?;
    require(found != client + 1, Refusal::WrongContext)
}

/// A client says that its stamp is old.
pub fn stale(part: &ClientPart) -> Result<(), Refusal>
    ensures { told_reason result ≡ first_unmet ((same_phase part.now.phase Old, refusals.WrongPhase) ∷ []) }
{
    require(is_in(part, Activity::Old), Refusal::WrongPhase)
}

/// A leave.
pub fn leave(part: &ClientPart) -> Result<(), Refusal>
    ensures { told_reason result ≡ first_unmet ((same_phase part.now.phase Over || same_phase part.now.phase Ask, refusals.WrongPhase) ∷ []) }
{
    let is_over = is_in(part, Activity::Over);
    let is_asking = is_in(part, Activity::Ask);
    require(is_over || is_asking, Refusal::WrongPhase)
}

/// A client is told of its window.
pub fn info(part: &ClientPart, marks: Marks) -> Result<(), Refusal>
    ensures { told_reason result ≡ first_unmet ((same_phase part.now.phase Asking, refusals.WrongPhase) ∷ (is_none marks.holder, refusals.Held) ∷ []) }
{
    require(is_in(part, Activity::Asking), Refusal::WrongPhase)?;
    require(marks.holder.is_none(), Refusal::Held)
}

/// A change, of so many.
pub fn change(marks: Marks, changes: usize, place: u32) -> Result<(), Refusal>
    requires { marks.made ≤ 4096 }
    ensures { told_reason result ≡ first_unmet ((is_none marks.holder, refusals.Held) ∷ (place == marks.made + 1, refusals.NoSuchChange) ∷ (nat_le place changes, refusals.NoSuchChange) ∷ []) }
{
    require(marks.holder.is_none(), Refusal::Held)?;
    require(place == marks.made + 1, Refusal::NoSuchChange)?;
    require(place as usize <= changes, Refusal::NoSuchChange)
}

/// Groups of registers are loaded.
pub fn emit(part: &ClientPart, script: &ClientScript, groups: u8) -> Result<(), Refusal>
    ensures { told_reason result ≡ first_unmet ((same_phase part.now.phase In, refusals.WrongPhase) ∷ (is_triangle (next_command script.now part.now), refusals.NoTriangle) ∷ (is_ready_for (placed_of part.now.placed) (textured_with part.now.state), refusals.NotPlaced) ∷ (groups == bits part.now.dirty, refusals.WrongGroups) ∷ (not (is_empty part.now.dirty), refusals.WrongGroups) ∷ []) }
{
    require(is_in(part, Activity::In), Refusal::WrongPhase)?;
    require(is_at_triangle(part, script), Refusal::NoTriangle)?;
    require(part.is_ready(), Refusal::NotPlaced)?;
    let dirty = part.dirty();
    require(groups == dirty.bits(), Refusal::WrongGroups)?;
    require(!dirty.is_empty(), Refusal::WrongGroups)
}

/// A command runs.
pub fn run(part: &ClientPart, script: &ClientScript, place: u32) -> Result<(), Refusal>
    ensures { told_reason result ≡ first_unmet ((same_phase part.now.phase In, refusals.WrongPhase) ∷ (place == part.now.place, refusals.WrongPlace) ∷ (can_run true (next_command script.now part.now), refusals.NoCommand) ∷ (can_run (is_empty part.now.dirty && is_ready_for (placed_of part.now.placed) (textured_with part.now.state)) (next_command script.now part.now), refusals.NotEmitted) ∷ []) }
{
    require(is_in(part, Activity::In), Refusal::WrongPhase)?;
    require(place == part.place(), Refusal::WrongPlace)?;
    match part.next_command(script) {
        None | Some(Command::Die) => Err(Refusal::NoCommand),
        Some(Command::Triangle(_)) => require(part.can_draw(), Refusal::NotEmitted),
        Some(_) => Ok(()),
    }
}

/// Whether an item of the schedule kills the client.
fn is_named(items: &[Item], client: u32) -> bool
    ensures { result ≡ kills_in items.now client }
{
    for item in items {
        if is_kill(*item, client) {
            return true;
        }
    }
    false
}

/// A client is gone.
pub fn gone(
    part: &ClientPart,
    script: &ClientScript,
    marks: Marks,
    items: &[Item],
) -> Result<(), Refusal>
    ensures { told_reason result ≡ first_unmet (ways_to_go (same_phase part.now.phase In && is_die (next_command script.now part.now)) (kills_in items.now script.now.number) (is_done part.now.phase) (is_holding part.now.phase || is_none marks.holder)) }
{
    if is_in(part, Activity::In) && is_at_die(part, script) {
        return Ok(());
    }
    require(is_named(items, script.number), Refusal::NotKilled)?;
    require(!is_done(part), Refusal::NotKilled)?;
    require(is_holding(part) || marks.holder.is_none(), Refusal::Held)
}

/// Whether an item kills the client.
fn is_kill(item: Item, client: u32) -> bool
    ensures { result ≡ kills_in (item ∷ []) client }
{
    match item {
        Item::Kill { client: killed } => killed == client,
        Item::Turn { actor: _ } => false,
    }
}

/// Whether the client's triangles need this texture.
fn needs(part: &ClientPart, texture: u32) -> bool
    ensures { result ≡ same_number (textured_with part.now.state) (Some texture) }
{
    match part.texture_used() {
        Some(used) => used == texture,
        None => false,
    }
}

/// The region where the run of a texture begins that needs so many: its room's, where there is room, else that of the
/// heap's rule.
fn first_region(room: Option<Spot>, regions: &Regions, needed: u32) -> u32
    requires some { 1 ≤ needed }
    requires enough { needed ≤ regions.now.count }
    requires age { (heap_of regions.now).global ≤ last_age }
    ensures { is_start_for room regions.now.count (heap_of regions.now) needed result ≡ true }
{
    match room {
        Some(spot) => spot.run.first,
        None => regions.place_for(needed),
    }
}

/// Whether a run is the one for a texture that needs so many regions, with room or without.
fn is_run(room: Option<Spot>, regions: &Regions, needed: u32, run: Run) -> bool
    requires some { 1 ≤ needed }
    requires enough { needed ≤ regions.now.count }
    requires age { (heap_of regions.now).global ≤ last_age }
    ensures { result ≡ ((run.count == needed) && is_start_for room regions.now.count (heap_of regions.now) run.count run.first) }
{
    run.count == needed && run.first == first_region(room, regions, needed)
}

/// A texture is placed in a run of regions.
pub fn place(
    part: &ClientPart,
    script: &ClientScript,
    regions: &Regions,
    texture: u32,
    run: Run,
) -> Result<(), Refusal>
    requires some { 0 < part.now.placed.region_size }
    requires size { part.now.placed.region_size ≤ 65536 }
    requires bytes { bytes_in script.now texture ≤ 4194304 }
    requires needed { regions_for part.now.placed.region_size (bytes_in script.now texture) ≤ regions.now.count }
    requires there { same_number (textured_with part.now.state) (Some texture) ≡ true → 0 < bytes_in script.now texture }
    requires age { (heap_of regions.now).global ≤ last_age }
    ensures { told_reason result ≡ first_unmet ((same_phase part.now.phase In, refusals.WrongPhase) ∷ (is_triangle (next_command script.now part.now), refusals.NoTriangle) ∷ (same_number (textured_with part.now.state) (Some texture), refusals.WrongTexture) ∷ (is_none (placed_of part.now.placed texture), refusals.WrongTexture) ∷ ((run.count == regions_for part.now.placed.region_size (bytes_in script.now texture)) && is_start_for (own_room script.now part.now texture) regions.now.count (heap_of regions.now) run.count run.first, refusals.WrongRun) ∷ []) }
{
    require(is_in(part, Activity::In), Refusal::WrongPhase)?;
    require(is_at_triangle(part, script), Refusal::NoTriangle)?;
    require(needs(part, texture), Refusal::WrongTexture)?;
    require(part.resident(texture).is_none(), Refusal::WrongTexture)?;
    let bytes = bytes_in(script, texture) as u32;
    let needed = regions_for(part.region_size(), bytes);
    let room = part.room(script, texture);
    require(is_run(room, regions, needed, run), Refusal::WrongRun)
}
