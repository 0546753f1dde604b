//! The runs of a client's commands. Each does on the card what the command does in the client's clips, puts its entry
//! last in the journal, and moves the client's place on.

ghost use Rattle.std.specs.Prelude.{◌≡◌, ◌≤◌, true, IfSome};
ghost use Rattle.dri_base.specs.Limits.{last_age};
ghost use Rattle.dri_core.specs.Privates.{is_triangle, used_run};
ghost use Rattle.dri_core.specs.Solo.{is_clear, is_swap};
ghost use Rattle.dri_shared.specs.Commands.{is_setting, is_yield, next_command, next_run};
ghost use Rattle.dri_shared.specs.Copies.{IsCopyOf, corner};
ghost use Rattle.dri_shared.specs.Sides.{Makes, MayMake, client_at, part_at, value_at, world_at};
ghost use Rattle.dri_shared.specs.Drawing.{touched_by_use};
ghost use Rattle.dri_texheap.specs.RegionStates.{IsInUse, IsInside, heap_of};

use crate::client_side::ClientSide;
use crate::scripts::{clear_of, command, triangle_of};
use dri_base::{Entry, Point};
use dri_draw::{clear_clips, draw_clips, swap_clips};
use dri_rect::Region;
use dri_texheap::{Regions, Run};
use std::marker::Brand;
use std::sync::ledger::Blank;

/// A use of the run that a triangle needs, where it needs one.
fn touch(regions: &mut Regions, run: Option<Run>)
    requires inside { IfSome run (IsInside regions.old.count) }
    requires in_use { IfSome run (IsInUse (heap_of regions.old)) }
    requires age { (heap_of regions.old).global ≤ last_age }
    ensures heap { heap_of regions.new ≡ touched_by_use run (heap_of regions.old) }
    ensures count { regions.new.count ≡ regions.old.count }
{
    if let Some(run) = run {
        regions.touch(run);
    }
}

impl ClientSide<'_> {
    /// The client's next command is run: a setting, of which the card learns nothing yet.
    pub fn set(&mut self)
        requires room { 1 ≤ (value_at self.old).spare }
        requires command { is_setting (next_command (value_at self.old).scene (world_at self.old) (client_at self.old)) ≡ true }
        requires legal { MayMake self.old (next_run (world_at self.old) (client_at self.old)) }
        ensures { Makes self.old self.new (next_run (world_at self.old) (client_at self.old)) }
    {
        let client = self.client;
        let shared = &mut *self.shared;
        let place = shared.holdings.places[client as usize];
        shared.holdings.places[client as usize] = place + 1;
        shared.journal.push_reserved(Entry::Run { client, place });
    }

    /// The client's next command is run: a clear, which writes its colour and its depth to back and depth in the clips.
    /// `clips` is the client's copy.
    pub fn clear(&mut self, clips: &Region)
        requires room { 1 ≤ (value_at self.old).spare }
        requires command { is_clear (next_command (value_at self.old).scene (world_at self.old) (client_at self.old)) ≡ true }
        requires legal { MayMake self.old (next_run (world_at self.old) (client_at self.old)) }
        requires clips { IsCopyOf clips.now (part_at self.old).copy }
        ensures { Makes self.old self.new (next_run (world_at self.old) (client_at self.old)) }
    {
        let client = self.client;
        let shared = &mut *self.shared;
        let place = shared.holdings.places[client as usize];
        let (colour, depth) = clear_of(command(&shared.scene, client, place));
        clear_clips::<Brand>(
            Blank::new(1),
            &mut shared.holdings.card,
            clips,
            colour,
            depth,
        );
        shared.holdings.places[client as usize] = place + 1;
        shared.journal.push_reserved(Entry::Run { client, place });
    }

    /// The client's next command is run: a triangle, drawn by the card's registers and texture memory in the clips, at the
    /// screen's pixel less the origin. `clips` and `origin` are the client's copy; `run` is where the texture that the
    /// triangle needs is placed, and `None` where it needs none.
    pub fn triangle(&mut self, clips: &Region, origin: Point, run: Option<Run>)
        requires room { 1 ≤ (value_at self.old).spare }
        requires command { is_triangle (next_command (value_at self.old).scene (world_at self.old) (client_at self.old)) ≡ true }
        requires legal { MayMake self.old (next_run (world_at self.old) (client_at self.old)) }
        requires clips { IsCopyOf clips.now (part_at self.old).copy }
        requires origin { (part_at self.old).origin ≡ corner origin }
        requires run { run ≡ used_run (part_at self.old) }
        ensures { Makes self.old self.new (next_run (world_at self.old) (client_at self.old)) }
    {
        let client = self.client;
        let shared = &mut *self.shared;
        let place = shared.holdings.places[client as usize];
        let triangle = triangle_of(command(&shared.scene, client, place));
        draw_clips::<Brand>(
            Blank::new(1),
            &mut shared.holdings.card,
            clips,
            origin,
            &triangle,
        );
        touch(&mut shared.holdings.regions, run);
        shared.holdings.places[client as usize] = place + 1;
        shared.journal.push_reserved(Entry::Run { client, place });
    }

    /// The client's next command is run: a swap, which copies back to front in the clips. `clips` is the client's copy.
    pub fn swap(&mut self, clips: &Region)
        requires room { 1 ≤ (value_at self.old).spare }
        requires command { is_swap (next_command (value_at self.old).scene (world_at self.old) (client_at self.old)) ≡ true }
        requires legal { MayMake self.old (next_run (world_at self.old) (client_at self.old)) }
        requires clips { IsCopyOf clips.now (part_at self.old).copy }
        ensures { Makes self.old self.new (next_run (world_at self.old) (client_at self.old)) }
    {
        let client = self.client;
        let shared = &mut *self.shared;
        let place = shared.holdings.places[client as usize];
        swap_clips::<Brand>(Blank::new(1), &mut shared.holdings.card, clips);
        shared.holdings.places[client as usize] = place + 1;
        shared.journal.push_reserved(Entry::Run { client, place });
    }

    /// The client's next command is run: a yield, which does nothing.
    pub fn yielded(&mut self)
        requires room { 1 ≤ (value_at self.old).spare }
        requires command { is_yield (next_command (value_at self.old).scene (world_at self.old) (client_at self.old)) ≡ true }
        requires legal { MayMake self.old (next_run (world_at self.old) (client_at self.old)) }
        ensures { Makes self.old self.new (next_run (world_at self.old) (client_at self.old)) }
    {
        let client = self.client;
        let shared = &mut *self.shared;
        let place = shared.holdings.places[client as usize];
        shared.holdings.places[client as usize] = place + 1;
        shared.journal.push_reserved(Entry::Run { client, place });
    }
}
