//! Running the client's next command, one function for each kind.

ghost use Rattle.std.specs.Prelude.{◌≡◌, ◌<◌, ◌≤◌, Some, true};
ghost use Rattle.dri_core.specs.EntryTable.{after_entry};
ghost use Rattle.dri_core.specs.Phases.{In};
ghost use Rattle.dri_core.specs.Privates.{is_ready};
ghost use Rattle.dri_core.specs.Worlds.{World};
ghost use Rattle.dri_model.specs.Groups.{is_empty};
ghost use Rattle.dri_shared.specs.Sides.{client_at, value_at};
ghost use Rattle.dri_texheap.specs.RegionStates.{heap_of};
ghost use Rattle.dri_client.specs.Parts.{part_after};
ghost use Rattle.dri_driver.specs.Acts.{IsStep};
ghost use Rattle.dri_driver.specs.Clients.{next_command, part_of};
ghost use Rattle.dri_driver.specs.Fits.{Fits, IsSameClient};

use super::Client;
use dri_base::{Command, Entry, Rgb, Setting, Triangle};
use dri_shared::ClientSide;
use dri_texheap::Regions;

impl Client {
    // Makes a setting.
    pub(super) fn set(&mut self, side: &mut ClientSide<'_>, setting: &Setting) -> Entry
        requires acting { self.old.phase ≡ In }
        requires client { client_at side.old ≡ self.old.number }
        requires fits { Fits self.old (value_at side.old) }
        requires room { 1 ≤ (value_at side.old).spare }
        requires next { next_command self.old ≡ Some (Command.Set setting.now) }
        ensures { IsStep self.old self.new side.old side.new result }
    {
        side.set();
        self.ran(side.regions(), &Command::Set(*setting))
    }

    // Clears back and depth in its clips.
    pub(super) fn clear(&mut self, side: &mut ClientSide<'_>, colour: Rgb, depth: u16) -> Entry
        requires acting { self.old.phase ≡ In }
        requires client { client_at side.old ≡ self.old.number }
        requires fits { Fits self.old (value_at side.old) }
        requires room { 1 ≤ (value_at side.old).spare }
        requires next { next_command self.old ≡ Some (Command.Clear colour depth) }
        ensures { IsStep self.old self.new side.old side.new result }
    {
        side.clear(&self.clips);
        self.ran(side.regions(), &Command::Clear { colour, depth })
    }

    // Draws a triangle in its clips. A texture that it needs is placed, and nothing is dirty. With the texture it uses
    // that one's regions.
    pub(super) fn triangle(&mut self, side: &mut ClientSide<'_>, triangle: &Triangle) -> Entry
        requires acting { self.old.phase ≡ In }
        requires client { client_at side.old ≡ self.old.number }
        requires fits { Fits self.old (value_at side.old) }
        requires room { 1 ≤ (value_at side.old).spare }
        requires next { next_command self.old ≡ Some (Command.Triangle triangle.now) }
        requires ready { is_ready (part_of self.old) ≡ true }
        requires clean { is_empty self.old.dirty ≡ true }
        ensures { IsStep self.old self.new side.old side.new result }
    {
        let run = self.part.used_run();
        side.triangle(&self.clips, self.origin, run);
        self.ran(side.regions(), &Command::Triangle(*triangle))
    }

    // Swaps: what it drew is shown in its clips.
    pub(super) fn swap(&mut self, side: &mut ClientSide<'_>) -> Entry
        requires acting { self.old.phase ≡ In }
        requires client { client_at side.old ≡ self.old.number }
        requires fits { Fits self.old (value_at side.old) }
        requires room { 1 ≤ (value_at side.old).spare }
        requires next { next_command self.old ≡ Some Command.Swap }
        ensures { IsStep self.old self.new side.old side.new result }
    {
        side.swap(&self.clips);
        self.ran(side.regions(), &Command::Swap)
    }

    // Yields.
    pub(super) fn yields(&mut self, side: &mut ClientSide<'_>) -> Entry
        requires acting { self.old.phase ≡ In }
        requires client { client_at side.old ≡ self.old.number }
        requires fits { Fits self.old (value_at side.old) }
        requires room { 1 ≤ (value_at side.old).spare }
        requires next { next_command self.old ≡ Some Command.Yield }
        ensures { IsStep self.old self.new side.old side.new result }
    {
        side.yielded();
        self.ran(side.regions(), &Command::Yield)
    }

    // Its part follows a command that was run and left the regions so. It answers the run's entry.
    fn ran(&mut self, regions: &Regions, command: &Command) -> Entry
        requires { next_command self.old ≡ Some command.now }
        ensures started { 0 < self.old.place }
        ensures entry { result ≡ Entry.Run self.old.number self.old.place }
        ensures same { IsSameClient self.old self.new }
        ensures part { (w : World) → part_of self.old ≡ w.client self.old.number → heap_of regions.now ≡ (after_entry self.old.scene w (Entry.Run self.old.number self.old.place)).heap → part_of self.new ≡ part_after self.old.scene w (Entry.Run self.old.number self.old.place) self.old.number }
    {
        let place = self.part.place();
        let script = self.scene.clients.get(self.index);
        self.part.run(script, command, regions);
        Entry::Run {
            client: self.number,
            place,
        }
    }
}
