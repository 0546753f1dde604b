//! The step of a command that ran.

ghost use Rattle.std.specs.Prelude.{◌≡◌, List, ℕ, Some};
ghost use Rattle.dri_base.specs.Ranges.{CommandInRange};
ghost use Rattle.dri_base.specs.Scenes.{script_of};
ghost use Rattle.dri_base.specs.declared.journal.Entry.TheVariants.{Run};
ghost use Rattle.dri_base.specs.declared.scene.Scene.{Scene};
ghost use Rattle.dri_core.specs.EntryTable.{after_entry};
ghost use Rattle.dri_core.specs.Worlds.{World};
ghost use Rattle.dri_texheap.specs.RegionStates.{heap_of};
ghost use Rattle.dri_client.specs.Kept.{IsKept, IsScript};
ghost use Rattle.dri_client.specs.Parts.{Agrees, next_command, part_after};
ghost use Rattle.dri_client.specs.Steps.{advanced, changed_by};
ghost use Rattle.dri_client.specs.Textures.{age_known};

use super::ClientPart;
use crate::activity::Activity;
use crate::script::is_last;
use dri_base::{ClientScript, Command};
use dri_texheap::Regions;

// The age up to which a client knows the regions, where it has used some of them or none.
fn age_known(regions: &Regions, local: u32, is_used: bool) -> u32
    ensures { result ≡ age_known (heap_of regions.now) local is_used }
{
    if is_used { regions.age() } else { local }
}

impl ClientPart {
    /// It ran its next command, which left the regions so: with a setting its state changes, with a triangle it has used
    /// its texture's regions.
    pub fn run(&mut self, script: &ClientScript, command: &Command, regions: &Regions)
        requires script { IsScript script.now }
        requires next { next_command script.now self.old ≡ Some command.now }
        ensures size { self.new.placed.region_size ≡ self.old.placed.region_size }
        ensures part { (s : Scene) (w : World) (c : ℕ) → script.now ≡ script_of s c → Agrees self.old (w.client c) → heap_of regions.now ≡ (after_entry s w (Run c self.old.place)).heap → Agrees self.new (part_after s w (Run c self.old.place) c) }
        ensures kept { (regions : ℕ) → IsKept script.now regions self.old → IsKept script.now regions self.new }
    {
        self.change(command, regions);
        self.advance(script, command);
    }

    // What the command does to its state and to the age up to which it knows the regions.
    fn change(&mut self, command: &Command, regions: &Regions)
        requires { (textures : List ℕ) × CommandInRange textures command.now }
        ensures { self.new ≡ changed_by command.now (heap_of regions.now) self.old }
    {
        match command {
            Command::Set(setting) => self.context.set(setting),
            Command::Triangle(_) => {
                let is_used = self.used_spot().is_some();
                self.local = age_known(regions, self.local, is_used);
            }
            _ => {}
        }
    }

    // Goes on to the command behind one that was run.
    fn advance(&mut self, script: &ClientScript, command: &Command)
        requires script { IsScript script.now }
        requires next { next_command script.now self.old ≡ Some command.now }
        ensures { self.new ≡ advanced script.now command.now self.old }
    {
        let is_last = is_last(script, self.place);
        self.place += 1;
        self.activity = Activity::ran(command, is_last);
    }
}
