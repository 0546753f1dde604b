//! Making ready for a triangle: its texture gets regions and is uploaded, and the card learns the groups that are dirty.

ghost use Rattle.std.specs.Prelude.{◌≡◌, ◌≤◌, Some, true, false};
ghost use Rattle.dri_core.specs.Phases.{In};
ghost use Rattle.dri_core.specs.Privates.{is_ready, is_triangle};
ghost use Rattle.dri_model.specs.Groups.{is_empty};
ghost use Rattle.dri_shared.specs.Sides.{client_at, value_at};
ghost use Rattle.dri_client.specs.Textures.{missing_texture};
ghost use Rattle.dri_driver.specs.Acts.{IsStep};
ghost use Rattle.dri_driver.specs.Clients.{kept_of, next_command, part_of};
ghost use Rattle.dri_driver.specs.Fits.{Fits};

use super::Client;
use dri_base::Entry;
use dri_shared::{ClientSide, place_entry};

impl Client {
    // Places a texture, which its next command needs: in the room that its shared regions have for it, or else in regions
    // that are allocated. Its textures in regions that this frees are lost: these are newer than the age up to which it
    // knew them.
    pub(super) fn place(&mut self, side: &mut ClientSide<'_>, texture: u32) -> Entry
        requires acting { self.old.phase ≡ In }
        requires client { client_at side.old ≡ self.old.number }
        requires fits { Fits self.old (value_at side.old) }
        requires room { 1 ≤ (value_at side.old).spare }
        requires triangle { is_triangle (next_command self.old) ≡ true }
        requires missing { missing_texture (kept_of self.old) ≡ Some texture }
        ensures { IsStep self.old self.new side.old side.new result }
    {
        let script = self.scene.clients.get(self.index);
        let room = self.part.room(script, texture);
        let spot = side.place(texture, room);
        self.part
            .place_texture(script, texture, &spot, side.regions());
        place_entry(self.number, texture, &spot)
    }

    // Tells the card what is dirty.
    pub(super) fn emit(&mut self, side: &mut ClientSide<'_>) -> Entry
        requires acting { self.old.phase ≡ In }
        requires client { client_at side.old ≡ self.old.number }
        requires fits { Fits self.old (value_at side.old) }
        requires room { 1 ≤ (value_at side.old).spare }
        requires triangle { is_triangle (next_command self.old) ≡ true }
        requires ready { is_ready (part_of self.old) ≡ true }
        requires dirty { is_empty self.old.dirty ≡ false }
        ensures { IsStep self.old self.new side.old side.new result }
    {
        let bound = self.part.bound_texture(&self.scene, self.script());
        let groups = self.part.emit();
        let words = self.part.words(groups, bound);
        side.emit(groups, words.words());
        Entry::Emit {
            client: self.number,
            groups: groups.bits(),
        }
    }
}
