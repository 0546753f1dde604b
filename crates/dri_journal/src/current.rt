//! What a client draws with after the entries that a replay took: where its window shows and has its corner, its own
//! state, and the texture that its triangles need. Where the client may draw, its copies are the same.

ghost use Rattle.std.specs.Prelude.{◌≡◌, ◌↔◌, Contains, IfSome, IsSome, option_copied};
ghost use Rattle.dri_base.specs.Ranges.{IsPlace, client_numbers};
ghost use Rattle.dri_base.specs.Scenes.{commands_of, textures_of, window_of};
ghost use Rattle.dri_base.specs.States.{state_at};
ghost use Rattle.dri_base.specs.Texels.{texture_bound};
ghost use Rattle.dri_core.specs.Privates.{textured_with};
ghost use Rattle.dri_meaning.specs.Scripts.{HasTexels};
ghost use Rattle.dri_model.specs.Stacks.{origin};
ghost use Rattle.dri_model.specs.Words.{IsScissorInRange};
ghost use Rattle.dri_journal.specs.Replays.{AreCurrentClips, world_of};

use crate::replay::Replay;
use dri_base::{Point, State, Texture};
use dri_meaning::texture_bound;
use dri_rect::Region;

impl<'a> Replay<'a> {
    /// The pixels of the screen at which the window of a client of the scene shows.
    pub fn clips(&self, client: u32) -> &Region
        requires { Contains (client_numbers self.now.scene.clients) client }
        ensures { AreCurrentClips self.now client result.now }
    {
        let script = self.script(client);
        self.board().clips(script.window)
    }

    /// The upper left corner of that window, whose coordinates are -1,024 to 1,024.
    pub fn origin(&self, client: u32) -> Point
        requires { Contains (client_numbers self.now.scene.clients) client }
        ensures corner { (result.x, result.y) ≡ origin (world_of self.now).stack (window_of self.now.scene client) }
        ensures x { IsPlace result.x }
        ensures y { IsPlace result.y }
    {
        let script = self.script(client);
        let board = self.board();
        board.arranged();
        board.origin(script.window)
    }

    /// The client's own state: that of its script at its next command.
    pub fn state(&self, client: u32) -> State
        requires { Contains (client_numbers self.now.scene.clients) client }
        ensures kept { result ≡ ((world_of self.now).client client).state }
        ensures own { result ≡ state_at (commands_of self.now.scene client) ((world_of self.now).client client).place }
        ensures scissor { IsScissorInRange result.scissor }
    {
        self.entries();
        self.script(client);
        self.part(client).state()
    }

    /// The texture that the client's triangles need: the one that is bound, where the mode isn't off.
    pub fn texture(&self, client: u32) -> Option<&Texture>
        requires { Contains (client_numbers self.now.scene.clients) client }
        ensures found { option_copied result ≡ texture_bound (textures_of self.now.scene client) (textured_with ((world_of self.now).client client).state) }
        ensures needed { IsSome result ↔ IsSome (textured_with ((world_of self.now).client client).state) }
        ensures whole { IfSome (option_copied result) HasTexels }
    {
        let used = self.part(client).texture_used();
        texture_bound(self.script(client).textures.as_slice(), used)
    }
}
