//! Turns and kills: each makes one event at most, and puts it last in the list of events.

ghost use Rattle.std.specs.Prelude.{◌≡◌, ◌↔◌, ◌<◌, ◌++◌, vec_len, vec_capacity, true, IfOk, OnOk, OnErr, Some, Contains, slice_get};
ghost use Rattle.dri_base.specs.Ranges.{client_numbers};
ghost use Rattle.dri_base.specs.Scenes.{is_named};
ghost use Rattle.dri_core.specs.Turns.{kill, one_event, turn};
ghost use Rattle.dri_world.specs.Courses.{GoesOn, IsActor, IsPassedOver, IsPastKilling, IsSound, LeavesLess, core_of, is_move, turned};

use crate::server_turns::SERVER;
use crate::turned::Turned;
use crate::world::World;
use dri_base::{Event, OutOfMemory};
use dri_client::place_of;
use std::alloc::Global;

impl World {
    /// The turn of an actor: 0 is the server, and k is client k of the scene. It makes the actor's one legal event, kills
    /// aside, and puts it last. It is passed over exactly where the actor is a client that has ended or is dead, or the
    /// server with no change left; where it stands in the queue behind another; or where it is the first there and the
    /// word is held and contended. Then nothing changes, and nothing does after `OutOfMemory`.
    pub fn turn(&mut self, alloc: Global, actor: u32) -> Result<Turned, OutOfMemory>
        requires { IsActor self.old.scene actor }
        ensures told { IfOk result (λ t. t ≡ turned (turn self.old.scene (core_of self.old) actor)) }
        ensures made { OnOk result (GoesOn self.old self.new (one_event (turn self.old.scene (core_of self.old) actor))) }
        ensures passed { IfOk result (λ t. (t ≡ Turned.Passed) ↔ IsPassedOver self.old.scene (core_of self.old) actor) }
        ensures err { OnErr result (self.new ≡ self.old) }
    {
        if actor == SERVER {
            return self.server_turn(alloc);
        }
        self.site.shared.reserve(1)?;
        self.events.reserve(1)?;
        let Some(place) = place_of(self.scene.clients.as_slice(), actor) else {
            unreachable!();
        };
        let client = &mut self.clients[place];
        let made = self.site.turn_of(alloc, client)?;
        Ok(note(&mut self.events, made))
    }

    /// The kill of a client, which an item of the scene's schedule kills: its death where it holds, else its stop. It is
    /// passed over exactly where the client has ended, is dying, or is dead. Then nothing changes, and nothing does after
    /// `OutOfMemory`.
    pub fn kill(&mut self, alloc: Global, client: u32) -> Result<Turned, OutOfMemory>
        requires { is_named self.old.scene client ≡ true }
        ensures told { IfOk result (λ t. t ≡ turned (kill (core_of self.old) client)) }
        ensures made { OnOk result (GoesOn self.old self.new (one_event (kill (core_of self.old) client))) }
        ensures passed { IfOk result (λ t. (t ≡ Turned.Passed) ↔ IsPastKilling (core_of self.old) client) }
        ensures err { OnErr result (self.new ≡ self.old) }
    {
        self.site.shared.reserve(1)?;
        self.events.reserve(1)?;
        let Some(place) = place_of(self.scene.clients.as_slice(), client) else {
            unreachable!();
        };
        let killed = &mut self.clients[place];
        let made = self.site.kill_of(alloc, killed)?;
        Ok(note(&mut self.events, made))
    }

    /// The server's turn.
    pub(crate) fn server_turn(&mut self, alloc: Global) -> Result<Turned, OutOfMemory>
        ensures told { IfOk result (λ t. t ≡ turned (turn self.old.scene (core_of self.old) 0)) }
        ensures made { OnOk result (GoesOn self.old self.new (one_event (turn self.old.scene (core_of self.old) 0))) }
        ensures passed { IfOk result (λ t. (t ≡ Turned.Passed) ↔ IsPassedOver self.old.scene (core_of self.old) 0) }
        ensures err { OnErr result (self.new ≡ self.old) }
        ensures less { IfOk result (λ t. LeavesLess self.old self.new (is_move t)) }
        ensures sound { OnOk result (IsSound self.new) }
    {
        self.site.shared.reserve(1)?;
        self.events.reserve(1)?;
        let total = self.scene.changes.len() as u32;
        let made = self.site.turn_of_server(alloc, total)?;
        Ok(note(&mut self.events, made))
    }
}

/// Puts an event, where one was made, last. There is room for it.
fn note(events: &mut Vec<Event>, made: Option<Event>) -> Turned
    requires room { vec_len events.old < vec_capacity events.old }
    ensures told { result ≡ turned made }
    ensures events { events.new.items ≡ events.old.items ++ one_event made }
{
    match made {
        Some(event) => {
            events.push_reserved(event);
            Turned::Did(event)
        }
        None => Turned::Passed,
    }
}
