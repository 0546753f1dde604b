//! The next step of a client that holds: it runs its next command, or makes ready for it. Before a triangle that needs a
//! texture the texture is placed, and before any triangle the card learns what is dirty.

ghost use Rattle.std.specs.Prelude.{◌≡◌, ◌≢◌, ◌+◌, ◌≤◌, ◌↔◌, Some};
ghost use Rattle.dri_core.specs.Phases.{In};
ghost use Rattle.dri_core.specs.Runs.{client_of};
ghost use Rattle.dri_shared.specs.Sides.{client_at, value_at, world_at};
ghost use Rattle.dri_driver.specs.Acts.{IfRan, IsActing, IsAtDeath, IsAtEnd, IsStep, MustGo, UnlessRan, event_of, next_event};
ghost use Rattle.dri_driver.specs.Clients.{next_command};
ghost use Rattle.dri_driver.specs.Fits.{Fits, HasMade};
ghost use Rattle.dri_driver.specs.Needs.{entries_left};

use super::Client;
use crate::answers::Acted;
use dri_base::{Command, Entry};
use dri_client::Activity;
use dri_shared::ClientSide;

impl Client {
    /// Makes the one event that is its turn, whose entry is its own: it places a texture, emits what is dirty, or runs
    /// its next command. It must leave exactly where it is over and a command is left, it is done exactly where it is over and none is left, and
    /// it dies exactly where its next command is its death; then nothing changes. It is in or over.
    pub fn act(&mut self, side: &mut ClientSide<'_>) -> Acted
        requires acting { IsActing self.old }
        requires client { client_at side.old ≡ self.old.number }
        requires fits { Fits self.old (value_at side.old) }
        requires room { 1 ≤ (value_at side.old).spare }
        ensures must_leave { (result ≡ Acted.MustLeave) ↔ MustGo self.old }
        ensures dies { (result ≡ Acted.Dies) ↔ IsAtDeath self.old }
        ensures done { (result ≡ Acted.Done) ↔ IsAtEnd self.old }
        ensures event { IfRan result (λ e. next_event self.old (world_at side.old) ≡ Some (event_of e)) }
        ensures own { IfRan result (λ e. client_of e ≡ self.old.number) }
        ensures made { IfRan result (HasMade self.old self.new side.old side.new) }
        ensures acting { IfRan result (λ e. IsActing self.new) }
        ensures falls { IfRan result (λ e. entries_left self.new + 1 ≤ entries_left self.old) }
        ensures kept { UnlessRan result (self.new ≡ self.old) }
        ensures side_kept { UnlessRan result (side.new ≡ side.old) }
    {
        match (self.part.activity(), self.next_command()) {
            (Activity::Over, Some(_)) => Acted::MustLeave,
            (Activity::Over, None) => Acted::Done,
            (_, Some(Command::Die)) => Acted::Dies,
            (_, Some(command)) => Acted::Ran {
                entry: self.go_on(side, &command),
            },
            (_, None) => unreachable!(),
        }
    }

    // Runs its next command, which isn't its death, or makes ready for it: before a triangle its texture is placed, and the
    // card told what is dirty.
    fn go_on(&mut self, side: &mut ClientSide<'_>, command: &Command) -> Entry
        requires acting { self.old.phase ≡ In }
        requires client { client_at side.old ≡ self.old.number }
        requires fits { Fits self.old (value_at side.old) }
        requires room { 1 ≤ (value_at side.old).spare }
        requires next { next_command self.old ≡ Some command.now }
        requires living { command.now ≢ Command.Die }
        ensures step { IsStep self.old self.new side.old side.new result }
        ensures acting { self.old.phase ≡ In }
        ensures living { next_command self.old ≢ Some Command.Die }
    {
        match command {
            Command::Set(setting) => self.set(side, setting),
            Command::Clear { colour, depth } => self.clear(side, *colour, *depth),
            Command::Triangle(triangle) => match self.part.missing_texture() {
                Some(texture) => self.place(side, texture),
                None if self.part.dirty().is_empty() => self.triangle(side, triangle),
                None => self.emit(side),
            },
            Command::Swap => self.swap(side),
            Command::Yield => self.yields(side),
            Command::Die => unreachable!(),
        }
    }
}
