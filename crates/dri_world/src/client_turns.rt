//! The turns of a client, by its phase, and its kill. Each makes one event at most.

ghost use Rattle.std.specs.Prelude.{◌≡◌, ◌↔◌, false, true, IfOk, OnErr, Some, None};
ghost use Rattle.dri_driver.specs.Acts.{IfRan, IsAtDeath, IsAtEnd, MustGo, UnlessRan, event_of, next_event};
ghost use Rattle.dri_driver.specs.Fits.{Fits, IsSameClient};
ghost use Rattle.dri_core.specs.Phases as Phase_is;
ghost use Rattle.dri_core.specs.Phases.{is_holding};
ghost use Rattle.dri_core.specs.Turns.{or_waiting, phase_turn, waiting};
ghost use Rattle.dri_shared.specs.States.{Added, world_of};
ghost use Rattle.dri_world.specs.Sites.{core_at, kill_at, turn_at};
ghost use Rattle.dri_world.specs.Turns.{Brings, IsSeated, MayBring, is_still};

use crate::site::Site;
use dri_base::{Entry, Event, OutOfMemory};
use dri_driver::{Acted, Client, Phase};
use std::alloc::Global;

impl Site {
    /// The turn of a client: its one legal event, kills aside, or none. After `OutOfMemory` all is as before.
    pub(crate) fn turn_of(
        &mut self,
        alloc: Global,
        client: &mut Client,
    ) -> Result<Option<Event>, OutOfMemory>
        requires seated { IsSeated self.old client.old }
        requires legal { MayBring self.old (turn_at self.old client.old) }
        ensures event { IfOk result (λ o. o ≡ turn_at self.old client.old) }
        ensures made { IfOk result (λ o. Brings o self.old self.new client.old client.new) }
        ensures err { OnErr result (Brings None self.old self.new client.old client.new) }
    {
        match client.phase() {
            Phase::Out => Ok(self.turn_out(client)),
            Phase::Old => Ok(Some(self.say_stale(client))),
            Phase::In => self.turn_in(alloc, client),
            Phase::Over | Phase::Ask => Ok(Some(self.leave(client))),
            Phase::Asking => self.turn_asking(alloc, client),
            Phase::Dying => self.turn_dying(alloc, client),
            Phase::Ended | Phase::Dead => Ok(None),
        }
    }

    // A client that is out takes the word lightly where it left it last; else the kernel lets it in, or it waits.
    fn turn_out(&mut self, client: &mut Client) -> Option<Event>
        requires seated { IsSeated self.old client.old }
        requires living { client.old.dying ≡ false }
        requires legal { MayBring self.old (phase_turn self.old.shared.scene (core_at self.old false) client.old.number Phase_is.Out) }
        ensures event { result ≡ phase_turn self.old.shared.scene (core_at self.old false) client.old.number Phase_is.Out }
        ensures made { Brings result self.old self.new client.old client.new }
    {
        let number = client.number();
        if !self.lock.word.is_held() && self.lock.word.context() == number + 1 {
            return Some(self.take_lightly(client));
        }
        if self.lock.lets_in(number) {
            return Some(self.take_by_kernel(client));
        }
        self.wait_for(client)
    }

    // A client that may act runs its next command, or makes ready for it, or dies.
    fn turn_in(&mut self, alloc: Global, client: &mut Client) -> Result<Option<Event>, OutOfMemory>
        requires seated { IsSeated self.old client.old }
        requires living { client.old.dying ≡ false }
        requires phase { client.old.phase ≡ Phase_is.In }
        requires legal { MayBring self.old (phase_turn self.old.shared.scene (core_at self.old false) client.old.number Phase_is.In) }
        ensures event { IfOk result (λ o. o ≡ phase_turn self.old.shared.scene (core_at self.old false) client.old.number Phase_is.In) }
        ensures made { IfOk result (λ o. Brings o self.old self.new client.old client.new) }
        ensures err { OnErr result (Brings None self.old self.new client.old client.new) }
    {
        let number = client.number();
        let mut side = self.shared.client_side(number);
        let acted = client.act(&mut side);
        drop(side);
        match acted {
            Acted::Ran { entry } => Ok(Some(event_of(entry))),
            Acted::Dies => Ok(Some(self.bury(alloc, client)?)),
            Acted::MustLeave | Acted::Done => Ok(None),
        }
    }

    // A client that asks is told what its window shows, or waits.
    fn turn_asking(
        &mut self,
        alloc: Global,
        client: &mut Client,
    ) -> Result<Option<Event>, OutOfMemory>
        requires seated { IsSeated self.old client.old }
        requires living { client.old.dying ≡ false }
        requires phase { client.old.phase ≡ Phase_is.Asking }
        requires legal { MayBring self.old (phase_turn self.old.shared.scene (core_at self.old false) client.old.number Phase_is.Asking) }
        ensures event { IfOk result (λ o. o ≡ phase_turn self.old.shared.scene (core_at self.old false) client.old.number Phase_is.Asking) }
        ensures made { IfOk result (λ o. Brings o self.old self.new client.old client.new) }
        ensures err { OnErr result (Brings None self.old self.new client.old client.new) }
    {
        if self.lock.lets_in(client.number()) {
            return Ok(Some(self.inform(alloc, client)?));
        }
        Ok(self.wait_for(client))
    }

    // A client that is dying is gone, or waits.
    fn turn_dying(
        &mut self,
        alloc: Global,
        client: &mut Client,
    ) -> Result<Option<Event>, OutOfMemory>
        requires seated { IsSeated self.old client.old }
        requires dying { client.old.dying ≡ true }
        requires legal { MayBring self.old (or_waiting (core_at self.old true) client.old.number (Event.Gone client.old.number)) }
        ensures event { IfOk result (λ o. o ≡ or_waiting (core_at self.old true) client.old.number (Event.Gone client.old.number)) }
        ensures made { IfOk result (λ o. Brings o self.old self.new client.old client.new) }
        ensures err { OnErr result (Brings None self.old self.new client.old client.new) }
    {
        if self.lock.lets_in(client.number()) {
            return Ok(Some(self.bury(alloc, client)?));
        }
        Ok(self.wait_for(client))
    }

    // A client that can't go on joins the queue, or marks the word as the first there.
    fn wait_for(&mut self, client: &Client) -> Option<Event>
        requires seated { IsSeated self.old client.now }
        ensures event { result ≡ waiting (core_at self.old client.now.dying) client.now.number }
        ensures made { Brings result self.old self.new client.now client.now }
    {
        self.lock.wait(client.number())
    }

    /// The kill of a client: it is gone at once where it holds; where it hasn't ended it is stopped. It is passed over
    /// where it is dying already, has ended, or is dead. After `OutOfMemory` all is as before.
    pub(crate) fn kill_of(
        &mut self,
        alloc: Global,
        client: &mut Client,
    ) -> Result<Option<Event>, OutOfMemory>
        requires seated { IsSeated self.old client.old }
        requires resting { client.old.dying ≡ true → is_holding client.old.phase ≡ false }
        requires legal { MayBring self.old (kill_at self.old client.old) }
        ensures event { IfOk result (λ o. o ≡ kill_at self.old client.old) }
        ensures made { IfOk result (λ o. Brings o self.old self.new client.old client.new) }
        ensures err { OnErr result (Brings None self.old self.new client.old client.new) }
    {
        match client.phase() {
            Phase::Old | Phase::In | Phase::Over | Phase::Ask => Ok(Some(self.bury(
                alloc, client,
            )?)),
            Phase::Out | Phase::Asking => Ok(Some(self.stop(client))),
            Phase::Dying | Phase::Ended | Phase::Dead => Ok(None),
        }
    }
}

/// The event of a client that acts, whose entry this is.
fn event_of(entry: Entry) -> Event
    requires { is_still (event_of entry) ≡ true }
    ensures { result ≡ event_of entry }
{
    match entry {
        Entry::Emit { client, groups } => Event::Emit { client, groups },
        Entry::Place {
            client,
            texture,
            first,
            count,
        } => Event::Place {
            client,
            texture,
            first,
            count,
        },
        Entry::Run { client, place } => Event::Run { client, place },
        _ => unreachable!(),
    }
}
