//! The events of a client, each made at the site and in the client itself.

ghost use Rattle.std.specs.Prelude.{◌≡◌, ◌⊎◌, false, IfOk, OnOk, OnErr, Some, None, if◌then◌else◌};
ghost use Rattle.dri_base.specs.declared.journal.Entry.TheVariants as Entry_is;
ghost use Rattle.dri_core.specs.Phases as Phase_is;
ghost use Rattle.dri_shared.specs.States.{MayAdd};
ghost use Rattle.dri_world.specs.Turns.{Brings, IsSeated};

use crate::lock::LockWord;
use crate::site::Site;
use dri_base::{Event, OutOfMemory};
use dri_driver::Client;
use std::alloc::Global;

impl Site {
    /// The client takes the word that it left last, with no check.
    pub(crate) fn take_lightly(&mut self, client: &mut Client) -> Event
        requires seated { IsSeated self.old client.old }
        requires legal { MayAdd self.old.shared (Entry_is.Light client.old.number) }
        ensures event { result ≡ Event.Light client.old.number }
        ensures made { Brings (Some (Event.Light client.old.number)) self.old self.new client.old client.new }
    {
        let number = client.number();
        let mut side = self.shared.client_side(number);
        client.after_light(&mut side);
        drop(side);
        self.lock.word = LockWord::held_by(number + 1);
        Event::Light { client: number }
    }

    /// The kernel lets the client in, which leaves the queue.
    pub(crate) fn take_by_kernel(&mut self, client: &mut Client) -> Event
        requires seated { IsSeated self.old client.old }
        requires legal { MayAdd self.old.shared (Entry_is.Kernel client.old.number self.old.lock.word.context) }
        ensures event { result ≡ Event.Kernel client.old.number self.old.lock.word.context }
        ensures made { Brings (Some (Event.Kernel client.old.number self.old.lock.word.context)) self.old self.new client.old client.new }
    {
        let number = client.number();
        let found = self.lock.word.context();
        let mut side = self.shared.client_side(number);
        let _checked = client.after_kernel(&mut side, found);
        drop(side);
        self.lock.admit(number);
        Event::Kernel {
            client: number,
            found,
        }
    }

    /// The client says that its stamp is old.
    pub(crate) fn say_stale(&mut self, client: &mut Client) -> Event
        requires seated { IsSeated self.old client.old }
        requires legal { MayAdd self.old.shared (Entry_is.Stale client.old.number) }
        ensures event { result ≡ Event.Stale client.old.number }
        ensures made { Brings (Some (Event.Stale client.old.number)) self.old self.new client.old client.new }
    {
        let number = client.number();
        let mut side = self.shared.client_side(number);
        client.stale(&mut side);
        drop(side);
        Event::Stale { client: number }
    }

    /// The client leaves the word: through the kernel where the word is marked.
    pub(crate) fn leave(&mut self, client: &mut Client) -> Event
        requires seated { IsSeated self.old client.old }
        requires legal { MayAdd self.old.shared (Entry_is.Leave client.old.number) }
        ensures event { result ≡ (if self.old.lock.word.contended then Event.LeaveKernel client.old.number else Event.LeaveLight client.old.number) }
        ensures made { Brings (Some result) self.old self.new client.old client.new }
    {
        let number = client.number();
        let mut side = self.shared.client_side(number);
        client.leave(&mut side);
        drop(side);
        if self.lock.word.is_contended() {
            self.lock.word = LockWord::left_by(0);
            return Event::LeaveKernel { client: number };
        }
        self.lock.word = LockWord::left_by(number + 1);
        Event::LeaveLight { client: number }
    }

    /// The client, which asks, is told what its window shows, and leaves the queue. After `OutOfMemory` all is as before.
    pub(crate) fn inform(
        &mut self,
        alloc: Global,
        client: &mut Client,
    ) -> Result<Event, OutOfMemory>
        requires seated { IsSeated self.old client.old }
        requires legal { MayAdd self.old.shared (Entry_is.Info client.old.number) }
        ensures event { IfOk result (λ e. e ≡ Event.Info client.old.number) }
        ensures made { OnOk result (Brings (Some (Event.Info client.old.number)) self.old self.new client.old client.new) }
        ensures err { OnErr result (Brings None self.old self.new client.old client.new) }
    {
        let number = client.number();
        let told = self.shared.tell(alloc, number)?;
        client.told(told);
        self.lock.end_hold(number, 1);
        Ok(Event::Info { client: number })
    }

    /// The client is gone: its windows are unmapped, it leaves the queue, and the word is the kernel's. After `OutOfMemory`
    /// all is as before.
    pub(crate) fn bury(&mut self, alloc: Global, client: &mut Client) -> Result<Event, OutOfMemory>
        requires seated { IsSeated self.old client.old }
        requires legal { MayAdd self.old.shared (Entry_is.Gone client.old.number) }
        ensures event { IfOk result (λ e. e ≡ Event.Gone client.old.number) }
        ensures made { OnOk result (Brings (Some (Event.Gone client.old.number)) self.old self.new client.old client.new) }
        ensures err { OnErr result (Brings None self.old self.new client.old client.new) }
    {
        let number = client.number();
        self.shared.bury(alloc, number)?;
        client.gone();
        self.lock.end_hold(number, 0);
        Ok(Event::Gone { client: number })
    }

    /// The client is stopped: it leaves the queue, and only its death is left.
    pub(crate) fn stop(&mut self, client: &mut Client) -> Event
        requires seated { IsSeated self.old client.old }
        requires waits { (client.old.phase ≡ Phase_is.Out) ⊎ (client.old.phase ≡ Phase_is.Asking) }
        requires live { client.old.dying ≡ false }
        ensures event { result ≡ Event.Stop client.old.number }
        ensures made { Brings (Some (Event.Stop client.old.number)) self.old self.new client.old client.new }
    {
        let number = client.number();
        client.stop();
        self.lock.queue.remove(number);
        Event::Stop { client: number }
    }
}
