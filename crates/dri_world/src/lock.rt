//! The lock: the word, kept as what its bits say, and the queue of the actors that wait for it. Context 0 is the
//! kernel's, context 1 the server's, and context k + 1 that of client k.

ghost use Rattle.std.specs.Prelude.{◌≡◌, ◌≤◌, ◌+◌, ◌&&◌, not, true, false, Bool, []};
ghost use Rattle.dri_core.specs.Cores.{is_first, is_next, journal_of, word_number};
ghost use Rattle.dri_core.specs.EventTable.{leaves};
ghost use Rattle.dri_core.specs.Turns.{core_after, one_event, waiting};
ghost use Rattle.dri_shared.specs.States.{SharedState};
ghost use Rattle.dri_world.specs.Sites.{core_at};

use dri_base::Event;
use dri_kernel::Queue;
use std::marker::Model;

// Bit 31 of the word's number: somebody holds.
const HELD: u32 = 0x8000_0000;

// Bit 30: the first in the queue has marked the word.
const CONTENDED: u32 = 0x4000_0000;

/// The lock word: held or not, marked by the first in the queue or not, and the context that holds it or that left it.
#[derive(Drop)]
pub(crate) struct LockWord {
    held: bool,
    contended: bool,
    context: u32,
}

impl Model for LockWord {
    ghost use Rattle.std.specs.Prelude.{◌≤◌};
    ghost use Rattle.dri_core.specs.Cores.{Word};

    ghost Value = { Word };

    ghost view = { λ w. record { held = w.held; contended = w.contended; context = w.context } };

    ghost invariant = { λ w. w.context ≤ 33 };
}

impl LockWord {
    /// The word of a context that holds, unmarked.
    pub(crate) fn held_by(context: u32) -> LockWord
        requires { context ≤ 33 }
        ensures { result ≡ record { held = true; contended = false; context = context } }
    {
        LockWord {
            held: true,
            contended: false,
            context,
        }
    }

    /// The word that a context has left.
    pub(crate) fn left_by(context: u32) -> LockWord
        requires { context ≤ 33 }
        ensures { result ≡ record { held = false; contended = false; context = context } }
    {
        LockWord {
            held: false,
            contended: false,
            context,
        }
    }

    /// The same word, marked: its holder leaves through the kernel.
    pub(crate) fn mark(&mut self)
        ensures { self.new ≡ record self.old { contended = true } }
    {
        self.contended = true;
    }

    pub(crate) fn is_held(&self) -> bool
        ensures { result ≡ self.now.held }
    {
        self.held
    }

    pub(crate) fn is_contended(&self) -> bool
        ensures { result ≡ self.now.contended }
    {
        self.contended
    }

    pub(crate) fn context(&self) -> u32
        ensures value { result ≡ self.now.context }
        ensures small { result ≤ 33 }
    {
        self.context
    }

    /// The word as a number: bit 31 says held, bit 30 contended, and the rest is the context.
    pub(crate) fn number(&self) -> u32
        ensures { result ≡ word_number self.now }
    {
        let held = if self.held { HELD } else { 0 };
        let contended = if self.contended { CONTENDED } else { 0 };
        held + (contended + self.context)
    }
}

/// The lock word, and the actors that wait for it, the first first.
#[derive(Drop)]
pub(crate) struct Lock {
    pub(crate) word: LockWord,
    pub(crate) queue: Queue,
}

impl Lock {
    /// Whether the actor could take the word through the kernel now: nobody holds it, and nobody waits before this actor.
    pub(crate) fn lets_in(&self, actor: u32) -> bool
        ensures { result ≡ (not self.now.word.held && is_next actor self.now.queue) }
    {
        !self.word.is_held() && is_next(&self.queue, actor)
    }

    /// The kernel admits a client: it leaves the queue, and its context holds the word.
    pub(crate) fn admit(&mut self, client: u32)
        requires { client ≤ 32 }
        ensures word { self.new.word ≡ record { held = true; contended = false; context = client + 1 } }
        ensures queue { self.new.queue ≡ leaves client self.old.queue }
    {
        self.queue.remove(client);
        self.word = LockWord::held_by(client + 1);
    }

    /// A whole hold of an actor ends: it leaves the queue, and the word with this context.
    pub(crate) fn end_hold(&mut self, actor: u32, context: u32)
        requires { context ≤ 33 }
        ensures word { self.new.word ≡ record { held = false; contended = false; context = context } }
        ensures queue { self.new.queue ≡ leaves actor self.old.queue }
    {
        self.queue.remove(actor);
        self.word = LockWord::left_by(context);
    }

    /// An actor that can't go on joins the queue; once it is the first there it marks the held word.
    pub(crate) fn wait(&mut self, actor: u32) -> Option<Event>
        requires { actor ≤ 32 }
        ensures event { (v : SharedState) (dying : Bool) → result ≡ waiting (core_at (record { shared = v; lock = self.old }) dying) actor }
        ensures word { (v : SharedState) (dying : Bool) → self.new.word ≡ (core_after v.scene (core_at (record { shared = v; lock = self.old }) dying) result).word }
        ensures queue { (v : SharedState) (dying : Bool) → self.new.queue ≡ (core_after v.scene (core_at (record { shared = v; lock = self.old }) dying) result).queue }
        ensures entry { journal_of (one_event result) ≡ [] }
    {
        if !self.queue.contains(actor) {
            self.queue.join(actor);
            return Some(Event::Queue { actor });
        }
        if is_first(&self.queue, actor) && self.word.is_held() && !self.word.is_contended() {
            self.word.mark();
            return Some(Event::Mark { actor });
        }
        None
    }
}

/// Whether the actor is the first in the queue, or the queue is empty.
fn is_next(queue: &Queue, actor: u32) -> bool
    ensures { result ≡ is_next actor queue.now }
{
    match queue.front() {
        Some(first) => first == actor,
        None => true,
    }
}

/// Whether the actor is the first in the queue.
fn is_first(queue: &Queue, actor: u32) -> bool
    ensures { result ≡ is_first actor queue.now }
{
    match queue.front() {
        Some(first) => first == actor,
        None => false,
    }
}
