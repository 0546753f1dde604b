//! The actors that wait for the lock, in the order in which they came: a vector in fixed memory, with room for all 33.

ghost use Rattle.std.specs.Prelude.{◌≡◌, ◌++◌, [], ◌∷◌, ◌↔◌, ◌≤◌, ◌==◌, IsTrue, Contains, not, slice_get, length};
ghost use Rattle.std.specs.List.{filter, list_any};
ghost use Rattle.dri_kernel.specs.Waiting.{IsActor, IsQueue};

use arrayvec::ArrayVec;
use std::marker::Model;

/// The actors: the server and 32 clients.
pub(crate) const ACTORS: usize = 33;

/// The actors that wait, none of them twice: 0 is the server, 1 to 32 are the clients. Contracts see the list, the first
/// first.
#[derive(Drop)]
pub struct Queue {
    actors: ArrayVec<u32, ACTORS>,
}

impl Model for Queue {
    ghost use Rattle.std.specs.Prelude.{ℕ, List};
    ghost use Rattle.dri_kernel.specs.Waiting.{IsQueue};

    ghost Value = { List ℕ };

    ghost view = { λ q. q.actors.items };

    ghost invariant = { λ q. IsQueue q.actors.items };
}

impl Queue {
    /// The queue in which nobody waits.
    pub fn new() -> Queue
        ensures { result ≡ [] }
    {
        Queue {
            actors: ArrayVec::new(),
        }
    }

    /// Puts an actor last, 0 to 32. It doesn't wait yet, so there is room for it.
    pub fn join(&mut self, actor: u32)
        requires actor { IsActor actor }
        requires absent { ¬ Contains self.old actor }
        ensures { self.new ≡ self.old ++ actor ∷ [] }
    {
        self.actors.push(actor);
    }

    /// The actor that came first, and `None` exactly where nobody waits.
    pub fn front(&self) -> Option<u32>
        ensures { result ≡ slice_get self.now 0 }
    {
        self.actors.first().copied()
    }

    /// Takes an actor out, and leaves the others in their order. Where it doesn't wait the queue stays as it was.
    pub fn remove(&mut self, actor: u32)
        ensures { self.new ≡ filter (λ other. not (other == actor)) self.old }
    {
        self.actors.retain(|other| *other != actor);
    }

    /// Whether the actor waits.
    pub fn contains(&self, actor: u32) -> bool
        ensures member { IsTrue result ↔ Contains self.now actor }
        ensures test { result ≡ list_any (λ waiting. waiting == actor) self.now }
    {
        self.actors.contains(&actor)
    }

    /// The actors that wait, the first first.
    pub fn actors(&self) -> &[u32]
        ensures { result.now ≡ self.now }
    {
        self.actors.as_slice()
    }

    /// Whether nobody waits.
    pub fn is_empty(&self) -> bool
        ensures { IsTrue result ↔ (self.now ≡ []) }
    {
        self.actors.is_empty()
    }

    /// A law: those that wait are actors, none of them twice, and so at most 33.
    pub fn none_twice(&self)
        ensures queue { IsQueue self.now }
        ensures few { length self.now ≤ 33 }
    {
        let _count = self.actors.len();
    }

    // How many wait.
    pub(crate) fn len(&self) -> u32
        ensures { result ≤ 33 }
    {
        self.actors.len() as u32
    }
}
