//! The calls that wait: an actor that doesn't get the lock at once joins the queue, and the queue's
//! front marks the lock word and sleeps until a hold ends through the kernel.

ghost use Rattle.std.specs.Prelude.{◌≡◌, ◌≢◌, ◌⊎◌, ◌≤◌};
ghost use Rattle.dri_hwlock.specs.Words.{IsFree};
ghost use Rattle.dri_hwlock.specs.Tokens.{id_of, pass_token, left_lightly, late_token, hold_token, value_in, name_of, found_word, IsHoldOf, KeepsBase, AddsOwn, left_token};
ghost use Rattle.dri_kernel.specs.Calls.{IsTakenAfter, IsUnlocked, IsReleased};
ghost use Rattle.dri_kernel.specs.Waiters.{FindsOther, name_wanted, waiting_token};
ghost use Rattle.dri_kernel.specs.Waiting.{IsActor};

use crate::queue::{ACTORS, Queue};
use crate::waiter::Waiter;
use dri_hwlock::{Guarded, Hold, HwLock, Late, Left, Pass};
use std::array;
use std::hint::spin_loop;
use std::sync::{Condvar, Mutex, Wait};

// How often the queue's front tries to take a held lock before it marks the word and sleeps. A hold
// that ends meanwhile may still leave lightly.
const TRIES: u32 = 1024;

// How often the front has tried.
#[derive(Drop)]
struct Tries(u32);

impl Tries {
    // Whether the front has tried often enough; else it has a moment more.
    fn are_over(&mut self) -> bool {
        if self.0 < TRIES {
            self.0 += 1;
            spin_loop();
            return false;
        }
        true
    }
}

/// The queue of those that wait, behind a mutex, and for each actor what it sleeps on. It is shared
/// by `&`.
#[derive(Drop)]
pub struct Kernel {
    queue: Mutex<Queue>,
    sleepers: [Condvar; ACTORS],
}

impl Kernel {
    /// A kernel in which nobody waits.
    pub fn new() -> Kernel {
        Kernel {
            queue: Mutex::new(Queue::new()),
            sleepers: array::from_fn(|_| Condvar::new()),
        }
    }

    /// Takes the lock in its turn, as actor 0 to 32, after a light exchange that failed. It may wait,
    /// and never refuses. No two threads wait as one actor at a time: the first that is served takes
    /// the actor out of the queue, and nobody would wake the other. The hold is one that
    /// `HwLock::take` could have given.
    pub fn lock<G: Guarded>(
        &self,
        rt: &impl Wait,
        hw: &HwLock<G>,
        actor: u32,
        late: Late<G>,
    ) -> Hold<G>
        requires actor { IsActor actor }
        requires own { (late_token late).lock ≡ id_of hw.now }
        ensures hold { IsHoldOf (late_token late) (late_token late).context result }
        ensures looks { IsTakenAfter (late_token late) result }
        ensures free { IsFree (found_word result) }
        ensures found { (found_word result ≡ 0) ⊎ (found_word result ≡ G.closer_of (value_in result)) }
        ensures other { found_word result ≢ (late_token late).context }
    {
        self.take_in_turn(rt, hw, actor, Waiter::Client(late))
    }

    /// Takes the lock in its turn, as actor 0 to 32, in the name of context 1. Any pass may do so. It
    /// may wait, and never refuses. No two threads wait as one actor at a time: the first that is
    /// served takes the actor out of the queue, and nobody would wake the other. The hold is one that
    /// `HwLock::take_as_server` could have given.
    pub fn lock_as_server<G: Guarded>(
        &self,
        rt: &impl Wait,
        hw: &HwLock<G>,
        actor: u32,
        pass: Pass<G>,
    ) -> Hold<G>
        requires actor { IsActor actor }
        requires own { (pass_token pass).lock ≡ id_of hw.now }
        ensures hold { IsHoldOf (pass_token pass) 1 result }
        ensures looks { IsTakenAfter (pass_token pass) result }
        ensures free { IsFree (found_word result) }
        ensures found { (found_word result ≡ 0) ⊎ (found_word result ≡ G.closer_of (value_in result)) }
    {
        self.take_in_turn(rt, hw, actor, Waiter::Server(pass))
    }

    // Takes the lock in its turn. Each round has the mutex: the queue's front tries, and sleeps once it
    // has marked the held word; all others sleep.
    fn take_in_turn<G: Guarded>(
        &self,
        rt: &impl Wait,
        hw: &HwLock<G>,
        actor: u32,
        waiter: Waiter<G>,
    ) -> Hold<G>
        requires actor { IsActor actor }
        requires own { (waiting_token waiter).lock ≡ id_of hw.now }
        ensures hold { IsHoldOf (waiting_token waiter) (name_wanted waiter) result }
        ensures looks { IsTakenAfter (waiting_token waiter) result }
        ensures free { IsFree (found_word result) }
        ensures found { (found_word result ≡ 0) ⊎ (found_word result ≡ G.closer_of (value_in result)) }
        ensures other { FindsOther waiter (found_word result) }
    {
        let mut waiter = waiter;
        let mut queue = self.queue.lock(rt);
        if !queue.contains(actor) {
            queue.join(actor);
        }
        let mut tries = Tries(0);
        for _ in rt.forever() {
            let mut sleeps = true;
            if queue.front() == Some(actor) {
                waiter = match waiter.take(hw) {
                    Ok(hold) => {
                        queue.remove(actor);
                        self.wake_front(&queue);
                        return hold;
                    }
                    Err(refused) => refused,
                };
                sleeps = tries.are_over() && waiter.marks(hw);
            }
            if sleeps {
                queue = self.sleepers[actor as usize].wait(rt, queue);
            }
        }
        unreachable!()
    }

    /// Ends a hold in the name of its own context: by the light leave, or, exactly where the held word
    /// was marked, through the kernel. It may wait for the mutex.
    pub fn unlock<G: Guarded>(&self, rt: &impl Wait, hw: &HwLock<G>, hold: Hold<G>) -> Pass<G>
        requires own { (hold_token hold).lock ≡ id_of hw.now }
        requires client { name_of hold ≡ (hold_token hold).context }
        requires base { KeepsBase hold }
        requires adds { AddsOwn hold }
        requires closer { G.closer_of (value_in hold) ≡ (hold_token hold).context }
        ensures { IsUnlocked (left_token hold) (pass_token result) (left_lightly result) }
    {
        match hw.leave(hold) {
            Ok(pass) => pass,
            Err(parting) => {
                let pass = hw.leave_kernel(parting);
                self.wake(rt);
                pass
            }
        }
    }

    /// Ends a hold that was taken as server. It may wait for the mutex.
    pub fn unlock_server<G: Guarded>(
        &self,
        rt: &impl Wait,
        hw: &HwLock<G>,
        hold: Hold<G>,
    ) -> Pass<G>
        requires own { (hold_token hold).lock ≡ id_of hw.now }
        requires server { name_of hold ≡ 1 }
        requires base { KeepsBase hold }
        requires adds { AddsOwn hold }
        requires closer { G.closer_of (value_in hold) ≡ 1 }
        ensures { IsReleased (left_token hold) (pass_token result) (left_lightly result) }
    {
        let Left { pass, contended } = hw.leave_server(hold);
        if contended {
            self.wake(rt);
        }
        pass
    }

    /// Gives a hold up, for a death or for want of memory. It may wait for the mutex.
    pub fn release<G: Guarded>(&self, rt: &impl Wait, hw: &HwLock<G>, hold: Hold<G>) -> Pass<G>
        requires own { (hold_token hold).lock ≡ id_of hw.now }
        requires base { KeepsBase hold }
        requires adds { AddsOwn hold }
        ensures { IsReleased (left_token hold) (pass_token result) (left_lightly result) }
    {
        let pass = hw.leave_kernel(hw.part(hold));
        self.wake(rt);
        pass
    }

    /// How many actors wait, at the moment at which the mutex was got. It may wait for the mutex.
    pub fn waiting(&self, rt: &impl Wait) -> u32
        ensures { result ≤ 33 }
    {
        self.queue.lock(rt).len()
    }

    // Wakes the front after the word was freed. Under the mutex it isn't between its look at the word
    // and its sleep.
    fn wake(&self, rt: &impl Wait) {
        let queue = self.queue.lock(rt);
        self.wake_front(&queue);
    }

    // Wakes the queue's front, which alone may take the lock and has to mark its word.
    fn wake_front(&self, queue: &Queue) {
        let Some(front) = queue.front() else {
            return;
        };
        if let Some(sleeper) = self.sleepers.get(front as usize) {
            sleeper.notify_all();
        }
    }
}
