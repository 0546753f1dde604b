//! What waits for the lock: a client's late token, or a pass that is to hold as the server does. Both are taken and
//! marked alike, so one loop serves both.

ghost use Rattle.std.specs.Prelude.{◌≡◌, ◌⊎◌, IfOk, IfErr};
ghost use Rattle.dri_hwlock.specs.Words.{IsFree};
ghost use Rattle.dri_hwlock.specs.Tokens.{id_of, hold_token, value_in, found_word, after_take, IsHoldOf};
ghost use Rattle.dri_kernel.specs.Waiters.{FindsOther, IsSameWaiter, name_wanted, waiting_token};

use dri_hwlock::{Guarded, Hold, HwLock, Late, Marked, Pass};

/// A token that waits: a client's holds in the name of its own context, a server's in the name of context 1.
#[derive(Drop)]
pub(crate) enum Waiter<G: Guarded> {
    Client(Late<G>),
    Server(Pass<G>),
}

impl<G: Guarded> Waiter<G> {
    /// Tries to take the lock. Refused, it is the same waiter after some looks.
    pub(crate) fn take(self, hw: &HwLock<G>) -> Result<Hold<G>, Waiter<G>>
        requires own { (waiting_token self).lock ≡ id_of hw.now }
        ensures hold { IfOk result (IsHoldOf (waiting_token self) (name_wanted self)) }
        ensures looks { IfOk result (λ hold. hold_token hold ≡ after_take (waiting_token self) (found_word hold) (G.entries_of (value_in hold))) }
        ensures free { IfOk result (λ hold. IsFree (found_word hold)) }
        ensures found { IfOk result (λ hold. (found_word hold ≡ 0) ⊎ (found_word hold ≡ G.closer_of (value_in hold))) }
        ensures other { IfOk result (λ hold. FindsOther self (found_word hold)) }
        ensures refused { IfErr result (IsSameWaiter self) }
    {
        match self {
            Waiter::Client(late) => match hw.take(late) {
                Ok(hold) => Ok(hold),
                Err(refused) => Err(Waiter::Client(refused.into_token())),
            },
            Waiter::Server(pass) => match hw.take_as_server(pass) {
                Ok(hold) => Ok(hold),
                Err(refused) => Err(Waiter::Server(refused.into_token())),
            },
        }
    }

    /// Marks the held word, and tells whether it is marked now.
    pub(crate) fn marks(&mut self, hw: &HwLock<G>) -> bool
        requires own { (waiting_token self.old).lock ≡ id_of hw.now }
        ensures { IsSameWaiter self.old self.new }
    {
        let marked = match self {
            Waiter::Client(late) => hw.mark(late),
            Waiter::Server(pass) => hw.mark_as_server(pass),
        };
        matches!(marked, Marked::Contended { .. })
    }
}
