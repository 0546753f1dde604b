//! At most one hold at a time, as a call that nobody can make.
ghost use Rattle.std.specs.Prelude.{◌≡◌, ℕ};
ghost use Rattle.dri_hwlock.specs.Tokens.{id_of, hold_token, KeepsBase, AddsOwn};

use crate::guarded::Guarded;
use crate::lock::{HwLock, LOCK_WORD, VALUE};
use crate::rule::{JoinHolders, LoadOfNoSeat};
use crate::tokens::{Grip, Hold};

/// A type without values.
pub enum Never {}

impl<G: Guarded> HwLock<G> {
    /// Two holds of one lock are never there at once: this would make of them a value of a type
    /// without values. The second is as a call gave it, or could be left.
    pub fn never_two(&self, first: Hold<G>, second: Hold<G>) -> Never
        requires first { (hold_token first).lock ≡ id_of self.now }
        requires second { (hold_token second).lock ≡ id_of self.now }
        requires base { KeepsBase second }
        requires adds { AddsOwn second }
    {
        let other = self.put_home(second);
        let Hold { grip, value } = first;
        let Grip {
            mut seat,
            context: _,
            name: _,
            found: _,
        } = grip;
        let empty = self.table.shared.exchange(&mut seat, VALUE, Some(value));
        let None = empty else { unreachable!() };
        self.table.shared.join_seat::<JoinHolders>(&mut seat, other);
        self.table.shared.load::<LoadOfNoSeat>(&mut seat, LOCK_WORD);
        unreachable!()
    }
}
