//! How a token that waits marks a held word as contended, so that its holder leaves through the
//! kernel.
ghost use Rattle.std.specs.Prelude.{◌≡◌, ℕ};
ghost use Rattle.dri_hwlock.specs.Views.{is_outside, with_look};
ghost use Rattle.dri_hwlock.specs.Seats.{empty_handed};
ghost use Rattle.dri_hwlock.specs.Tokens.{id_of, pass_token, left_lightly, late_token, late_word};
ghost use Rattle.dri_hwlock.specs.Answers.{MarkAnswers, IsMarked};

use crate::answers::Marked;
use crate::guarded::Guarded;
use crate::lock::{CONTENDED, HELD, HwLock, LOCK_WORD};
use crate::rule::{Load, MarkExchange};
use crate::tokens::{Late, Pass, Place};

impl<G: Guarded> HwLock<G> {
    /// Sets bit 30 of a held word that lacks it, by a load and an exchange.
    pub fn mark(&self, late: &mut Late<G>) -> Marked
        requires own { (late_token late.old).lock ≡ id_of self.now }
        ensures marked { IsMarked (late_token late.old) (late_token late.new) result }
        ensures same { late_word late.new ≡ late_word late.old }
    {
        self.mark_word(&mut late.seat)
    }

    /// The same for a pass that waits to take the lock as server.
    pub fn mark_as_server(&self, pass: &mut Pass<G>) -> Marked
        requires own { (pass_token pass.old).lock ≡ id_of self.now }
        ensures marked { IsMarked (pass_token pass.old) (pass_token pass.new) result }
        ensures same { left_lightly pass.new ≡ left_lightly pass.old }
    {
        self.mark_word(&mut pass.seat)
    }

    fn mark_word(&self, seat: &mut Place<G>) -> Marked
        requires own { seat.old.table_id ≡ self.now.table.shared.table_id }
        requires empty { seat.old ≡ empty_handed seat.old }
        requires outside { is_outside seat.old.me.0.stage ≡ 1 }
        ensures own { seat.new.table_id ≡ seat.old.table_id }
        ensures empty { seat.new ≡ empty_handed seat.new }
        ensures marked { MarkAnswers with_look seat.old.me.0 seat.new.me.0 result }
    {
        let loaded = self.table.shared.load::<Load>(seat, LOCK_WORD);
        if loaded < HELD {
            return Marked::Free {
                word: loaded as u32,
            };
        }
        if loaded >= HELD + CONTENDED {
            return Marked::Contended {
                word: loaded as u32,
            };
        }
        let word = loaded + CONTENDED;
        let found = self
            .table
            .shared
            .compare_exchange::<MarkExchange>(seat, LOCK_WORD, loaded, word);
        if found == loaded {
            Marked::Contended { word: word as u32 }
        } else {
            Marked::Moved {
                loaded: loaded as u32,
                found: found as u32,
            }
        }
    }
}
