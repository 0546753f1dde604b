//! How a hold ends: its value goes home first, and then the word is freed.
ghost use Rattle.std.specs.Prelude.{◌≡◌, ℕ, [], IfOk, IfErr, IsTrue, ◌↔◌};
ghost use Rattle.dri_hwlock.specs.Words.{held_word, IsContended, IsUncontended};
ghost use Rattle.dri_hwlock.specs.Views.{with_value_home};
ghost use Rattle.dri_hwlock.specs.Tokens.{id_of, pass_token, left_lightly, hold_token, value_in, name_of, parting_token, after_look, KeepsBase, AddsOwn, left_token};

use crate::answers::Left;
use crate::guarded::Guarded;
use crate::lock::{CONTENDED, ENTRY_COUNT, HELD, HwLock, LOCK_WORD, VALUE};
use crate::rule::{CountLoad, CountSwap, LeaveSwap, LightLeave};
use crate::tokens::{Grip, Hold, Parting, Pass, Place};

impl<G: Guarded> HwLock<G> {
    /// Ends a hold in the name of its own context by one exchange, after which the word is that
    /// context. `Parting` exactly where the word found has bit 30. The value is home in both cases.
    pub fn leave(&self, hold: Hold<G>) -> Result<Pass<G>, Parting<G>>
        requires own { (hold_token hold).lock ≡ id_of self.now }
        requires client { name_of hold ≡ (hold_token hold).context }
        requires base { KeepsBase hold }
        requires adds { AddsOwn hold }
        requires closer { G.closer_of (value_in hold) ≡ (hold_token hold).context }
        ensures look { IfOk result (λ pass. pass_token pass
            ≡ after_look (left_token hold) (held_word (hold_token hold).context)) }
        ensures uncontended { IfOk result (λ pass. IsUncontended (pass_token pass).last_word) }
        ensures lightly { IfOk result (λ pass. left_lightly pass ≡ 1) }
        ensures parting { IfErr result (λ parting. parting_token parting
            ≡ after_look (left_token hold) (parting_token parting).last_word) }
        ensures contended { IfErr result (λ parting.
            IsContended (parting_token parting).last_word) }
    {
        let context = hold.grip.context;
        let word = u64::from(context);
        let mut seat = self.put_home(hold);
        let found = self
            .table
            .shared
            .compare_exchange::<LightLeave>(&mut seat, LOCK_WORD, HELD + word, word);
        if found == HELD + word {
            Ok(Pass { seat, context })
        } else {
            Err(Parting {
                seat,
                context,
                word: found as u32,
            })
        }
    }

    /// Ends a hold that was taken as server by one swap, after which the word is 1.
    pub fn leave_server(&self, hold: Hold<G>) -> Left<G>
        requires own { (hold_token hold).lock ≡ id_of self.now }
        requires server { name_of hold ≡ 1 }
        requires base { KeepsBase hold }
        requires adds { AddsOwn hold }
        requires closer { G.closer_of (value_in hold) ≡ 1 }
        ensures look { pass_token result.pass
            ≡ after_look (left_token hold) (pass_token result.pass).last_word }
        ensures contended { IsTrue result.contended
            ↔ IsContended (pass_token result.pass).last_word }
        ensures lightly { left_lightly result.pass ≡ 0 }
    {
        let context = hold.grip.context;
        let mut seat = self.put_home(hold);
        let found = self.table.shared.swap::<LeaveSwap>(&mut seat, LOCK_WORD, 1);
        Left {
            pass: Pass { seat, context },
            contended: found / CONTENDED % 2 == 1,
        }
    }

    /// Puts the value home, whatever its closer is, and makes no look.
    pub fn part(&self, hold: Hold<G>) -> Parting<G>
        requires own { (hold_token hold).lock ≡ id_of self.now }
        requires base { KeepsBase hold }
        requires adds { AddsOwn hold }
        ensures parting { parting_token result ≡ left_token hold }
    {
        let context = hold.grip.context;
        let word = hold.grip.found;
        let seat = self.put_home(hold);
        Parting {
            seat,
            context,
            word,
        }
    }

    /// Frees the word by one swap, after which it is 0.
    pub fn leave_kernel(&self, parting: Parting<G>) -> Pass<G>
        requires own { (parting_token parting).lock ≡ id_of self.now }
        ensures look { pass_token result
            ≡ after_look (parting_token parting) (pass_token result).last_word }
        ensures contended { IsContended (parting_token parting).last_word
            → IsContended (pass_token result).last_word }
        ensures lightly { left_lightly result ≡ 0 }
    {
        let Parting {
            mut seat,
            context,
            word: _,
        } = parting;
        self.table.shared.swap::<LeaveSwap>(&mut seat, LOCK_WORD, 0);
        Pass { seat, context }
    }

    // Puts the value into its slot, and then stores the number of its entries: with that swap it is
    // home. Where the number stands already, since the hold has added nothing, the load that finds
    // it will do.
    pub(crate) fn put_home(&self, hold: Hold<G>) -> Place<G>
        requires own { hold.grip.seat.table_id ≡ self.now.table.shared.table_id }
        requires base { KeepsBase hold }
        requires adds { AddsOwn hold }
        ensures own { result.table_id ≡ hold.grip.seat.table_id }
        ensures home { result.me ≡ (
          with_value_home hold.grip.seat.me.0 hold.grip.name
              (G.closer_of hold.value) (G.entries_of hold.value),
          [],
        ) }
    {
        let Hold { grip, value } = hold;
        let Grip {
            mut seat,
            context: _,
            name: _,
            found: _,
        } = grip;
        let count = value.count();
        let empty = self.table.shared.exchange(&mut seat, VALUE, Some(value));
        let None = empty else { unreachable!() };
        let found = self.table.shared.load::<CountLoad>(&mut seat, ENTRY_COUNT);
        if found == count {
            return seat;
        }
        self.table
            .shared
            .swap::<CountSwap>(&mut seat, ENTRY_COUNT, count);
        seat
    }
}
