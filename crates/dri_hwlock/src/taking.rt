//! How a token becomes a hold: by the light exchange, or by a load and an exchange of a free word.
ghost use Rattle.std.specs.Prelude.{◌≡◌, ◌≢◌, ◌⊎◌, ℕ, ◌<◌, [], ◌∷◌, None, IfOk, IfErr};
ghost use Rattle.dri_hwlock.specs.declared.view.Stage.TheVariants.{LightFailed};
ghost use Rattle.dri_hwlock.specs.Words.{IsFree};
ghost use Rattle.dri_hwlock.specs.Views.{is_outside, with_look, with_value_out};
ghost use Rattle.dri_hwlock.specs.Seats.{empty_handed};
ghost use Rattle.dri_hwlock.specs.Finds.{IsFound};
ghost use Rattle.dri_hwlock.specs.Tokens.{id_of, pass_token, left_lightly, late_token, late_word, hold_token, value_in, found_word, after_look, after_take, IsHoldOf};
ghost use Rattle.dri_hwlock.specs.Answers.{IsMiss, IsRefused, refused_token};

use crate::answers::{Miss, Refused};
use crate::guarded::Guarded;
use crate::lock::{HELD, HwLock, LOCK_WORD, VALUE};
use crate::rule::{LightExchange, Load, TakeExchange};
use crate::tokens::{Grip, Hold, Late, Pass, Place};

impl<G: Guarded> HwLock<G> {
    /// Takes the lock by one exchange, `Ok` exactly where the word is the pass's context, at least
    /// 2. The value's entries are then just those that the pass had seen. `Late` keeps the other
    /// word that it found.
    pub fn light(&self, pass: Pass<G>) -> Result<Hold<G>, Late<G>>
        requires own { (pass_token pass).lock ≡ id_of self.now }
        requires client { 1 < (pass_token pass).context }
        ensures hold { IfOk result (IsHoldOf (pass_token pass) (pass_token pass).context) }
        ensures look { IfOk result (λ hold. hold_token hold
            ≡ after_look (pass_token pass) (pass_token pass).context) }
        ensures found { IfOk result (λ hold. found_word hold ≡ (pass_token pass).context) }
        ensures seen { IfOk result (λ hold. G.entries_of (value_in hold) ≡ (pass_token pass).seen) }
        ensures closer { IfOk result (λ hold. G.closer_of (value_in hold)
            ≡ (pass_token pass).context) }
        ensures late { IfErr result (λ late. late_token late
            ≡ after_look (pass_token pass) (late_word late)) }
        ensures other { IfErr result (λ late. late_word late ≢ (pass_token pass).context) }
    {
        let (mut seat, context) = pass.open();
        let word = u64::from(context);
        let found = self
            .table
            .shared
            .compare_exchange::<LightExchange>(&mut seat, LOCK_WORD, word, HELD + word);
        if found == word {
            let value = self.table.shared.exchange(&mut seat, VALUE, None).unwrap();
            let grip = Grip {
                seat,
                context,
                name: context,
                found: context,
            };
            Ok(Hold { grip, value })
        } else {
            Err(Late {
                seat,
                context,
                found: found as u32,
            })
        }
    }

    /// Takes the lock by a load and an exchange of the free word that the load found.
    pub fn take(&self, late: Late<G>) -> Result<Hold<G>, Refused<Late<G>>>
        requires own { (late_token late).lock ≡ id_of self.now }
        ensures hold { IfOk result (IsHoldOf (late_token late) (late_token late).context) }
        ensures looks { IfOk result (λ hold. hold_token hold
            ≡ after_take (late_token late) (found_word hold) (G.entries_of (value_in hold))) }
        ensures free { IfOk result (λ hold. IsFree (found_word hold)) }
        ensures found { IfOk result (λ hold.
            (found_word hold ≡ 0) ⊎ (found_word hold ≡ G.closer_of (value_in hold))) }
        ensures other { IfOk result (λ hold. found_word hold ≢ (late_token late).context) }
        ensures refused { IfErr result (IsRefused late_token (late_token late)) }
        ensures same { IfErr result (λ refusal.
            late_word (refused_token refusal) ≡ late_word late) }
    {
        let (mut seat, context, first_found) = late.open();
        match self.take_value(&mut seat, context) {
            Ok((value, found)) => {
                let grip = Grip {
                    seat,
                    context,
                    name: context,
                    found,
                };
                Ok(Hold { grip, value })
            },
            Err(miss) => {
                let late = Late {
                    seat,
                    context,
                    found: first_found,
                };
                Err(miss.refuse(late))
            }
        }
    }

    /// Takes the lock as the server does, in the name of context 1. Any pass may do so.
    pub fn take_as_server(&self, pass: Pass<G>) -> Result<Hold<G>, Refused<Pass<G>>>
        requires own { (pass_token pass).lock ≡ id_of self.now }
        ensures hold { IfOk result (IsHoldOf (pass_token pass) 1) }
        ensures looks { IfOk result (λ hold. hold_token hold
            ≡ after_take (pass_token pass) (found_word hold) (G.entries_of (value_in hold))) }
        ensures free { IfOk result (λ hold. IsFree (found_word hold)) }
        ensures found { IfOk result (λ hold.
            (found_word hold ≡ 0) ⊎ (found_word hold ≡ G.closer_of (value_in hold))) }
        ensures refused { IfErr result (IsRefused pass_token (pass_token pass)) }
        ensures same { IfErr result (λ refusal.
            left_lightly (refused_token refusal) ≡ left_lightly pass) }
    {
        let (mut seat, context) = pass.open();
        match self.take_value(&mut seat, 1) {
            Ok((value, found)) => {
                let grip = Grip {
                    seat,
                    context,
                    name: 1,
                    found,
                };
                Ok(Hold { grip, value })
            },
            Err(miss) => Err(miss.refuse(Pass { seat, context })),
        }
    }

    // Tries to take the word under a name, and the value with it.
    fn take_value(&self, seat: &mut Place<G>, name: u32) -> Result<(G, u32), Miss>
        requires own { seat.old.table_id ≡ self.now.table.shared.table_id }
        requires empty { seat.old ≡ empty_handed seat.old }
        requires outside { is_outside seat.old.me.0.stage ≡ 1 }
        requires name { (name ≡ seat.old.me.0.context) ⊎ (name ≡ 1) }
        ensures own { seat.new.table_id ≡ seat.old.table_id }
        ensures ok { IfOk result (λ r. seat.new.me
            ≡ (
              with_value_out (with_look seat.old.me.0 r.1) r.1 name (G.entries_of r.0),
              (0, None) ∷ [],
            )) }
        ensures found { IfOk result (λ r.
            IsFound G.base_of G.entries_of G.context_of G.closer_of seat.old.me.0 r.0 r.1) }
        ensures late { IfOk result (λ r. seat.old.me.0.stage ≡ LightFailed
            → 1 < r.1 → r.1 ≢ seat.old.me.0.context) }
        ensures empty { IfErr result (λ miss. seat.new ≡ empty_handed seat.new) }
        ensures miss { IfErr result (IsMiss with_look seat.old.me.0 seat.new.me.0) }
    {
        let loaded = self.table.shared.load::<Load>(seat, LOCK_WORD);
        if loaded >= HELD {
            return Err(Miss::Held(loaded as u32));
        }
        let word = HELD + u64::from(name);
        let found = self
            .table
            .shared
            .compare_exchange::<TakeExchange>(seat, LOCK_WORD, loaded, word);
        if found == loaded {
            let value = self.table.shared.exchange(seat, VALUE, None).unwrap();
            Ok((value, found as u32))
        } else {
            Err(Miss::Moved(loaded as u32, found as u32))
        }
    }
}
