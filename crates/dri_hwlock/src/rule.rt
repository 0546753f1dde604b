//! The rule of the table, and a type for each kind of step, which says what the step tells.
use crate::guarded::Guarded;
use crate::view::View;
use atomic_table::{Join, Play, Split, TableRule};
use std::snapshot::Snapshot;

/// What the table is told once: the opening value, as a snapshot without bytes, and the number of
/// passes.
pub struct Key<G> {
    pub value: Snapshot<G>,
    pub passes: u64,
}

impl<G> Drop for Key<G> {
    fn drop(self) {
        let Self {
            value: _,
            passes: _,
        } = self;
    }
}

pub struct Rule;

impl<G: Guarded> TableRule<Option<G>, View<G::Base, G::Entry>, Key<G>> for Rule {
    ghost use Rattle.std.specs.Prelude.{Some};
    ghost use Rattle.dri_hwlock.specs.Rule.{IsKept};
    ghost use Rattle.dri_hwlock.specs.Views.{new_view};

    ghost holds = { λ key. IsKept G.base_of G.entries_of G.context_of G.closer_of (G.base_of key.value.value) key.passes };

    ghost first = { λ key. new_view (Some (G.base_of key.value.value)) key.passes 1 1 };
}

/// A load of the lock word.
pub struct Load;

impl<G, B, E> Play<Option<G>, View<B, E>> for Load {
    ghost use Rattle.dri_hwlock.specs.Steps.{load_tells};

    ghost then = { load_tells };
}

/// The exchange of a context for its held word.
pub struct LightExchange;

impl<G: Guarded> Play<Option<G>, View<G::Base, G::Entry>> for LightExchange {
    ghost use Rattle.dri_hwlock.specs.Steps.{light_tells};

    ghost then = { light_tells G.base_of G.entries_of G.closer_of };
}

/// The exchange of a free word that was loaded for a held word.
pub struct TakeExchange;

impl<G: Guarded> Play<Option<G>, View<G::Base, G::Entry>> for TakeExchange {
    ghost use Rattle.dri_hwlock.specs.Steps.{take_tells};

    ghost then = { take_tells G.base_of G.entries_of G.context_of G.closer_of };
}

/// The exchange that sets bit 30 of a held word.
pub struct MarkExchange;

impl<G, B, E> Play<Option<G>, View<B, E>> for MarkExchange {
    ghost use Rattle.dri_hwlock.specs.Steps.{mark_tells};

    ghost then = { mark_tells };
}

/// A load of the number of entries, with which the value comes home where the hold has added nothing.
pub struct CountLoad;

impl<G: Guarded> Play<Option<G>, View<G::Base, G::Entry>> for CountLoad {
    ghost use Rattle.dri_hwlock.specs.Steps.{count_load_tells};

    ghost then = { count_load_tells G.entries_of G.closer_of };
}

/// The swap of the number of entries, with which the value comes home.
pub struct CountSwap;

impl<G: Guarded> Play<Option<G>, View<G::Base, G::Entry>> for CountSwap {
    ghost use Rattle.dri_hwlock.specs.Steps.{count_tells};

    ghost then = { count_tells G.entries_of G.closer_of };
}

/// The exchange of a held word for its context.
pub struct LightLeave;

impl<G, B, E> Play<Option<G>, View<B, E>> for LightLeave {
    ghost use Rattle.dri_hwlock.specs.Steps.{light_leave_tells};

    ghost then = { light_leave_tells };
}

/// The swap that frees the word in any case.
pub struct LeaveSwap;

impl<G, B, E> Play<Option<G>, View<B, E>> for LeaveSwap {
    ghost use Rattle.dri_hwlock.specs.Steps.{leave_tells};

    ghost then = { leave_tells };
}

/// The seat of context 1 makes the next one.
pub struct NextSeat;

impl<B, E> Split<View<B, E>> for NextSeat {
    ghost use Rattle.dri_hwlock.specs.Views.{with_seat_made, next_view};

    ghost left = { with_seat_made };

    ghost right = { next_view };
}

/// One seat takes in what another has seen.
pub struct JoinSeats;

impl<B, E> Join<View<B, E>> for JoinSeats {
    ghost use Rattle.dri_hwlock.specs.Views.{with_joined, spent_view};

    ghost both = { with_joined };

    ghost spent = { spent_view };
}

/// Two seats in a hold are joined, which never happens: the view is then one that no seat has.
pub struct JoinHolders;

impl<B, E> Join<View<B, E>> for JoinHolders {
    ghost use Rattle.dri_hwlock.specs.Views.{no_view, spent_view};

    ghost both = { λ _ _. no_view };

    ghost spent = { spent_view };
}

/// A load with a seat of that view, which never happens.
pub struct LoadOfNoSeat;

impl<G, B, E> Play<Option<G>, View<B, E>> for LoadOfNoSeat {
    ghost use Rattle.dri_hwlock.specs.Steps.{never_tells};

    ghost then = { never_tells };
}
