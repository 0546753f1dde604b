//! How a lock is made, with its passes.
ghost use Rattle.std.specs.Prelude.{◌≡◌, ℕ, ◌<◌, ◌≤◌, [], Some, IfOk, IfErr, length, vec_capacity};
ghost use Rattle.dri_hwlock.specs.Views.{new_view};
ghost use Rattle.dri_hwlock.specs.Tokens.{id_of, pass_count, opening_value, passes_in, AreNew};

use crate::answers::Unopened;
use crate::guarded::Guarded;
use crate::lock::HwLock;
use crate::passes::Passes;
use crate::rule::{Key, NextSeat};
use crate::tokens::{Pass, Place};
use atomic_table::{Refused, Table};
use std::alloc::Global;
use std::snapshot::Snapshot;

const MOST_PASSES: usize = 33;

impl<G: Guarded> HwLock<G> {
    /// A lock round a value without entries, and its passes, 1 to 33, with the contexts 1, 2 and so
    /// on. The word is 1. This call alone takes memory: where there is none, the value comes back.
    pub fn new(alloc: Global, value: G, passes: u32) -> Result<(HwLock<G>, Passes<G>), Unopened<G>>
        requires passes { (0 < passes) × (passes ≤ 33) }
        requires entries { G.entries_of value ≡ [] }
        requires closer { G.closer_of value ≡ 1 }
        ensures lock { IfOk result (λ r. pass_count r.0 ≡ passes) }
        ensures base { IfOk result (λ r. G.base_of (opening_value r.0) ≡ G.base_of value) }
        ensures count { IfOk result (λ r. length (passes_in r.1) ≡ passes) }
        ensures passes { IfOk result (λ r.
            AreNew (id_of r.0) (G.base_of value) 1 (passes_in r.1)) }
        ensures unopened { IfErr result (λ unopened. unopened.value ≡ value) }
    {
        let key = Key {
            value: Snapshot::of(&value),
            passes: u64::from(passes),
        };
        let Ok(list) = Vec::with_capacity(alloc, MOST_PASSES) else {
            return Err(Unopened { value });
        };
        let Ok(mut slots) = Vec::with_capacity(alloc, 1) else {
            return Err(Unopened { value });
        };
        slots.push_reserved(Some(value));
        match Table::new(alloc, &[1, 0], slots, &key) {
            Ok((table, seat)) => {
                let lock = HwLock { table, passes };
                let list = lock.make_passes(seat, list);
                Ok((lock, Passes { list }))
            }
            Err(Refused { mut slots }) => {
                let last = slots.pop();
                slots.destroy_empty();
                let Some(Some(value)) = last else {
                    unreachable!()
                };
                Err(Unopened { value })
            }
        }
    }

    // The pass of context 1, whose seat makes those of the others, and then the others.
    fn make_passes(&self, mut first: Place<G>, mut list: Vec<Pass<G>>) -> Vec<Pass<G>>
        requires own { first.table_id ≡ self.now.table.shared.table_id }
        requires first { first.me
            ≡ (new_view (Some (G.base_of (opening_value self.now))) self.now.passes 1 1, []) }
        requires list { (list.items ≡ []) × (33 ≤ vec_capacity list) }
        ensures count { length result.items ≡ self.now.passes }
        ensures passes { AreNew (id_of self.now) (G.base_of (opening_value self.now)) 1 result.items }
        ensures room { 33 ≤ vec_capacity result }
    {
        for i in 1..self.passes {
            let seat = self.table.shared.split_seat::<NextSeat>(&mut first);
            list.push_reserved(Pass {
                seat,
                context: i + 1,
            });
        }
        let pass = Pass {
            seat: first,
            context: 1,
        };
        let Ok(()) = list.insert(0, pass) else {
            unreachable!()
        };
        list
    }
}
