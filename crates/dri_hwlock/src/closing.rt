//! How a lock ends: all its seats are joined into one, which shows that nobody holds it.
ghost use Rattle.std.specs.Prelude.{◌≡◌, ℕ, length};
ghost use Rattle.dri_hwlock.specs.Tokens.{id_of, pass_count, opening_value, passes_in, AllOfLock, BeginsWithEach};

use crate::guarded::Guarded;
use crate::lock::{HwLock, VALUE};
use crate::passes::Passes;
use crate::rule::JoinSeats;

impl<G: Guarded> HwLock<G> {
    /// The value, whose entries begin with what each pass has seen. It needs all passes that `new`
    /// made.
    pub fn close(self, passes: Passes<G>) -> G
        requires all { length (passes_in passes) ≡ pass_count self }
        requires own { AllOfLock (id_of self) (passes_in passes) }
        ensures base { G.base_of result ≡ G.base_of (opening_value self) }
        ensures entries { BeginsWithEach (G.entries_of result) (passes_in passes) }
    {
        let HwLock { table, passes: _ } = self;
        let Passes { mut list } = passes;
        let Some(first) = list.pop() else {
            unreachable!()
        };
        let (mut seat, _) = first.open();
        while let Some(pass) = list.pop() {
            let (other, _) = pass.open();
            table.shared.join_seat::<JoinSeats>(&mut seat, other);
        }
        let mut closed = table.close_with(seat);
        let value = closed.take(VALUE);
        closed.free();
        let Some(value) = value else { unreachable!() };
        value
    }
}
