//! The shared value is what the lock guards. Its base is the scene, its entries are those of the journal, of which each
//! belongs to a context, 1 for the server and c + 1 for client c, and its closer is the context that the last hold left.

ghost use Rattle.std.specs.Prelude.{◌≡◌};
ghost use Rattle.dri_core.specs.Runs.{context_of};
ghost use Rattle.dri_shared.specs.States.{world_of};

use crate::shared::Shared;
use dri_base::{Entry, Scene};
use dri_hwlock::Guarded;

impl Guarded for Shared {
    type Base = Scene;

    type Entry = Entry;

    ghost base_of = { λ v. v.scene };

    ghost entries_of = { λ v. v.journal };

    ghost context_of = { context_of };

    ghost closer_of = { λ v. (world_of v).left };

    fn count(&self) -> u64 {
        self.journal.len() as u64
    }

    fn closer(&self) -> u32 {
        self.holdings.left
    }
}
