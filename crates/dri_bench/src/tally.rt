//! The value that the benchmark guards: a number, which some work turns into another.

ghost use Rattle.std.specs.Prelude.{◌≡◌};
ghost use Rattle.dri_hwlock.specs.Tokens.{id_of, pass_token};

use dri_hwlock::{Guarded, HwLock, Pass};
use dri_kernel::Kernel;
use std::sync::Wait;

/// The steps of the work of one hold, some half a microsecond.
const WORK_STEPS: u32 = 250;

/// A value without entries.
#[derive(Drop)]
pub struct Tally {
    pub sum: u64,
    pub closer: u32,
}

impl Guarded for Tally {
    ghost use Rattle.std.specs.Prelude.{[]};

    type Base = u32;

    type Entry = u32;

    ghost base_of = { λ _. 0 };

    ghost entries_of = { λ _. [] };

    ghost context_of = { λ e. e };

    ghost closer_of = { λ t. t.closer };

    fn count(&self) -> u64 {
        0
    }

    fn closer(&self) -> u32 {
        self.closer
    }
}

impl Tally {
    ghost use Rattle.std.specs.Prelude.{◌≡◌};

    /// The value of a lock that opens.
    pub fn new() -> Tally
        ensures { result.closer ≡ 1 }
    {
        Tally { sum: 1, closer: 1 }
    }

    /// Half a microsecond of work, in the name of a context.
    pub fn work(&mut self, context: u32)
        ensures { self.new.closer ≡ context }
    {
        self.closer = context;
        self.sum = worked(self.sum);
    }
}

/// The number that the holds so far have left.
pub fn sum_in(rt: &impl Wait, lock: &HwLock<Tally>, kernel: &Kernel, pass: Pass<Tally>) -> u64
    requires own { (pass_token pass).lock ≡ id_of lock.now }
{
    let mut hold = kernel.lock_as_server(rt, lock, 0, pass);
    let sum = hold.value().sum;
    kernel.release(rt, lock, hold);
    sum
}

// Shifts and exclusive ors, step after step.
fn worked(sum: u64) -> u64 {
    let mut sum = sum;
    for _ in 0..WORK_STEPS {
        sum ^= sum << 13;
        sum ^= sum >> 7;
        sum ^= sum << 17;
    }
    sum
}
