//! One context takes the lock by the light exchange and leaves it lightly, again and again.

ghost use Rattle.std.specs.Prelude.{◌≡◌};
ghost use Rattle.dri_hwlock.specs.Tokens.{id_of, pass_token};

use crate::opened::last_pass;
use dri_hwlock::{Guarded, HwLock, Pass};
use dri_kernel::Kernel;
use std::alloc::Global;
use std::sync::Wait;

/// A value that is its closer alone, so that the pair is timed and not the value's way.
#[derive(Drop)]
struct Bare {
    closer: u32,
}

impl Guarded for Bare {
    ghost use Rattle.std.specs.Prelude.{[]};

    type Base = u32;

    type Entry = u32;

    ghost base_of = { λ _. 0 };

    ghost entries_of = { λ _. [] };

    ghost context_of = { λ e. e };

    ghost closer_of = { λ b. b.closer };

    fn count(&self) -> u64 {
        0
    }

    fn closer(&self) -> u32 {
        self.closer
    }
}

/// So many pairs; the number of holds that weren't got lightly, which is 1. `None` for want of memory.
pub fn run(rt: &impl Wait, alloc: Global, times: u32) -> Option<u64> {
    let Ok((lock, mut passes)) = HwLock::new(alloc, Bare { closer: 1 }, 2) else {
        return None;
    };
    let kernel = Kernel::new();
    let second = last_pass(&lock, &mut passes, 2);
    Some(light_pairs(rt, &lock, &kernel, second, times))
}

// The first hold is got by the kernel, and leaves the word that each of the others finds.
fn light_pairs(
    rt: &impl Wait,
    lock: &HwLock<Bare>,
    kernel: &Kernel,
    pass: Pass<Bare>,
    times: u32,
) -> u64
    requires own { (pass_token pass).lock ≡ id_of lock.now }
    requires client { (pass_token pass).context ≡ 2 }
{
    let mut pass = pass;
    let mut late: u64 = 0;
    for _ in 0..times {
        let hold = match lock.light(pass) {
            Ok(hold) => hold,
            Err(token) => {
                late = late.wrapping_add(1);
                let mut hold = kernel.lock(rt, lock, 1, token);
                hold.value().closer = 2;
                hold
            }
        };
        pass = kernel.unlock(rt, lock, hold);
    }
    late
}
