//! Four contexts, each in a thread of its own, take the lock, work in the hold and leave it, again and again.

ghost use Rattle.std.specs.Prelude.{◌≡◌, ◌+◌, ◌<◌, ◌≤◌};
ghost use Rattle.dri_hwlock.specs.Tokens.{id_of, pass_token};
ghost use Rattle.dri_bench.specs.Passes.{IsPassOf};

use crate::opened::last_pass;
use crate::tally::{Tally, sum_in};
use dri_hwlock::{HwLock, Pass};
use dri_kernel::Kernel;
use std::alloc::Global;
use std::sync::Wait;
use std::thread::{Threads, join};

/// So many holds of each of the four. `None` for want of memory.
pub fn run<R: Threads + Wait + Sync>(rt: &R, alloc: Global, times: u32) -> Option<u64> {
    let Ok((lock, mut passes)) = HwLock::new(alloc, Tally::new(), 5) else {
        return None;
    };
    let kernel = Kernel::new();
    let fifth = last_pass(&lock, &mut passes, 5);
    let fourth = last_pass(&lock, &mut passes, 4);
    let third = last_pass(&lock, &mut passes, 3);
    let second = last_pass(&lock, &mut passes, 2);
    let first = last_pass(&lock, &mut passes, 1);
    let hw = &lock;
    let k = &kernel;
    join(
        rt,
        move ||
            requires { IsPassOf (id_of hw.now) 2 second × IsPassOf (id_of hw.now) 3 third }
        { in_two(rt, hw, k, 2, second, third, times) },
        move ||
            requires { IsPassOf (id_of hw.now) 4 fourth × IsPassOf (id_of hw.now) 5 fifth }
        { in_two(rt, hw, k, 4, fourth, fifth, times) },
    );
    Some(sum_in(rt, hw, k, first))
}

// The holds of a context and of the next one, in two threads.
fn in_two<R: Threads + Wait + Sync>(
    rt: &R,
    lock: &HwLock<Tally>,
    kernel: &Kernel,
    context: u32,
    first: Pass<Tally>,
    second: Pass<Tally>,
    times: u32,
)
    requires range { (1 < context) × (context < 33) }
    requires first { IsPassOf (id_of lock.now) context first }
    requires second { IsPassOf (id_of lock.now) (context + 1) second }
{
    join(
        rt,
        move || holds(rt, lock, kernel, context, first, times),
        move || holds(rt, lock, kernel, context + 1, second, times),
    );
}

// The holds of one context, each by the light exchange or, where it fails, by the kernel.
fn holds(
    rt: &impl Wait,
    lock: &HwLock<Tally>,
    kernel: &Kernel,
    context: u32,
    pass: Pass<Tally>,
    times: u32,
)
    requires own { (pass_token pass).lock ≡ id_of lock.now }
    requires client { ((pass_token pass).context ≡ context) × (1 < context) × (context ≤ 33) }
{
    let mut pass = pass;
    for _ in 0..times {
        let mut hold = match lock.light(pass) {
            Ok(hold) => hold,
            Err(late) => kernel.lock(rt, lock, context - 1, late),
        };
        hold.value().work(context);
        pass = kernel.unlock(rt, lock, hold);
    }
}
