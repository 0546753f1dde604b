//! Eight threads take the lock ten thousand times each: every entry is there once, and each thread's
//! in its order.
ghost use Rattle.std.specs.Prelude.{◌≡◌, ◌+◌, ◌-◌, ◌<◌, ◌≤◌, length};
ghost use Rattle.dri_hwlock.specs.Tokens.{id_of, pass_token, opening_value, passes_in, AreNew};
ghost use Rattle.dri_lock_tests.specs.Pairs.{IsPairOf};

use crate::notes::{Note, Notes, last_pass, no_notes};
use dri_hwlock::{HwLock, Pass, Passes};
use dri_kernel::Kernel;
use std::alloc::Global;
use std::sync::{Barrier, Wait};
use std::test::Fail;
use std::thread::{Threads, join};

const HOLDS: u32 = 10_000;

// What becomes of a thread's holds.
#[derive(Clone, Copy, Drop)]
enum Ends {
    // Each is unlocked.
    Unlocked,
    // Every second one is given up.
    HalfReleased,
}

// All holds of one context, with an entry each, once all threads are there.
fn work<R: Wait>(
    rt: &R,
    lock: &HwLock<Notes>,
    kernel: &Kernel,
    start: &Barrier,
    ends: Ends,
    context: u32,
    pass: Pass<Notes>,
)
    requires own { (pass_token pass).lock ≡ id_of lock.now }
    requires context { ((pass_token pass).context ≡ context) × (1 < context) × (context ≤ 33) }
{
    start.wait(rt);
    let mut pass = pass;
    for number in 0..HOLDS {
        let mut hold = match lock.light(pass) {
            Ok(hold) => hold,
            Err(late) => kernel.lock(rt, lock, context - 1, late),
        };
        hold.value().add(Note { context, number });
        pass = match ends {
            Ends::HalfReleased if number % 2 == 1 => kernel.release(rt, lock, hold),
            _ => kernel.unlock(rt, lock, hold),
        };
    }
}

// Two contexts that follow each other, each in a thread of its own.
fn work_in_two<R: Threads + Wait + Sync>(
    rt: &R,
    lock: &HwLock<Notes>,
    kernel: &Kernel,
    start: &Barrier,
    ends: Ends,
    context: u32,
    first: Pass<Notes>,
    second: Pass<Notes>,
)
    requires range { (1 < context) × (context < 33) }
    requires first { ((pass_token first).lock ≡ id_of lock.now) × ((pass_token first).context ≡ context) }
    requires second { ((pass_token second).lock ≡ id_of lock.now) × ((pass_token second).context ≡ context + 1) }
{
    join(
        rt,
        move || work(rt, lock, kernel, start, ends, context, first),
        move || work(rt, lock, kernel, start, ends, context + 1, second),
    );
}

// Four contexts that follow each other.
fn work_in_four<R: Threads + Wait + Sync>(
    rt: &R,
    lock: &HwLock<Notes>,
    kernel: &Kernel,
    start: &Barrier,
    ends: Ends,
    context: u32,
    low: (Pass<Notes>, Pass<Notes>),
    high: (Pass<Notes>, Pass<Notes>),
)
    requires range { (1 < context) × (context < 31) }
    requires low { IsPairOf (id_of lock.now) context low }
    requires high { IsPairOf (id_of lock.now) (context + 2) high }
{
    let (first, second) = low;
    let (third, fourth) = high;
    join(
        rt,
        move ||
            requires { (1 < context) × (context < 33) × IsPairOf (id_of lock.now) context (first, second) }
        { work_in_two(rt, lock, kernel, start, ends, context, first, second) },
        move ||
            requires { (context < 31) × IsPairOf (id_of lock.now) (context + 2) (third, fourth) }
        { work_in_two(rt, lock, kernel, start, ends, context + 2, third, fourth) },
    );
}

// The last two of some new passes.
fn last_two(
    lock: &HwLock<Notes>,
    passes: &mut Passes<Notes>,
    context: u32,
) -> (Pass<Notes>, Pass<Notes>)
    requires new { AreNew (id_of lock.now) (opening_value lock.now).base 1 (passes_in passes.old) }
    requires count { (1 < context) × (length (passes_in passes.old) ≡ context) }
    ensures pair { IsPairOf (id_of lock.now) (context - 1) result }
    ensures new { AreNew (id_of lock.now) (opening_value lock.now).base 1 (passes_in passes.new) }
    ensures count { length (passes_in passes.new) + 2 ≡ context }
{
    let second = last_pass(lock, passes, context);
    let first = last_pass(lock, passes, context - 1);
    (first, second)
}

// Whether the entries are so many of each of the contexts 2 to 9, and each context's are numbered in
// their order.
fn are_in_order(notes: &[Note], holds: u32) -> bool {
    let mut next = [0u32; 10];
    for note in notes {
        let Some(number) = next.get_mut(note.context as usize) else {
            return false;
        };
        if note.number != *number {
            return false;
        }
        *number = number.wrapping_add(1);
    }
    next[2..].iter().all(|count| *count == holds)
}

// Eight contexts, 2 to 9; then whether all their entries are there, in order. `None` for want of
// memory.
fn work_in_eight<R: Threads + Wait + Sync>(rt: &R, alloc: Global, ends: Ends) -> Option<bool> {
    let Ok((lock, mut passes)) = HwLock::new(alloc, no_notes(alloc), 9) else {
        return None;
    };
    let eighth = last_two(&lock, &mut passes, 9);
    let sixth = last_two(&lock, &mut passes, 7);
    let fourth = last_two(&lock, &mut passes, 5);
    let second = last_two(&lock, &mut passes, 3);
    let first = last_pass(&lock, &mut passes, 1);
    let kernel = Kernel::new();
    let hw = &lock;
    let k = &kernel;
    let start = Barrier::new(8);
    let s = &start;
    join(
        rt,
        move ||
            requires { IsPairOf (id_of hw.now) 2 second × IsPairOf (id_of hw.now) 4 fourth }
        { work_in_four(rt, hw, k, s, ends, 2, second, fourth) },
        move ||
            requires { IsPairOf (id_of hw.now) 6 sixth × IsPairOf (id_of hw.now) 8 eighth }
        { work_in_four(rt, hw, k, s, ends, 6, sixth, eighth) },
    );
    let mut hold = kernel.lock_as_server(rt, hw, 0, first);
    let in_order = are_in_order(hold.value().notes.as_slice(), HOLDS);
    kernel.release(rt, hw, hold);
    Some(in_order)
}

#[test]
fn every_entry_is_there_once_and_in_order(rt: HostRuntime) -> Result<(), Fail> {
    assert!(rt; work_in_eight(&rt, rt.alloc(), Ends::Unlocked) == Some(true));
    Ok(())
}

#[test]
fn so_it_is_where_half_the_holds_are_released(rt: HostRuntime) -> Result<(), Fail> {
    assert!(rt; work_in_eight(&rt, rt.alloc(), Ends::HalfReleased) == Some(true));
    Ok(())
}
