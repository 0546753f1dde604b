//! What no clause says of the calls that wait: that the queue's front marks the word, and that those
//! that wait come in turn.
ghost use Rattle.std.specs.Prelude.{◌≡◌, ◌+◌, ◌<◌, ◌≤◌, IfSome};
ghost use Rattle.dri_hwlock.specs.Tokens.{id_of, pass_token, late_token};
ghost use Rattle.dri_lock_tests.specs.Pairs.{IsLateOf};

use crate::notes::{Note, Notes, last_pass, no_notes, put_back};
use dri_hwlock::{HwLock, Late, Pass, Refused};
use dri_kernel::Kernel;
use std::alloc::Global;
use std::sync::{Barrier, Wait};
use std::test::Fail;
use std::thread::{Threads, join, yield_now};

// How often a thread looks at what another is to do.
const MOST_LOOKS: u32 = 1 << 24;

// A late token, of a pass whose context isn't in the word.
fn late_of<R: Wait>(
    rt: &R,
    lock: &HwLock<Notes>,
    kernel: &Kernel,
    pass: Pass<Notes>,
) -> Option<Late<Notes>>
    requires own { (pass_token pass).lock ≡ id_of lock.now }
    requires client { 1 < (pass_token pass).context }
    ensures own { IfSome result (λ late. (late_token late).lock ≡ id_of lock.now) }
    ensures context { IfSome result (λ late. (late_token late).context ≡ (pass_token pass).context) }
{
    match lock.light(pass) {
        Ok(hold) => {
            kernel.release(rt, lock, hold);
            None
        }
        Err(late) => Some(late),
    }
}

// One hold of a context, got by the kernel, with one entry. With the word found.
fn take_turn<R: Wait>(
    rt: &R,
    lock: &HwLock<Notes>,
    kernel: &Kernel,
    context: u32,
    late: Late<Notes>,
) -> (u32, Pass<Notes>)
    requires own { (late_token late).lock ≡ id_of lock.now }
    requires context { ((late_token late).context ≡ context) × (0 < context) × (context ≤ 33) }
    ensures own { (pass_token result.1).lock ≡ id_of lock.now }
{
    let mut hold = kernel.lock(rt, lock, context - 1, late);
    let found = hold.found();
    hold.value().add(Note { context, number: 1 });
    (found, kernel.unlock(rt, lock, hold))
}

// Context 3 comes once context 2 has the lock.
fn come_first<R: Wait>(
    rt: &R,
    lock: &HwLock<Notes>,
    kernel: &Kernel,
    taken: &Barrier,
    late: Late<Notes>,
) -> (u32, Pass<Notes>)
    requires own { IsLateOf (id_of lock.now) 3 late }
    ensures own { (pass_token result.1).lock ≡ id_of lock.now }
{
    taken.wait(rt);
    take_turn(rt, lock, kernel, 3, late)
}

// The word that another meets while context 2 holds and a thread waits; 0 where it wasn't marked.
fn marked_word<R: Wait>(rt: &R, lock: &HwLock<Notes>, kernel: &Kernel, first: Pass<Notes>) -> u32
    requires own { (pass_token first).lock ≡ id_of lock.now }
{
    let mut first = first;
    for _ in 0..MOST_LOOKS {
        yield_now();
        match lock.take_as_server(first) {
            Ok(hold) => {
                kernel.release(rt, lock, hold);
                return 0;
            }
            Err(Refused::Held { word, token }) => {
                if word == 0xC000_0002 {
                    return word;
                }
                first = token;
            }
            Err(
                Refused::Moved {
                    loaded: _,
                    found: _,
                    token,
                },
            ) => {
                first = token;
            }
        }
    }
    0
}

// Context 2 holds until its word is marked.
fn hold_until_marked<R: Wait>(
    rt: &R,
    lock: &HwLock<Notes>,
    kernel: &Kernel,
    taken: &Barrier,
    first: Pass<Notes>,
    late: Late<Notes>,
) -> u32
    requires first { (pass_token first).lock ≡ id_of lock.now }
    requires own { IsLateOf (id_of lock.now) 2 late }
{
    let Ok(mut hold) = lock.take(late) else {
        taken.wait(rt);
        return 0;
    };
    taken.wait(rt);
    let seen = marked_word(rt, lock, kernel, first);
    hold.value().add(Note {
        context: 2,
        number: 1,
    });
    kernel.unlock(rt, lock, hold);
    seen
}

// The word that the waiting thread has marked, and the word that it found free.
fn words_of_a_wait<R: Threads + Wait + Sync>(rt: &R, alloc: Global) -> Option<(u32, u32)> {
    let Ok((lock, mut passes)) = HwLock::new(alloc, no_notes(alloc), 3) else {
        return None;
    };
    let third = last_pass(&lock, &mut passes, 3);
    let second = last_pass(&lock, &mut passes, 2);
    let first = last_pass(&lock, &mut passes, 1);
    let kernel = Kernel::new();
    let taken = Barrier::new(2);
    let hw = &lock;
    let k = &kernel;
    let t = &taken;
    let second = late_of(rt, hw, k, second)?;
    let third = late_of(rt, hw, k, third)?;
    let (marked, (found, _)) = join(
        rt,
        move ||
            requires { ((pass_token first).lock ≡ id_of hw.now) × IsLateOf (id_of hw.now) 2 second }
        { hold_until_marked(rt, hw, k, t, first, second) },
        move ||
            requires { IsLateOf (id_of hw.now) 3 third }
        { come_first(rt, hw, k, t, third) },
    );
    Some((marked, found))
}

// Whether so many wait, asked again and again.
fn has_waiting<R: Wait>(rt: &R, kernel: &Kernel, count: u32) -> bool {
    for _ in 0..MOST_LOOKS {
        if kernel.waiting(rt) == count {
            return true;
        }
        yield_now();
    }
    false
}

// Context 2 holds until two wait.
fn hold_until_two_wait<R: Wait>(
    rt: &R,
    lock: &HwLock<Notes>,
    kernel: &Kernel,
    taken: &Barrier,
    late: Late<Notes>,
) -> Option<Pass<Notes>>
    requires own { IsLateOf (id_of lock.now) 2 late }
    ensures own { IfSome result (λ pass. (pass_token pass).lock ≡ id_of lock.now) }
{
    let Ok(mut hold) = lock.take(late) else {
        taken.wait(rt);
        return None;
    };
    taken.wait(rt);
    let waited = has_waiting(rt, kernel, 2);
    hold.value().add(Note {
        context: 2,
        number: 1,
    });
    let pass = kernel.unlock(rt, lock, hold);
    if waited { Some(pass) } else { None }
}

// Context 4 comes once another waits.
fn come_second<R: Wait>(
    rt: &R,
    lock: &HwLock<Notes>,
    kernel: &Kernel,
    late: Late<Notes>,
) -> (u32, Pass<Notes>)
    requires own { IsLateOf (id_of lock.now) 4 late }
    ensures own { (pass_token result.1).lock ≡ id_of lock.now }
{
    has_waiting(rt, kernel, 1);
    take_turn(rt, lock, kernel, 4, late)
}

// Contexts 3 and 4 wait, each in a thread of its own.
fn wait_in_turn<R: Threads + Wait + Sync>(
    rt: &R,
    lock: &HwLock<Notes>,
    kernel: &Kernel,
    taken: &Barrier,
    third: Late<Notes>,
    fourth: Late<Notes>,
) -> (Pass<Notes>, Pass<Notes>)
    requires third { IsLateOf (id_of lock.now) 3 third }
    requires fourth { IsLateOf (id_of lock.now) 4 fourth }
    ensures third { (pass_token result.0).lock ≡ id_of lock.now }
    ensures fourth { (pass_token result.1).lock ≡ id_of lock.now }
{
    let ((_, third), (_, fourth)) = join(
        rt,
        move || come_first(rt, lock, kernel, taken, third),
        move || come_second(rt, lock, kernel, fourth),
    );
    (third, fourth)
}

// What three holds leave, of which the second and the third waited.
fn order_of_a_queue<R: Threads + Wait + Sync>(rt: &R, alloc: Global) -> Option<Notes> {
    let Ok((lock, mut passes)) = HwLock::new(alloc, no_notes(alloc), 4) else {
        return None;
    };
    let fourth = last_pass(&lock, &mut passes, 4);
    let third = last_pass(&lock, &mut passes, 3);
    let second = last_pass(&lock, &mut passes, 2);
    let kernel = Kernel::new();
    let taken = Barrier::new(2);
    let hw = &lock;
    let k = &kernel;
    let t = &taken;
    let second = late_of(rt, hw, k, second)?;
    let third = late_of(rt, hw, k, third)?;
    let fourth = late_of(rt, hw, k, fourth)?;
    let (second, (third, fourth)) = join(
        rt,
        move ||
            requires { IsLateOf (id_of hw.now) 2 second }
        { hold_until_two_wait(rt, hw, k, t, second) },
        move ||
            requires { IsLateOf (id_of hw.now) 3 third × IsLateOf (id_of hw.now) 4 fourth }
        { wait_in_turn(rt, hw, k, t, third, fourth) },
    );
    put_back(hw, &mut passes, second?);
    put_back(hw, &mut passes, third);
    put_back(hw, &mut passes, fourth);
    Some(lock.close(passes))
}

#[test]
fn the_front_marks_the_word(rt: HostRuntime) -> Result<(), Fail> {
    let words = words_of_a_wait(&rt, rt.alloc()).expect(&rt, "the moves were made");
    assert!(rt; words == (0xC000_0002, 0));
    Ok(())
}

#[test]
fn those_that_wait_come_in_turn(rt: HostRuntime) -> Result<(), Fail> {
    for _ in 0..64 {
        let notes = order_of_a_queue(&rt, rt.alloc()).expect(&rt, "the moves were made");
        let contexts = notes.notes.iter().map(|note| note.context);
        assert!(rt; contexts.eq([2, 3, 4]));
    }
    Ok(())
}
