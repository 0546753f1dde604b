ghost use Rattle.std.specs.Prelude.{◌≡◌, ◌++◌, ◌∷◌, [], if◌then◌else◌, IfSome};
ghost use Rattle.dri_hwlock.specs.Tokens.{id_of, pass_token, hold_token, KeepsBase, AddsOwn, IsSuccessor};

use crate::notes::{Note, Notes, no_notes};
use dri_hwlock::{Hold, HwLock, Left, Marked, Pass, Refused};
use std::test::Fail;

// Ends a hold through the kernel.
fn give_up(lock: &HwLock<Notes>, hold: Hold<Notes>)
    requires own { (hold_token hold).lock ≡ id_of lock.now }
    requires base { KeepsBase hold }
    requires adds { AddsOwn hold }
{
    lock.leave_kernel(lock.part(hold));
}

// The first hold of a pass: its light exchange fails, it takes the lock, and it leaves lightly.
// With the word that it was late for.
fn take_turn(lock: &HwLock<Notes>, pass: Pass<Notes>) -> Option<(Pass<Notes>, u32)>
    requires own { (pass_token pass).lock ≡ id_of lock.now }
    requires context { (pass_token pass).context ≡ 2 }
    ensures { IfSome result (λ r. IsSuccessor (pass_token pass) (pass_token r.0)) }
{
    let late = match lock.light(pass) {
        Ok(hold) => {
            give_up(lock, hold);
            return None;
        }
        Err(late) => late,
    };
    let found = late.found();
    let Ok(mut hold) = lock.take(late) else {
        return None;
    };
    let note = Note {
        context: 2,
        number: 1,
    };
    hold.value().add(note);
    match lock.leave(hold) {
        Ok(pass) => Some((pass, found)),
        Err(parting) => {
            lock.leave_kernel(parting);
            None
        }
    }
}

// The words that a pass meets while another holds: at its light exchange, its take and its mark.
fn wait_behind(lock: &HwLock<Notes>, pass: Pass<Notes>) -> Option<(u32, u32, u32)>
    requires own { (pass_token pass).lock ≡ id_of lock.now }
    requires context { (pass_token pass).context ≡ 3 }
{
    let late = match lock.light(pass) {
        Ok(hold) => {
            give_up(lock, hold);
            return None;
        }
        Err(late) => late,
    };
    let found = late.found();
    match lock.take(late) {
        Ok(hold) => {
            give_up(lock, hold);
            None
        }
        Err(Refused::Held { word, token }) => {
            let mut late = token;
            match lock.mark(&mut late) {
                Marked::Contended { word: marked } => Some((found, word, marked)),
                _ => None,
            }
        }
        Err(_) => None,
    }
}

// The words of two contexts: the second waits while the first holds by a light exchange.
fn contended_words(
    lock: &HwLock<Notes>,
    second: Pass<Notes>,
    third: Pass<Notes>,
) -> Option<[u32; 6]>
    requires second { ((pass_token second).lock ≡ id_of lock.now) × ((pass_token second).context ≡ 2) }
    requires third { ((pass_token third).lock ≡ id_of lock.now) × ((pass_token third).context ≡ 3) }
{
    let (second, first) = take_turn(lock, second)?;
    let Ok(hold) = lock.light(second) else {
        return None;
    };
    let Some((found, held, marked)) = wait_behind(lock, third) else {
        give_up(lock, hold);
        return None;
    };
    let Err(parting) = lock.leave(hold) else {
        return None;
    };
    let parted = parting.word();
    let second = lock.leave_kernel(parting);
    match lock.light(second) {
        Ok(hold) => {
            give_up(lock, hold);
            None
        }
        Err(late) => Some([first, found, held, marked, parted, late.found()]),
    }
}

// The word that a pass meets that has left lightly, once another has left through the kernel.
fn word_after_kernel(lock: &HwLock<Notes>, second: Pass<Notes>, third: Pass<Notes>) -> Option<u32>
    requires second { ((pass_token second).lock ≡ id_of lock.now) × ((pass_token second).context ≡ 2) }
    requires third { ((pass_token third).lock ≡ id_of lock.now) × ((pass_token third).context ≡ 3) }
{
    let (second, _) = take_turn(lock, second)?;
    let late = match lock.light(third) {
        Ok(hold) => {
            give_up(lock, hold);
            return None;
        }
        Err(late) => late,
    };
    let Ok(hold) = lock.take(late) else {
        return None;
    };
    give_up(lock, hold);
    match lock.light(second) {
        Ok(hold) => {
            give_up(lock, hold);
            None
        }
        Err(late) => Some(late.found()),
    }
}

// A hold of the server, with one note. With the answer of its mark before, and whether it was
// contended.
fn serve(lock: &HwLock<Notes>, first: Pass<Notes>) -> (Pass<Notes>, Option<(u32, bool)>)
    requires first { ((pass_token first).lock ≡ id_of lock.now) × ((pass_token first).context ≡ 1) }
    ensures { IsSuccessor (pass_token first) (pass_token result.0) }
{
    let mut first = first;
    let Marked::Free { word } = lock.mark_as_server(&mut first) else {
        return (first, None);
    };
    match lock.take_as_server(first) {
        Ok(mut hold) => {
            let note = Note {
                context: 1,
                number: 9,
            };
            hold.value().add(note);
            let Left { pass, contended } = lock.leave_server(hold);
            (pass, Some((word, contended)))
        }
        Err(Refused::Held { word: _, token }) => (token, None),
        Err(
            Refused::Moved {
                loaded: _,
                found: _,
                token,
            },
        ) => (token, None),
    }
}

#[test]
fn words_of_a_contended_lock(rt: HostRuntime) -> Result<(), Fail> {
    let alloc = rt.alloc();
    let Ok((lock, mut passes)) = HwLock::new(alloc, no_notes(alloc), 3) else {
        panic!(rt; "no memory")
    };
    let third = passes.pop().expect(&rt, "three");
    let second = passes.pop().expect(&rt, "two");
    let words = contended_words(&lock, second, third).expect(&rt, "the moves were made");
    assert!(rt; words == [1, 0x8000_0002, 0x8000_0002, 0xC000_0002, 0xC000_0002, 0]);
    Ok(())
}

#[test]
fn word_after_the_kernel(rt: HostRuntime) -> Result<(), Fail> {
    let alloc = rt.alloc();
    let Ok((lock, mut passes)) = HwLock::new(alloc, no_notes(alloc), 3) else {
        panic!(rt; "no memory")
    };
    let third = passes.pop().expect(&rt, "three");
    let second = passes.pop().expect(&rt, "two");
    let word = word_after_kernel(&lock, second, third).expect(&rt, "the moves were made");
    assert!(rt; word == 0);
    Ok(())
}

#[test]
fn a_lock_is_closed(rt: HostRuntime) -> Result<(), Fail> {
    let alloc = rt.alloc();
    let Ok((lock, mut passes)) = HwLock::new(alloc, no_notes(alloc), 1) else {
        panic!(rt; "no memory")
    };
    assert!(rt; passes.len() == 1);
    let first = passes.pop().expect(&rt, "one");
    let (first, served) = serve(&lock, first);
    assert!(rt; served == Some((1, false)));
    passes.push(first);
    let notes = lock.close(passes);
    assert!(rt; notes.notes.len() == 1 && notes.notes[0].number == 9);
    Ok(())
}
