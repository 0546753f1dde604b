//! A journal is replayed: what each entry does, and each reason for which an entry isn't taken.

use Answer::{Does, Refused};
use dri_journal::{Deed, Refusal, Replay, StepFault, read_journal};
use dri_scene::read_scene;
use std::process::Abort;
use std::test::Fail;

/// One client with a texture, one that dies, and a change of three that is refused.
const SCENE: &[u8] =
    b"dri 1\nscreen 2 1 000000\nheap 2 256\nwindow 1 0 0 1 1 111111 1 up\nwindow 2 1 0 1 1 222222 2 up\nclient 1 1\ntexture 1 l8 1 1 ff\nclear ff0000 7\nset bind 1\nset texmode replace\ntriangle 0 0 0 ff0000ff 0 0 64 0 0 ff0000ff 0 0 0 64 0 ff0000ff 0 0\nswap\nend\nclient 2 2\nyield\ndie\nend\nserver\nunmap 1\nunmap 1\nmap 1\nend\ndone\n";

/// A run of it, with all that is left to do, and between its entries some that aren't taken there.
const JOURNAL: &[u8] =
    b"journal 1\nlight 3\nstale 1\nchange 2\ngone 1\nchange 1\nchange 2\nchange 3\nlight 1\nkernel 1 2\nkernel 1 1\nkernel 2 1\nstale 1\nleave 1\ninfo 1\nkernel 1 1\nemit 1 127\nrun 1 2\nrun 1 1\nrun 1 2\nrun 1 3\nplace 1 2 0 1\nplace 1 1 1 1\nemit 1 127\nplace 1 1 0 1\nemit 1 1\nrun 1 4\nemit 1 127\nrun 1 4\nrun 1 5\nleave 1\nkernel 2 2\nstale 2\nleave 2\ninfo 2\nkernel 2 1\nrun 2 1\nleave 2\nlight 2\nrun 2 2\ngone 2\ndone\n";

/// What a replay answers to an entry: what it does, by a word, and the windows that it touches; or why it isn't taken.
#[derive(Drop)]
enum Answer {
    Does(&'static str, &'static [u32]),
    Refused(Refusal),
}

/// The answers to the entries in turn.
const ANSWERS: [Answer; 40] = [
    Refused(Refusal::NoSuchClient),
    Refused(Refusal::WrongPhase),
    Refused(Refusal::NoSuchChange),
    Refused(Refusal::NotKilled),
    Does("touched", &[1]),
    Does("nothing", &[]),
    Does("touched", &[1]),
    Refused(Refusal::NotTheLast),
    Refused(Refusal::WrongContext),
    Does("nothing", &[]),
    Refused(Refusal::Held),
    Does("nothing", &[]),
    Does("nothing", &[]),
    Does("nothing", &[]),
    Does("nothing", &[]),
    Refused(Refusal::NoTriangle),
    Refused(Refusal::WrongPlace),
    Does("clear", &[]),
    Does("nothing", &[]),
    Does("nothing", &[]),
    Refused(Refusal::WrongTexture),
    Refused(Refusal::WrongRun),
    Refused(Refusal::NotPlaced),
    Does("nothing", &[]),
    Refused(Refusal::WrongGroups),
    Refused(Refusal::NotEmitted),
    Does("nothing", &[]),
    Does("triangle", &[]),
    Does("swap", &[]),
    Does("nothing", &[]),
    Does("nothing", &[]),
    Does("nothing", &[]),
    Does("nothing", &[]),
    Does("nothing", &[]),
    Does("nothing", &[]),
    Does("nothing", &[]),
    Does("nothing", &[]),
    Does("nothing", &[]),
    Refused(Refusal::NoCommand),
    Does("touched", &[2]),
];

/// What an entry does, in a word.
fn word_of(deed: &Deed) -> &'static str {
    match deed {
        Deed::Nothing => "nothing",
        Deed::Clear {
            colour: _,
            depth: _,
        } => "clear",
        Deed::Triangle(_) => "triangle",
        Deed::Swap => "swap",
        Deed::Touched(_) => "touched",
    }
}

/// The windows that it touches.
fn windows_of(deed: &Deed) -> &[u32] {
    match deed {
        Deed::Touched(touched) => touched.windows.as_slice(),
        _ => &[],
    }
}

/// Whether the replay answers so.
fn is_answer(given: &Result<Deed, StepFault>, answer: &Answer) -> bool {
    match (given, answer) {
        (Ok(deed), Does(word, windows)) => {
            word_of(deed) == *word && windows_of(deed) == *windows
        }
        (Err(fault), Refused(reason)) => *fault == StepFault::Refused(*reason),
        _ => false,
    }
}

/// What isn't taken changes nothing, so the run goes on, and is whole in the end.
#[test]
fn replayed(rt: HostRuntime) -> Result<(), Fail> {
    let scene = read_scene(rt.alloc(), SCENE)?;
    let entries = read_journal(rt.alloc(), JOURNAL)?;
    let mut replay = Replay::new(rt.alloc(), &scene)?;
    for (entry, answer) in entries.as_slice().iter().zip(&ANSWERS) {
        let given = replay.step(rt.alloc(), entry);
        assert!(rt; is_answer(&given, answer));
    }
    assert!(rt; replay.is_whole());
    Ok(())
}
