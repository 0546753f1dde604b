//! Calls of the top call: one of each of its words, what it answers where a stream fails, and one answer of each kind.
//! `tests/program` has the rows that a user of the program can show.

use dri_base::Bytes;
use dri_io::{CallList, MemorySink, MemorySource, NullSink, write_all};
use dri_run::drive;
use std::alloc::Global;
use std::process::Abort;
use std::test::Fail;

const ROOT: &str = "dri 1\nscreen 1 1 000040\nheap 1 256\ndone\n";

/// A client's frame in a window of the whole screen: what stands before its triangle, the triangle, and what stands after
/// it.
const CLEARED: &str =
    "dri 1\n#a window and a client\nscreen 4 4 000040\nheap 1 256\nwindow 1 0 0 4 4 101010 1 up\n\nclient 1 1\nclear 000000 65535\n";

const TRIANGLE: &str = "triangle 0 0 0 ff0000ff 0 0 64 0 0 ff0000ff 0 0 0 64 0 ff0000ff 0 0\n";

const SWAPPED: &str = "swap\nend\ndone\n";

/// The frame with its triangle.
pub(crate) const DRAWN: Text = &[CLEARED, TRIANGLE, SWAPPED];

pub(crate) const TRIANGLE_PIXELS: &[u8] =
    b"P6\n4 4\n255\n\xff\x00\x00\xff\x00\x00\xff\x00\x00\x00\x00\x00\xff\x00\x00\xff\x00\x00\x00\x00\x00\x00\x00\x00\xff\x00\x00\x00\x00\x00\x00\x00\x00\x00\x00\x00\x00\x00\x00\x00\x00\x00\x00\x00\x00\x00\x00\x00";

pub(crate) const TRIANGLE_JOURNAL: &str =
    "journal 1\nkernel 1 1\nstale 1\nleave 1\ninfo 1\nkernel 1 1\nrun 1 1\nemit 1 127\nrun 1 2\nrun 1 3\nleave 1\ndone\n";

/// Two frames of one client.
const FRAMES: &str =
    "dri 1\nscreen 2 1 000000\nheap 1 256\nwindow 1 0 0 2 1 111111 1 up\nclient 1 1\nclear ff0000 65535\nswap\nclear 0000ff 65535\nswap\nend\n";

const FRAMES_JOURNAL: &str =
    "journal 1\nkernel 1 1\nstale 1\nleave 1\ninfo 1\nkernel 1 1\nrun 1 1\nrun 1 2\nleave 1\nlight 1\nrun 1 3\nrun 1 4\nleave 1\ndone\n";

/// Two clients of one frame each, side by side.
const PAIR: &str =
    "dri 1\nscreen 2 1 000000\nheap 1 256\nwindow 1 0 0 1 1 111111 1 up\nwindow 2 1 0 1 1 222222 2 up\nclient 1 1\nclear ff0000 65535\nswap\nend\nclient 2 2\nclear 00ff00 65535\nswap\nend\nturns\n1\nend\ndone\n";

const PAIR_PIXELS: &[u8] = b"P6\n2 1\n255\n\xff\x00\x00\x00\xff\x00";

/// The journal where they are one group and the second is made current first.
const PAIR_JOURNAL: &str =
    "journal 1\nkernel 2 1\nstale 2\nleave 2\ninfo 2\nkernel 2 1\nrun 2 1\nrun 2 2\nleave 2\nkernel 1 3\nstale 1\nleave 1\ninfo 1\nkernel 1 1\nrun 1 1\nrun 1 2\nleave 1\ndone\n";

const ROOT_PIXELS: &[u8] = b"P6\n1 1\n255\n\x00\x00\x40";

const BLUE_PIXELS: &[u8] = b"P6\n2 1\n255\n\x00\x00\xff\x00\x00\xff";

/// The parts of a text.
pub(crate) type Text = &'static [&'static str];

/// The program's words and the text that it reads; the numbers of the read, of the write and of the note that fail, where
/// 0 is none; and the number that it ends with, its picture and its notes.
#[derive(Clone, Copy)]
pub(crate) struct Case(
    pub(crate) &'static [&'static str],
    pub(crate) Text,
    pub(crate) [u64; 3],
    pub(crate) u8,
    pub(crate) &'static [u8],
    pub(crate) &'static str,
);

pub(crate) const PLAYED: &[&str] = &["turns"];

const CHECKED: &[&str] = &["check"];

const ALONE: &[&str] = &["solo", "1", "1"];

const FLIPPED: &[&str] = &["flip"];

const SIXTEEN: &[&str] = &["card16"];

const UNREAD: &str = "dri: read failed\n";

const UNWRITTEN: &str = "dri: write failed\n";

const USAGE: &str =
    "dri: usage: turns | run | solo C K | check | make N | sarea | flip | ring N | many | card16\n";

/// Nothing is read for words of no form, so a source that fails isn't noticed.
const CASES: [Case; 21] = [
    Case(PLAYED, &[ROOT], [1, 0, 0], 4, b"", UNREAD),
    Case(PLAYED, &[ROOT], [0, 2, 0], 5, b"P6\n1 1\n", UNWRITTEN),
    Case(
        PLAYED,
        &[ROOT],
        [0, 0, 2],
        5,
        ROOT_PIXELS,
        "journaldri: write failed\n",
    ),
    Case(PLAYED, &[], [0, 0, 0], 2, b"", "dri: line 1: ended\n"),
    Case(
        CHECKED,
        &[FRAMES, "done\n", FRAMES_JOURNAL],
        [0, 0, 0],
        0,
        b"entries 12 frames 2 stood 2 whole\n",
        "",
    ),
    Case(
        CHECKED,
        &[ROOT, "journal 1\ndone\n"],
        [1, 0, 0],
        4,
        b"",
        UNREAD,
    ),
    Case(
        CHECKED,
        &[ROOT, "journal 1\ndone\n"],
        [0, 3, 0],
        5,
        b"entries 0 fram",
        UNWRITTEN,
    ),
    Case(
        CHECKED,
        &[ROOT, "journal 1\nlight 1\ndone\n"],
        [0, 0, 0],
        6,
        b"",
        "dri: not a run: entry 1\n",
    ),
    Case(
        FLIPPED,
        &[FRAMES, "done\n", FRAMES_JOURNAL],
        [0, 0, 0],
        0,
        BLUE_PIXELS,
        "flips 2 copies 0\n",
    ),
    Case(
        FLIPPED,
        &[FRAMES, "done\n", FRAMES_JOURNAL],
        [0, 0, 2],
        5,
        BLUE_PIXELS,
        "flips 2dri: write failed\n",
    ),
    Case(
        FLIPPED,
        &[ROOT, "journal 1\nlight 1\ndone\n"],
        [0, 0, 0],
        6,
        b"",
        "dri: not a run: entry 1\n",
    ),
    Case(
        &["ring", "3"],
        &[FRAMES, "done\n", FRAMES_JOURNAL],
        [0, 0, 0],
        0,
        BLUE_PIXELS,
        "puts 4 idles 0 most 3\n",
    ),
    Case(
        SIXTEEN,
        &[ROOT, "journal 1\ndone\n"],
        [0, 0, 1],
        0,
        b"P6\n1 1\n255\n\x00\x00\x42",
        "",
    ),
    Case(
        SIXTEEN,
        &[FRAMES, "done\n", FRAMES_JOURNAL],
        [0, 2, 0],
        5,
        b"P6\n2 1\n",
        UNWRITTEN,
    ),
    Case(
        &["many"],
        &[PAIR, "many 1\ngroup 1 2\ncurrent 2\nend\ndone\n"],
        [0, 0, 0],
        0,
        PAIR_PIXELS,
        PAIR_JOURNAL,
    ),
    Case(ALONE, DRAWN, [0, 0, 0], 0, TRIANGLE_PIXELS, ""),
    Case(ALONE, DRAWN, [1, 0, 0], 4, b"", UNREAD),
    Case(ALONE, DRAWN, [0, 2, 0], 5, b"P6\n4 4\n", UNWRITTEN),
    Case(ALONE, &[ROOT], [0, 0, 0], 2, b"", "dri: line 0: frame\n"),
    Case(
        &["sarea"],
        DRAWN,
        [0, 2, 0],
        5,
        b"\x02\x00\x00\x00\x00\x00\x00",
        UNWRITTEN,
    ),
    Case(&["make", "33"], &[], [1, 0, 0], 1, b"", USAGE),
];

/// A made scene, which is run whole before it is written. Nothing is read for it either.
const MADE: Case = Case(&["make", "1"], &[], [1, 2, 0], 5, b"dri 1\ns", UNWRITTEN);

/// How many bytes a read gives at most, and how many a write takes.
const READ: usize = 10;

pub(crate) const WRITTEN: usize = 7;

/// The list of one call, or of none.
fn calls(alloc: Global, call: u64) -> Result<CallList, Fail> {
    let mut list = CallList::new(alloc);
    if call > 0 {
        list.push(call)?;
    }
    Ok(list)
}

/// The words of a command line.
fn words_of(alloc: Global, line: &[&str]) -> Result<Vec<String>, Fail> {
    let mut words = Vec::new(alloc);
    for word in line {
        words.push(String::from_str(alloc, word)?)?;
    }
    Ok(words)
}

/// A source of a text, whose read of this number fails.
fn source(alloc: Global, parts: &[&str], call: u64) -> Result<MemorySource, Fail> {
    let mut text = Vec::new(alloc);
    for part in parts {
        text.extend_from_slice(part.as_bytes())?;
    }
    Ok(MemorySource::new(Bytes::from_vec(text), READ, calls(alloc, call)?))
}

/// A sink with room for half a thousand bytes, whose write of this number fails.
fn sink(alloc: Global, call: u64) -> Result<MemorySink, Fail> {
    Ok(MemorySink::new(alloc, 512, WRITTEN, calls(alloc, call)?)?)
}

/// Runs a case, and compares all that the program answers.
pub(crate) fn holds(rt: &impl Abort, alloc: Global, case: &Case) -> Result<(), Fail> {
    let Case(line, text, [read, write, note], code, pixels, told) = *case;
    let mut input = source(alloc, text, read)?;
    let mut picture = sink(alloc, write)?;
    let mut notes = sink(alloc, note)?;
    let words = words_of(alloc, line)?;
    let status = drive(
        alloc,
        words.as_slice(),
        &mut input,
        &mut picture,
        &mut notes,
    );
    assert!(rt; status.code() == code);
    assert!(rt; picture.bytes() == pixels);
    assert!(rt; notes.bytes() == told.as_bytes());
    Ok(())
}

#[test]
fn cases(rt: HostRuntime) -> Result<(), Fail> {
    for case in &CASES {
        holds(&rt, rt.alloc(), case)?;
    }
    Ok(())
}

#[test]
fn made(rt: HostRuntime) -> Result<(), Fail> {
    holds(&rt, rt.alloc(), &MADE)
}

#[test]
fn null_sink(rt: HostRuntime) {
    assert!(rt; write_all(&mut NullSink::new(), TRIANGLE_PIXELS).is_ok());
}
