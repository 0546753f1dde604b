//! Ends that fail at each of their calls: what the program had written by then, and its status.

use crate::run::{Case, DRAWN, PLAYED, TRIANGLE_JOURNAL, TRIANGLE_PIXELS, WRITTEN, holds};
use std::process::Abort;
use std::test::Fail;

/// How many reads there are, of which the last tells that nothing is left, and how many writes.
const READS: u64 = 21;

const WRITES: u64 = 9;

/// The scene of one triangle, where the read, the write and the note of these numbers fail; and how it ends.
fn drawn(fails: [u64; 3], code: u8, picture: &'static [u8], notes: &'static str) -> Case {
    Case(PLAYED, DRAWN, fails, code, picture, notes)
}

#[test]
fn reads_that_fail(rt: HostRuntime) -> Result<(), Fail> {
    for call in 1..=READS {
        let unread = drawn([call, 0, 0], 4, b"", "dri: read failed\n");
        holds(&rt, rt.alloc(), &unread)?;
    }
    let done = drawn([READS + 1, 0, 0], 0, TRIANGLE_PIXELS, TRIANGLE_JOURNAL);
    holds(&rt, rt.alloc(), &done)
}

#[test]
fn writes_that_fail(rt: HostRuntime) -> Result<(), Fail> {
    for before in 0..WRITES {
        let taken = WRITTEN * before as usize;
        assert!(rt; taken <= TRIANGLE_PIXELS.len());
        let unwritten = drawn(
            [0, before + 1, 0],
            5,
            &TRIANGLE_PIXELS[..taken],
            "dri: write failed\n",
        );
        holds(&rt, rt.alloc(), &unwritten)?;
    }
    let done = drawn([0, WRITES + 1, 0], 0, TRIANGLE_PIXELS, TRIANGLE_JOURNAL);
    holds(&rt, rt.alloc(), &done)
}
