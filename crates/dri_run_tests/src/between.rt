//! A window that the server moves between its client's clear and its swap, in threads.

use crate::beside::{comes, runs};
use dri_base::Bytes;
use dri_threads::{Gate, GatePoint};
use std::alloc::Global;
use std::process::Abort;
use std::sync::Wait;
use std::sync::atomic::{AtomicU32, Ordering};
use std::test::Fail;
use std::thread::Threads;

/// A frame in two holds, up to the server's change.
const TWO_HOLDS: &str =
    "dri 1\nscreen 4 1 000000\nheap 1 256\nwindow 1 0 0 2 1 111111 1 up\nclient 1 1\nclear ff0000 65535\nyield\nswap\nend\nserver\n";

const NOTES: &[u8] =
    b"journal 1\nkernel 1 1\nstale 1\nleave 1\ninfo 1\nkernel 1 1\nrun 1 1\nrun 1 2\nleave 1\nchange 1\nkernel 1 ";

/// The server's change, and the picture: the window is moved whole, onto one of its own pixels, and partly off the screen.
const MOVES: [(&str, &[u8]); 3] = [
    (
        "move 1 2 0\n",
        b"P6\n4 1\n255\n\x00\x00\x00\x00\x00\x00\xff\x00\x00\xff\x00\x00",
    ),
    (
        "move 1 1 0\n",
        b"P6\n4 1\n255\n\x00\x00\x00\xff\x00\x00\xff\x00\x00\x00\x00\x00",
    ),
    (
        "move 1 3 0\n",
        b"P6\n4 1\n255\n\x00\x00\x00\x00\x00\x00\x00\x00\x00\xff\x00\x00",
    ),
];

/// How often client 1 has come to the lock before the one between its clear and its swap: for the stale hold, to ask, and
/// for the hold of the clear.
const EARLIER: u32 = 3;

/// Holds the server before its lock until client 1 has cleared, and then that client until the server is in its hold.
#[derive(Drop)]
struct Between {
    came: AtomicU32,
    cleared: AtomicU32,
    changes: AtomicU32,
    met: AtomicU32,
}

impl Gate for Between {
    fn at(&self, actor: u32, point: GatePoint) {
        match (actor, point) {
            (0, GatePoint::BeforeLock) => {
                comes(&self.cleared);
            }
            (0, GatePoint::Holding) => self.changes.store(1, Ordering::SeqCst),
            (1, GatePoint::BeforeLock) => self.come(),
            _ => {}
        }
    }
}

impl Between {
    /// Client 1 comes to the lock.
    fn come(&self) {
        if self.came.fetch_add(1, Ordering::SeqCst) == EARLIER {
            self.cleared.store(1, Ordering::SeqCst);
            self.met.store(comes(&self.changes), Ordering::SeqCst);
        }
    }
}

/// Runs the scene with a change between its two holds, and compares the picture.
fn moves<R: Threads + Wait + Abort + Sync>(
    rt: &R,
    alloc: Global,
    change: &str,
    picture: &[u8],
) -> Result<(), Fail> {
    let gate = Between {
        came: AtomicU32::new(0),
        cleared: AtomicU32::new(0),
        changes: AtomicU32::new(0),
        met: AtomicU32::new(0),
    };
    let mut text = TWO_HOLDS.as_bytes().to_vec(alloc)?;
    text.extend_from_slice(change.as_bytes())?;
    text.extend_from_slice(b"end\ndone\n")?;
    runs(rt, alloc, &gate, Bytes::from_vec(text), picture, NOTES)?;
    assert!(rt; gate.met.load(Ordering::SeqCst) == 1);
    Ok(())
}

#[test]
fn moved_between_two_holds(rt: HostRuntime) -> Result<(), Fail> {
    for (change, picture) in MOVES {
        moves(&rt, rt.alloc(), change, picture)?;
    }
    Ok(())
}
