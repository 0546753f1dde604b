//! Clients in threads, as calls of the top call, with gates that hold clients up until others have come.

use dri_base::Bytes;
use dri_io::{CallList, MemorySink, NeverFails};
use dri_run::{Status, drive_run};
use dri_threads::{AlwaysOpen, Gate, GatePoint};
use std::alloc::Global;
use std::process::Abort;
use std::sync::Wait;
use std::sync::atomic::{AtomicU32, Ordering};
use std::test::Fail;
use std::thread::{Threads, yield_now};

/// Two clients, side by side.
const PAIR: &str =
    "dri 1\nscreen 4 2 000000\nheap 1 256\nwindow 1 0 0 2 2 111111 1 up\nwindow 2 2 0 2 2 222222 2 up\nclient 1 1\nclear ff0000 65535\ntriangle 0 0 0 0000ffff 0 0 64 0 0 0000ffff 0 0 0 64 0 0000ffff 0 0\ntriangle 0 0 0 ffffffff 0 0 64 0 0 ffffffff 0 0 0 64 0 ffffffff 0 0\nswap\nend\nclient 2 2\nclear 00ff00 65535\nswap\nend\ndone\n";

const PAIR_PIXELS: &[u8] =
    b"P6\n4 2\n255\n\xff\xff\xff\xff\xff\xff\x00\xff\x00\x00\xff\x00\xff\xff\xff\xff\xff\xff\x00\xff\x00\x00\xff\x00";

/// Two frames of one client. Its second hold is light, since no other actor wants the lock.
const ALONE: &str =
    "dri 1\nscreen 2 1 000000\nheap 1 256\nwindow 1 0 0 2 1 111111 1 up\nclient 1 1\nclear ff0000 65535\nswap\nclear 0000ff 65535\nswap\nend\ndone\n";

const ALONE_PIXELS: &[u8] = b"P6\n2 1\n255\n\x00\x00\xff\x00\x00\xff";

const ALONE_JOURNAL: &[u8] =
    b"journal 1\nkernel 1 1\nstale 1\nleave 1\ninfo 1\nkernel 1 1\nrun 1 1\nrun 1 2\nleave 1\nlight 1\nrun 1 3\nrun 1 4\nleave 1\ndone\n";

/// Holds client 1 at its first such point until client 2 has been at the other.
#[derive(Drop)]
struct Meeting {
    point: GatePoint,
    came: AtomicU32,
    tried: AtomicU32,
    met: AtomicU32,
}

impl Gate for Meeting {
    fn at(&self, actor: u32, point: GatePoint) {
        if actor == 2 && point != self.point {
            self.came.store(1, Ordering::SeqCst);
        }
        if actor == 1 && point == self.point && self.tried.swap(1, Ordering::SeqCst) == 0 {
            self.met.store(comes(&self.came), Ordering::SeqCst);
        }
    }
}

/// Holds each of two clients before its first lock until the other has come there too. So whichever comes first waits for
/// one that runs beside it.
#[derive(Drop)]
struct Rendezvous {
    first: AtomicU32,
    second: AtomicU32,
    met: AtomicU32,
}

impl Rendezvous {
    /// Comes, and at its first time waits for the other.
    fn meet(&self, own: &AtomicU32, other: &AtomicU32) {
        if own.swap(1, Ordering::SeqCst) == 0 {
            self.met.fetch_add(comes(other), Ordering::SeqCst);
        }
    }
}

impl Gate for Rendezvous {
    fn at(&self, actor: u32, point: GatePoint) {
        match (actor, point) {
            (1, GatePoint::BeforeLock) => self.meet(&self.first, &self.second),
            (2, GatePoint::BeforeLock) => self.meet(&self.second, &self.first),
            _ => {}
        }
    }
}

/// How often a gate looks whether the other has come.
const MOST_LOOKS: u32 = 16_777_216;

/// 1 where the other comes within some time.
pub(crate) fn comes(came: &AtomicU32) -> u32 {
    for _ in 0..MOST_LOOKS {
        yield_now();
        if came.load(Ordering::SeqCst) == 1 {
            return 1;
        }
    }
    0
}

/// Runs a scene's text, and compares the picture and the beginning of the notes.
pub(crate) fn runs<R: Threads + Wait + Abort + Sync, G: Gate + Sync>(
    rt: &R,
    alloc: Global,
    gate: &G,
    text: Bytes,
    picture: &[u8],
    notes: &[u8],
) -> Result<(), Fail> {
    let mut input = NeverFails::new(text, 4096);
    let mut shown = MemorySink::new(alloc, 1_000_000, 4096, CallList::new(alloc))?;
    let mut told = MemorySink::new(alloc, 1_000_000, 4096, CallList::new(alloc))?;
    let status = drive_run(rt, alloc, gate, &mut input, &mut shown, &mut told);
    assert_eq!(rt; status, Status::Done);
    assert!(rt; shown.bytes().starts_with(picture));
    assert!(rt; told.bytes().starts_with(notes));
    Ok(())
}

/// Runs a scene's text with client 1 held at a point, and looks that both clients met.
fn meets<R: Threads + Wait + Abort + Sync>(
    rt: &R,
    alloc: Global,
    point: GatePoint,
    text: Bytes,
    picture: &[u8],
    notes: &[u8],
) -> Result<(), Fail> {
    let gate = Meeting {
        point,
        came: AtomicU32::new(0),
        tried: AtomicU32::new(0),
        met: AtomicU32::new(0),
    };
    runs(rt, alloc, &gate, text, picture, notes)?;
    assert_eq!(rt; gate.met.load(Ordering::SeqCst), 1);
    Ok(())
}

/// A text in memory.
fn bytes_of(alloc: Global, text: &str) -> Result<Bytes, Fail> {
    Ok(Bytes::from_vec(text.as_bytes().to_vec(alloc)?))
}

#[test]
fn clients_meet(rt: HostRuntime) -> Result<(), Fail> {
    let alloc = rt.alloc();
    let begun = b"journal 1\nkernel ".as_slice();
    let second = b"journal 1\nkernel 2 1\n".as_slice();
    let rows = [(GatePoint::Holding, begun), (GatePoint::BeforeLock, second)];
    for (point, notes) in rows {
        let text = bytes_of(alloc, PAIR)?;
        meets(&rt, alloc, point, text, PAIR_PIXELS, notes)?;
    }
    Ok(())
}

#[test]
fn each_waits_for_the_other(rt: HostRuntime) -> Result<(), Fail> {
    let alloc = rt.alloc();
    let gate = Rendezvous {
        first: AtomicU32::new(0),
        second: AtomicU32::new(0),
        met: AtomicU32::new(0),
    };
    let text = bytes_of(alloc, PAIR)?;
    let begun = b"journal 1\nkernel ".as_slice();
    runs(&rt, alloc, &gate, text, PAIR_PIXELS, begun)?;
    assert_eq!(rt; gate.met.load(Ordering::SeqCst), 2);
    Ok(())
}

#[test]
fn one_client_alone(rt: HostRuntime) -> Result<(), Fail> {
    let alloc = rt.alloc();
    let text = bytes_of(alloc, ALONE)?;
    runs(&rt, alloc, &AlwaysOpen, text, ALONE_PIXELS, ALONE_JOURNAL)
}
