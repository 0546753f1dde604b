//! Clients in threads, and one that dies in its hold.

use dri_base::Entry;
use dri_scene::read_scene;
use dri_threads::{Closed, Gate, GatePoint, run_clients};
use std::alloc::Global;
use std::sync::atomic::{AtomicU32, Ordering};
use std::sync::{Arc, Wait};
use std::test::Fail;
use std::thread::{Threads, yield_now};

/// Client 2 dies in its third hold, in which it has drawn.
const DIES: &str =
    "dri 1\nscreen 6 2 000000\nheap 1 256\nwindow 1 0 0 2 2 111111 1 up\nwindow 2 2 0 2 2 222222 2 up\nwindow 3 4 0 2 2 333333 3 up\nclient 1 1\nclear ff0000 65535\nswap\nend\nclient 2 2\nclear 00ff00 65535\ndie\nend\nclient 3 3\nclear 0000ff 65535\nswap\nend\nserver\nraise 1\nend\ndone\n";

/// The holds of client 2, none of which is light.
const DYING: [Entry; 7] = [
    Entry::Kernel {
        client: 2,
        found: 1,
    },
    Entry::Stale { client: 2 },
    Entry::Leave { client: 2 },
    Entry::Info { client: 2 },
    Entry::Kernel {
        client: 2,
        found: 1,
    },
    Entry::Run {
        client: 2,
        place: 1,
    },
    Entry::Gone { client: 2 },
];

/// The other actors: clients 1 and 3, and the server.
const OTHERS: u32 = 3;

/// Holds the others before their first lock until client 2 is in its third hold, and client 2 in that hold until all of
/// them have gone on to the lock.
#[derive(Drop)]
struct Deathbed {
    holds: AtomicU32,
    others: AtomicU32,
    met: AtomicU32,
}

impl Gate for Deathbed {
    fn at(&self, actor: u32, point: GatePoint) {
        if actor == 2 && point == GatePoint::Holding {
            let before = self.holds.fetch_add(1, Ordering::SeqCst);
            if before == 2 && comes_to(&self.others, OTHERS) {
                self.met.store(1, Ordering::SeqCst);
            }
        }
        if actor != 2 && point == GatePoint::BeforeLock {
            comes_to(&self.holds, 3);
            self.others.fetch_add(1, Ordering::SeqCst);
        }
    }
}

// How often a gate looks whether a count has come to a number.
const MOST_LOOKS: u32 = 16_777_216;

// Whether the count comes to the number within some time.
fn comes_to(count: &AtomicU32, number: u32) -> bool {
    for _ in 0..MOST_LOOKS {
        yield_now();
        if number <= count.load(Ordering::SeqCst) {
            return true;
        }
    }
    false
}

fn run<R: Threads + Wait + Sync, T: Gate + Sync>(
    rt: &R,
    alloc: Global,
    gate: &T,
) -> Result<Closed, Fail> {
    let scene = Arc::new(alloc, read_scene(alloc, DIES.as_bytes())?)?;
    Ok(run_clients(rt, alloc, gate, &scene)?)
}

#[test]
fn one_dies_while_others_wait(rt: HostRuntime) -> Result<(), Fail> {
    let gate = Deathbed {
        holds: AtomicU32::new(0),
        others: AtomicU32::new(0),
        met: AtomicU32::new(0),
    };
    let Closed { shared, short } = run(&rt, rt.alloc(), &gate)?;
    assert!(rt; !short);
    assert!(rt; gate.met.load(Ordering::SeqCst) == 1);
    let journal = shared.journal();
    assert!(rt; 7 < journal.len());
    for (i, entry) in DYING.iter().enumerate() {
        assert!(rt; journal[i] == *entry);
    }
    Ok(())
}
