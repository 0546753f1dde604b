//! Runs, ages, links and losses worked by hand.

ghost use Rattle.std.specs.Prelude.{◌≡◌, ◌≤◌, ◌+◌, IsTrue};
ghost use Rattle.dri_texheap.specs.RegionStates.{heap_of, IsInside, IsInUse};

use dri_base::TexRegion;
use dri_texheap::{Placed, Regions, Run, Spot, TooLarge, small_blocks};
use std::process::Abort;

/// What is done to the regions: so many are allocated, or so many from the first on are used.
#[derive(Clone, Copy)]
enum Step {
    Allocate(u32),
    Use(u32),
}

/// Whether each region of a run is in use.
fn is_in_use(regions: &Regions, run: Run) -> bool
    requires inside { IsInside regions.now.count run }
    requires small { run.first + run.count ≤ 64 }
    ensures { IsTrue result → IsInUse (heap_of regions.now) run }
{
    for j in 0..run.count {
        if regions.region(run.first + j).in_use == 0 {
            return false;
        }
    }
    true
}

/// Does a step, and answers its run.
fn perform(rt: &impl Abort, regions: &mut Regions, step: &Step, first: u32) -> Run {
    assert!(rt; regions.age() <= 4_294_967_000);
    match *step {
        Step::Allocate(k) => {
            assert!(rt; k >= 1);
            regions.allocate(k).expect(rt, "at most all regions")
        }
        Step::Use(count) => {
            let run = Run { first, count };
            assert!(rt; first <= 64 && count <= 64);
            assert!(rt; first + count <= regions.count());
            assert!(rt; is_in_use(regions, run));
            regions.touch(run);
            run
        }
    }
}

/// Does steps in turn: each one's run begins at that region, and the global age is that age then.
fn perform_each(rt: &impl Abort, regions: &mut Regions, rows: &[(Step, u32, u32)]) {
    for (step, first, age) in rows {
        assert!(rt; perform(rt, regions, step, *first).first == *first);
        assert!(rt; regions.age() == *age);
    }
}

/// Looks at the entries from entry 0 on: the next, the previous, whether it is in use, and its age.
fn look_at_entries(rt: &impl Abort, regions: &Regions, entries: &[(u8, u8, u8, u32)]) {
    for (i, (next, prev, in_use, age)) in entries.iter().enumerate() {
        let entry = TexRegion {
            next: *next,
            prev: *prev,
            in_use: *in_use,
            age: *age,
        };
        assert!(rt; i <= regions.count() as usize);
        assert!(rt; regions.region(i as u32) == entry);
    }
}

/// Steps, the first region of each one's run, and the global age then.
const STEPS: [(Step, u32, u32); 9] = [
    (Step::Allocate(1), 0, 1),
    (Step::Allocate(2), 1, 2),
    (Step::Allocate(3), 3, 3),
    (Step::Use(1), 0, 4),
    (Step::Allocate(1), 6, 5),
    (Step::Use(2), 1, 6),
    // Regions 3 to 5 are the oldest class.
    (Step::Allocate(2), 3, 8),
    // Region 5 is free, so region 0 stays, though it is the oldest in use.
    (Step::Allocate(1), 5, 9),
    // Three classes go: region 0, region 6, and regions 1 and 2.
    (Step::Allocate(3), 0, 11),
];

/// The entries after them.
const ENTRIES: [(u8, u8, u8, u32); 9] = [
    (1, 8, 1, 11),
    (2, 0, 1, 11),
    (6, 1, 1, 11),
    (4, 5, 1, 8),
    (7, 3, 1, 8),
    (3, 6, 1, 9),
    (5, 2, 0, 10),
    (8, 4, 0, 0),
    (0, 7, 0, 0),
];

#[test]
fn eight_regions(rt: HostRuntime) {
    let mut regions = Regions::new(8);
    perform_each(&rt, &mut regions, &STEPS);
    assert!(rt; regions.count() == 8);
    regions.linked();
    look_at_entries(&rt, &regions, &ENTRIES);
    // Two classes go at once: regions 3 and 4, and region 5.
    perform_each(&rt, &mut regions, &[(Step::Allocate(4), 3, 13)]);
}

#[test]
fn too_large(rt: HostRuntime) {
    let mut regions = Regions::new(2);
    assert!(rt; regions.allocate(3) == Err(TooLarge { need: 3, have: 2 }));
}

#[test]
fn one_region_in_turns(rt: HostRuntime) {
    let mut regions = Regions::new(1);
    for age in [2, 5, 8] {
        perform(&rt, &mut regions, &Step::Allocate(1), 0);
        perform(&rt, &mut regions, &Step::Use(1), 0);
        assert!(rt; regions.age() == age);
    }
}

/// The spot in one region from a block on.
fn in_region(first: u32, block: u32) -> Spot
    ensures { result ≡ record { run = record { first = first; count = 1 }; block = block } }
{
    let run = Run { first, count: 1 };
    Spot { run, block }
}

/// Whether texture 1 has this place, and no other number has one.
fn has_first_alone(placed: &Placed, place: Option<Spot>) -> bool {
    placed.resident(1) == place && [0, 2, 4].iter().all(|k| placed.resident(*k).is_none())
}

#[test]
fn losses(rt: HostRuntime) {
    let mut regions = Regions::new(4);
    let one = Run { first: 0, count: 1 };
    let two = Run { first: 1, count: 2 };
    assert!(rt; regions.allocate(1) == Ok(one));
    assert!(rt; regions.allocate(2) == Ok(two));
    let mut placed = Placed::new(rt.alloc(), 3, 256).expect(&rt, "memory");
    placed.set(1, Spot { run: one, block: 0 }, 0);
    placed.set(2, Spot { run: two, block: 0 }, 0);
    // The ages of the regions of one are 1, and of two 2.
    assert!(rt; placed.lose(&regions, 1, Some(2)));
    assert!(rt; has_first_alone(&placed, Some(in_region(0, 0))));
    assert!(rt; !placed.lose(&regions, 0, Some(2)));
    assert!(rt; has_first_alone(&placed, None));
}

/// The bytes of a texture, and the blocks that it takes in a shared region of 256 bytes.
const SMALL: [(usize, u32); 6] = [(1, 1), (64, 1), (65, 2), (128, 2), (129, 0), (256, 0)];

#[test]
fn half_a_region(rt: HostRuntime) {
    for (bytes, blocks) in &SMALL {
        assert!(rt; small_blocks(256, *bytes) == *blocks);
    }
}

/// Whether this is the room for one block, for two and for three.
fn has_rooms(placed: &Placed, rooms: [Option<Spot>; 3]) -> bool {
    placed.room(1) == rooms[0] && placed.room(2) == rooms[1] && placed.room(3) == rooms[2]
}

#[test]
fn rooms(rt: HostRuntime) {
    let mut placed = Placed::new(rt.alloc(), 4, 256).expect(&rt, "memory");
    placed.set(1, in_region(3, 0), 2);
    let third = Some(in_region(3, 2));
    assert!(rt; has_rooms(&placed, [third, third, None]));
    placed.set(2, in_region(1, 0), 1);
    placed.set(3, in_region(1, 1), 2);
    let run = Run { first: 5, count: 2 };
    placed.set(4, Spot { run, block: 0 }, 0);
    // One block is left in region 1, and two in region 3.
    assert!(rt; has_rooms(&placed, [Some(in_region(1, 3)), third, None]));
    assert!(rt; placed.resident(3) == Some(in_region(1, 1)) && placed.region_size() == 256);
}
