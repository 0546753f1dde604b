//! The list of the regions by falling age and then by rising number, from their ages alone: the entry that comes after
//! or before another.

ghost use Rattle.std.specs.Prelude.{◌≡◌, ◌<◌, ◌≤◌, ◌+◌, [], length};
ghost use Rattle.dri_model.specs.Heaps.{stands_before};
ghost use Rattle.dri_texheap.specs.RegionStates.{heap_from};
ghost use Rattle.dri_texheap.specs.Ring.{foremost, goes, follows, Nearest};

/// The two ways along the list: from the most to the least recently used region, and back.
#[derive(Clone, Copy)]
pub enum Direction {
    Onward,
    Backward,
}

// Whether one region stands before another in the list.
fn stands_before(ages: &[u32], j: usize, k: usize) -> bool
    requires j { j < length ages.now }
    requires k { k < length ages.now }
    ensures { result ≡ stands_before (heap_from 0 [] ages.now) j k }
{
    if ages[j] == ages[k] {
        j < k
    } else {
        ages[j] > ages[k]
    }
}

// Whether one region is met before another.
fn goes(ages: &[u32], direction: Direction, j: usize, k: usize) -> bool
    requires j { j < length ages.now }
    requires k { k < length ages.now }
    ensures { result ≡ goes (heap_from 0 [] ages.now) direction j k }
{
    match direction {
        Direction::Onward => stands_before(ages, j, k),
        Direction::Backward => stands_before(ages, k, j),
    }
}

// Whether a region is met after an entry, of which the head is entry `count`.
fn follows(ages: &[u32], count: usize, direction: Direction, i: usize, j: usize) -> bool
    requires i { i ≤ count }
    requires count { count ≤ length ages.now }
    requires j { j < count }
    ensures { result ≡ follows count (heap_from 0 [] ages.now) direction i j }
{
    if i == count {
        true
    } else {
        goes(ages, direction, i, j)
    }
}

// The nearest that follows, where one more region is looked at.
#[tactic(auto, using(crate::proofs::Ordering::nearest_first, crate::proofs::Ordering::nearest_not, crate::proofs::Ordering::nearest_new, crate::proofs::Ordering::nearest_old, crate::proofs::Ordering::nearest_same))]
fn nearer(
    ages: &[u32],
    count: usize,
    direction: Direction,
    i: usize,
    next: usize,
    best: Option<usize>,
) -> Option<usize>
    requires next { next < count }
    requires i { i ≤ count }
    requires count { count ≤ length ages.now }
    requires best { Nearest count (heap_from 0 [] ages.now) direction i next best }
    ensures { Nearest count (heap_from 0 [] ages.now) direction i (next + 1) result }
{
    if !follows(ages, count, direction, i, next) {
        return best;
    }
    match best {
        None => Some(next),
        Some(other) => {
            if goes(ages, direction, next, other) {
                Some(next)
            } else {
                Some(other)
            }
        }
    }
}

// The nearest region that follows an entry, where one does.
fn nearest(ages: &[u32], count: usize, direction: Direction, i: usize) -> Option<usize>
    requires i { i ≤ count }
    requires count { count ≤ length ages.now }
    ensures { Nearest count (heap_from 0 [] ages.now) direction i count result }
{
    let mut best = None;
    for next in 0..count {
        best = nearer(ages, count, direction, i, next, best);
    }
    best
}

/// The entry that an entry is followed by in that direction, of `count` regions and the head, which is entry `count`.
#[tactic(auto, using(crate::proofs::Ordering::foremost_none, crate::proofs::Ordering::foremost_some))]
pub fn link(ages: &[u32], count: usize, direction: Direction, i: usize) -> usize
    requires i { i ≤ count }
    requires count { count ≤ length ages.now }
    ensures link { result ≡ foremost count (goes (heap_from 0 [] ages.now) direction) (follows count (heap_from 0 [] ages.now) direction i) }
    ensures within { result ≤ count }
{
    match nearest(ages, count, direction, i) {
        None => count,
        Some(next) => next,
    }
}
