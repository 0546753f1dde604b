//! The choice of a run. The classes that may be freed are those with an age below a bound, which rises from class to
//! class until so many neighbours are free or below it. Each bound takes two passes over the regions, so a choice is at
//! worst quadratic in them.

ghost use Rattle.std.specs.Prelude.{◌≡◌, ◌+◌, ◌-◌, ◌<◌, ◌≤◌, ℕ, length, true, get_or, MatchOption, IfSome};
ghost use Rattle.dri_texheap.specs.RegionStates.{heap_from};
ghost use Rattle.dri_texheap.specs.Search.{is_available, are_available, lesser_age, least_age, NowhereBefore, IsChosen};

// Whether the region is free, or in use with an age below the bound.
fn is_available(used: &[bool], ages: &[u32], bound: u32, i: usize) -> bool
    requires used { i < length used.now }
    requires ages { i < length ages.now }
    ensures { result ≡ is_available (heap_from 0 used.now ages.now) bound i }
{
    !used[i] || ages[i] < bound
}

// The lowest place of k available neighbours.
#[tactic(auto, using(crate::proofs::Passing::passed_place))]
fn lowest_place(used: &[bool], ages: &[u32], count: usize, bound: u32, k: usize) -> Option<usize>
    requires used { count ≤ length used.now }
    requires ages { count ≤ length ages.now }
    requires k { k ≤ count }
    ensures lowest { MatchOption result (NowhereBefore (heap_from 0 used.now ages.now) bound k (count - k + 1)) (NowhereBefore (heap_from 0 used.now ages.now) bound k) }
    ensures inside { IfSome result (λ first. first + k ≤ count) }
    ensures holds { IfSome result (λ first. are_available (heap_from 0 used.now ages.now) bound first k ≡ true) }
{
    // All from `first` up to i are available, and k of them begin nowhere before it.
    let mut first = 0;
    for i in 0..count {
        if i - first == k {
            return Some(first);
        }
        if !is_available(used, ages, bound, i) {
            first = i + 1;
        }
    }
    (count - first == k).then_some(first)
}

// The lesser of two ages, of which one may be missing.
fn lesser(best: Option<u32>, age: u32) -> Option<u32>
    ensures { result ≡ lesser_age best age }
{
    match best {
        None => Some(age),
        Some(best) => { if age < best { Some(age) } else { Some(best) } }
    }
}

// The least age, from the bound on, of a region that is in use.
fn least_age(used: &[bool], ages: &[u32], count: usize, bound: u32) -> Option<u32>
    requires used { count ≤ length used.now }
    requires ages { count ≤ length ages.now }
    ensures { result ≡ least_age (heap_from 0 used.now ages.now) bound count }
{
    let mut best = None;
    for i in 0..count {
        if used[i] && bound <= ages[i] {
            best = lesser(best, ages[i]);
        }
    }
    best
}

/// The run for k regions: the bound of the fewest age classes that make room for it, and its first region. No region's
/// age is above `age`.
pub fn choose(used: &[bool], ages: &[u32], count: usize, age: u32, k: usize) -> (u32, usize)
    requires used { count ≤ length used.now }
    requires ages { count ≤ length ages.now }
    requires k { k ≤ count }
    requires some { 0 < k }
    requires aged { (i : ℕ) → get_or ages.now i 0 ≤ age }
    requires small { age < 4294967295 }
    ensures chosen { IsChosen count (heap_from 0 used.now ages.now) k result.0 result.1 }
    ensures inside { result.1 + k ≤ count }
{
    let mut bound = 0;
    loop {
        match lowest_place(used, ages, count, bound, k) {
            Some(first) => return (bound, first),
            None => {}
        }
        match least_age(used, ages, count, bound) {
            Some(next) => bound = next + 1,
            None => return (bound, 0),
        }
    }
}
