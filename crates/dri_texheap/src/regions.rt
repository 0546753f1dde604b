//! The regions of texture memory in fixed memory: for each of at most 64 whether it is in use, whether it is marked as shared,
//! and its age. The list
//! from the most to the least recently used isn't kept: it is the order of the ages, and an entry's two links are found
//! when it is read.

ghost use Rattle.std.specs.Prelude.{◌≡◌, ◌<◌, ◌≤◌, ◌+◌, ℕ, false, true, if◌then◌else◌, IsErr, IfOk, IfErr, ◌↔◌};
ghost use Rattle.dri_base.specs.Limits.{last_age};
ghost use Rattle.dri_model.specs.Heaps.{any_in, is_newer, is_place_for, allocated, marked, touched};
ghost use Rattle.dri_texheap.specs.RegionStates.{heap_of, IsHeap, IsInside, IsInUse};
ghost use Rattle.dri_texheap.specs.Ring.{IsOneList, entry, foremost, goes, follows};

use crate::choice::choose;
use crate::links::{Direction, link};
use crate::marks::{make_room, mark_ages, mark_used, unmark};
use crate::run::{Run, TooLarge};
use dri_base::TexRegion;
use std::marker::Model;

/// The regions of texture memory. Contracts see how many they are, the global age, and by number which are in use, which
/// are marked as shared, and each one's age: `heap_of` makes a heap of these.
#[derive(Drop)]
pub struct Regions {
    count: u32,
    age: u32,
    used: [bool; 64],
    shared: [bool; 64],
    ages: [u32; 64],
}

impl Model for Regions {
    ghost use Rattle.std.specs.Prelude.{length, ◌≡◌};
    ghost use Rattle.dri_texheap.specs.RegionStates.{RegionState, IsHeap};

    ghost Value = { RegionState };

    ghost view = { λ it. record { count = it.count; global = it.age; used = it.used; shared = it.shared; ages = it.ages } };

    ghost invariant = { λ it. IsHeap (record { count = it.count; global = it.age; used = it.used; shared = it.shared; ages = it.ages }) };
}

/// How a region is used: 0 free, 1 in use, 2 shared.
fn use_of(used: bool, shared: bool) -> u8
    ensures { result ≡ (if used then (if shared then 2 else 1) else 0) }
{
    match (used, shared) {
        (false, _) => 0,
        (true, false) => 1,
        (true, true) => 2,
    }
}

impl Regions {
    /// So many regions, 1 to 64, all free and with age 0.
    pub fn new(count: u32) -> Regions
        requires some { 0 < count }
        requires most { count ≤ 64 }
        ensures heap { heap_of result ≡ record { global = 0; used = λ k. false; shared = λ k. false; age = λ k. 0 } }
        ensures count { result.count ≡ count }
    {
        Regions {
            count,
            age: 0,
            used: [false; 64],
            shared: [false; 64],
            ages: [0; 64],
        }
    }

    /// How many regions there are, 1 to 64.
    pub fn count(&self) -> u32
        ensures count { result ≡ self.now.count }
        ensures heap { IsHeap self.now }
    {
        self.count
    }

    /// The global age. No region's age is above it.
    pub fn age(&self) -> u32
        ensures age { result ≡ (heap_of self.now).global }
        ensures heap { IsHeap self.now }
    {
        self.age
    }

    // The entry that an entry is followed by in that direction.
    fn link(&self, direction: Direction, i: u32) -> u8
        requires { i ≤ self.now.count }
        ensures { result ≡ foremost self.now.count (goes (heap_of self.now) direction) (follows self.now.count (heap_of self.now) direction i) }
    {
        link(&self.ages, self.count as usize, direction, i as usize) as u8
    }

    /// An entry of the list from the most to the least recently used region, by falling age and then by rising number:
    /// the entry after it and the entry before it, how it is used (0 free, 1 in use, 2 shared), and its age. Entry i is region i, and entry
    /// `count` is the list's head, which stands before the first region and after the last.
    pub fn region(&self, i: u32) -> TexRegion
        requires { i ≤ self.now.count }
        ensures { result ≡ entry self.now.count (heap_of self.now) i }
    {
        let next = self.link(Direction::Onward, i);
        let prev = self.link(Direction::Backward, i);
        if i == self.count {
            return TexRegion {
                next,
                prev,
                in_use: 0,
                age: 0,
            };
        }
        TexRegion {
            next,
            prev,
            in_use: use_of(self.used[i as usize], self.shared[i as usize]),
            age: self.ages[i as usize],
        }
    }

    /// The entries form one list: `next` and `prev` undo each other, and from the head on each entry is met once. It does
    /// nothing: its contract is the law.
    pub fn linked(&self)
        ensures { IsOneList self.now.count (entry self.now.count (heap_of self.now)) }
    {}

    // Whether the region has an age above `local`.
    pub(crate) fn is_newer(&self, i: u32, local: u32) -> bool
        requires { i < self.now.count }
        ensures { result ≡ is_newer (heap_of self.now) local i }
    {
        self.ages[i as usize] > local
    }

    // Whether a region of the run has an age above `local`.
    pub(crate) fn is_any_newer(&self, run: Run, local: u32) -> bool
        requires { IsInside self.now.count run }
        ensures { result ≡ any_in run (is_newer (heap_of self.now) local) }
    {
        for j in 0..run.count {
            if self.ages[(run.first + j) as usize] > local {
                return true;
            }
        }
        false
    }

    /// A use of a run, whose regions are in use: the global age rises by one, and the run's regions get it. It is at
    /// most 4,294,967,000 before.
    pub fn touch(&mut self, run: Run)
        requires inside { IsInside self.old.count run }
        requires in_use { IsInUse (heap_of self.old) run }
        requires age { (heap_of self.old).global ≤ last_age }
        ensures heap { heap_of self.new ≡ touched run (heap_of self.old) }
        ensures count { self.new.count ≡ self.old.count }
    {
        self.age += 1;
        mark_ages(
            &mut self.ages,
            run.first as usize,
            run.count as usize,
            self.age,
        );
    }

    /// Marks a region that is in use as shared.
    pub fn mark_shared(&mut self, i: u32)
        requires in_use { (heap_of self.old).used i ≡ true }
        ensures heap { heap_of self.new ≡ marked true i (heap_of self.old) }
        ensures count { self.new.count ≡ self.old.count }
    {
        self.shared[i as usize] = true;
    }

    /// The first region of the run that an allocation of k neighbouring regions would take. There are as many, and k is
    /// at least one. The global age is at most 4,294,967,000.
    pub fn place_for(&self, k: u32) -> u32
        requires some { 1 ≤ k }
        requires enough { k ≤ self.now.count }
        requires age { (heap_of self.now).global ≤ last_age }
        ensures place { is_place_for self.now.count (heap_of self.now) k result ≡ true }
        ensures inside { result + k ≤ self.now.count }
    {
        let (_, first) = choose(
            &self.used,
            &self.ages,
            self.count as usize,
            self.age,
            k as usize,
        );
        first as u32
    }

    /// Takes k neighbouring regions, at least one. As few age classes as make room for them are freed, the oldest first,
    /// and the run is the lowest that is free then; neither what is freed nor the run is marked as shared. It is too large exactly where there are fewer than k regions, and
    /// then nothing changes. The global age is at most 4,294,967,000 before.
    pub fn allocate(&mut self, k: u32) -> Result<Run, TooLarge>
        requires some { 1 ≤ k }
        requires age { (heap_of self.old).global ≤ last_age }
        ensures too_large { IsErr result ↔ (self.old.count < k) }
        ensures size { IfOk result (λ run. run.count ≡ k) }
        ensures place { IfOk result (λ run. is_place_for self.old.count (heap_of self.old) k run.first ≡ true) }
        ensures inside { IfOk result (IsInside self.old.count) }
        ensures heap { IfOk result (λ run. heap_of self.new ≡ allocated self.old.count (heap_of self.old) run) }
        ensures count { self.new.count ≡ self.old.count }
        ensures err { IfErr result (λ e. (e.need ≡ k) × (e.have ≡ self.old.count) × (self.new ≡ self.old)) }
    {
        if self.count < k {
            return Err(TooLarge {
                need: k,
                have: self.count,
            });
        }
        let (bound, first) = choose(
            &self.used,
            &self.ages,
            self.count as usize,
            self.age,
            k as usize,
        );
        unmark(
            &mut self.shared,
            &self.used,
            &self.ages,
            bound,
            first,
            k as usize,
        );
        self.age = make_room(&mut self.used, &mut self.ages, bound, self.age);
        self.age += 1;
        mark_ages(&mut self.ages, first, k as usize, self.age);
        mark_used(&mut self.used, first, k as usize);
        Ok(Run {
            first: first as u32,
            count: k,
        })
    }
}
