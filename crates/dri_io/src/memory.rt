ghost use Rattle.std.specs.Prelude.{◌≡◌, ℕ, ◌+◌, ◌-◌, ◌^◌, ◌<◌, ◌≤◌, ◌↔◌, [], Some, None, Ok, Err, min, length, take, drop, IsErr, IfOk, Contains, OnErr};
ghost use Rattle.std.specs.Prelude.{◌++◌, ◌⊎◌, vec_len, vec_capacity};
ghost use Rattle.std.specs.Io.{ReadsAtMost, WritesAtMost};
ghost use Rattle.std.specs.Io.KnownBytes.{ReadConsumes, WriteAppends};
ghost use Rattle.dri_io.specs.Causes.{GivesOn, HasCause, TakesOn};
ghost use Rattle.dri_io.specs.Memory.{Counts, HasRoom, one_more};

use crate::{Failed, Sink, Source};
use dri_base::{Bytes, OutOfMemory, Sequence};
use std::alloc::Global;
use std::marker::Model;

/// Numbers of calls, counted from 1.
pub type CallList = Sequence<u64>;

/// Gives a prefix of what is left behind a place, a piece at most.
fn give(bytes: &Bytes, at: usize, piece: usize, into: &mut [u8]) -> usize
    requires { at ≤ length bytes.now }
    ensures count { result ≡ min piece (min (length into.old) (length bytes.now - at)) }
    ensures bytes { take result into.new ≡ take result (drop at bytes.now) }
    ensures fits { at + result < 2 ^ 64 }
{
    let count = piece.min(into.len()).min(bytes.len() - at);
    into[..count].copy_from_slice(&bytes.as_slice()[at..at + count]);
    count
}

/// A source in memory. Its reads fail at the calls of its list and at no other.
#[derive(Drop)]
pub struct MemorySource {
    bytes: Bytes,
    at: usize,
    piece: usize,
    fails: CallList,
    calls: u64,
    faults: u64,
}

impl Model for MemorySource {
    ghost use Rattle.std.specs.Prelude.{◌≤◌, ◌<◌, length, drop};
    ghost use Rattle.dri_io.specs.Memory.{Feed};

    ghost Value = { Feed };

    ghost view = { λ s. record { left = drop s.at s.bytes; piece = s.piece; fails = s.fails; calls = s.calls; faults = s.faults } };

    ghost invariant = { λ s. (s.at ≤ length s.bytes) × (0 < s.piece) };
}

impl MemorySource {
    /// A source of these bytes. A read gives at most `piece` of them, which is at least 1, and fails exactly where the
    /// number of the call is in `fails`.
    pub fn new(bytes: Bytes, piece: usize, fails: CallList) -> MemorySource
        requires { 0 < piece }
        ensures { result ≡ record { left = bytes; piece = piece; fails = fails; calls = 0; faults = 0 } }
    {
        MemorySource {
            bytes,
            at: 0,
            piece,
            fails,
            calls: 0,
            faults: 0,
        }
    }
}

impl Source for MemorySource {
    ghost left = { λ s. Some s.left };

    ghost faults = { λ s. s.faults };

    ghost gives_all = { λ s. s.fails ≡ [] };

    fn read(&mut self, into: &mut [u8]) -> Result<usize, Failed>
        requires { 0 < length into.old }
        ensures bound { ReadsAtMost result into.new }
        ensures bytes { ReadConsumes (Some self.old.left) (Some self.new.left) result into.new }
        ensures cause { HasCause self.old.faults self.new.faults result }
        ensures sure { self.old.fails ≡ [] → GivesOn (self.new.fails ≡ []) self.old.faults self.new.faults result }
        ensures fails { IsErr result ↔ Contains self.old.fails (one_more self.old.calls) }
        ensures count { Counts self.old.faults self.new.faults result }
        ensures piece { IfOk result (λ n. n ≡ min self.old.piece (min (length into.old) (length self.old.left))) }
        ensures calls { self.new.calls ≡ one_more self.old.calls }
        ensures rest { (self.new.fails ≡ self.old.fails) × (self.new.piece ≡ self.old.piece) }
    {
        self.calls = self.calls.saturating_add(1);
        if self.fails.as_slice().contains(&self.calls) {
            self.faults = self.faults.saturating_add(1);
            return Err(Failed);
        }
        let count = give(&self.bytes, self.at, self.piece, into);
        self.at += count;
        Ok(count)
    }
}

/// A source in memory that never fails.
#[derive(Drop)]
pub struct NeverFails {
    bytes: Bytes,
    at: usize,
    piece: usize,
}

impl Model for NeverFails {
    ghost use Rattle.std.specs.Prelude.{◌≤◌, ◌<◌, length, drop};
    ghost use Rattle.dri_io.specs.Memory.{Supply};

    ghost Value = { Supply };

    ghost view = { λ s. record { left = drop s.at s.bytes; piece = s.piece } };

    ghost invariant = { λ s. (s.at ≤ length s.bytes) × (0 < s.piece) };
}

impl NeverFails {
    /// A source of these bytes. A read gives at most `piece` of them, which is at least 1.
    pub fn new(bytes: Bytes, piece: usize) -> NeverFails
        requires { 0 < piece }
        ensures { result ≡ record { left = bytes; piece = piece } }
    {
        NeverFails {
            bytes,
            at: 0,
            piece,
        }
    }
}

impl Source for NeverFails {
    ghost left = { λ s. Some s.left };

    ghost faults = { λ _. 0 };

    ghost gives_all = { λ _. Unit {0} };

    fn read(&mut self, into: &mut [u8]) -> Result<usize, Failed>
        requires { 0 < length into.old }
        ensures bound { ReadsAtMost result into.new }
        ensures bytes { ReadConsumes (Some self.old.left) (Some self.new.left) result into.new }
        ensures cause { HasCause 0 0 result }
        ensures sure { Unit {0} → GivesOn (Unit {0}) 0 0 result }
        ensures piece { result ≡ Ok (min self.old.piece (min (length into.old) (length self.old.left))) }
        ensures rest { self.new.piece ≡ self.old.piece }
    {
        let count = give(&self.bytes, self.at, self.piece, into);
        self.at += count;
        Ok(count)
    }
}

/// A sink that takes each piece whole and tells nothing.
#[derive(Clone, Copy)]
pub struct NullSink;

impl NullSink {
    /// The one sink of this kind.
    pub fn new() -> NullSink {
        NullSink
    }
}

impl Sink for NullSink {
    ghost held = { λ _. None };

    ghost faults = { λ _. 0 };

    ghost takes = { λ _ n. Unit {0} };

    fn write(&mut self, bytes: &[u8]) -> Result<usize, Failed>
        requires { 0 < length bytes.now }
        ensures bound { WritesAtMost result bytes.now }
        ensures some { IfOk result (λ n. 0 < n) }
        ensures bytes { WriteAppends None None result bytes.now }
        ensures cause { HasCause 0 0 result }
        ensures room { (n : ℕ) → length bytes.now ≤ n → Unit {0} → TakesOn (λ (m : ℕ). Unit {0}) n 0 0 result }
        ensures whole { result ≡ Ok (length bytes.now) }
    {
        Ok(bytes.len())
    }
}

/// Puts bytes last, for which there is room.
fn store(bytes: &mut Vec<u8>, more: &[u8])
    requires { vec_len bytes.old + length more.now ≤ vec_capacity bytes.old }
    ensures items { bytes.new.items ≡ bytes.old.items ++ more.now }
    ensures room { vec_capacity bytes.old ≤ vec_capacity bytes.new }
{
    bytes.extend_from_slice(more).unwrap();
}

/// A sink in memory with room for so many bytes. It fails at the calls of its list, and where no room is left.
#[derive(Drop)]
pub struct MemorySink {
    bytes: Vec<u8>,
    capacity: usize,
    piece: usize,
    fails: CallList,
    calls: u64,
    faults: u64,
}

impl Model for MemorySink {
    ghost use Rattle.std.specs.Prelude.{◌≤◌, ◌<◌, vec_len, vec_capacity};
    ghost use Rattle.dri_io.specs.Memory.{Store};

    ghost Value = { Store };

    ghost view = { λ s. record { held = s.bytes.items; capacity = s.capacity; piece = s.piece; fails = s.fails; calls = s.calls; faults = s.faults } };

    ghost invariant = { λ s. (vec_len s.bytes ≤ s.capacity) × (s.capacity ≤ vec_capacity s.bytes) × (0 < s.piece) };
}

impl MemorySink {
    /// An empty sink with room for so many bytes, whose memory is taken here. A write takes at most `piece` bytes, which
    /// is at least 1, and fails exactly where the number of the call is in `fails` or no room is left.
    pub fn new(
        alloc: Global,
        room: usize,
        piece: usize,
        fails: CallList,
    ) -> Result<MemorySink, OutOfMemory>
        requires { 0 < piece }
        ensures { IfOk result (λ s. s ≡ record { held = []; capacity = room; piece = piece; fails = fails; calls = 0; faults = 0 }) }
    {
        let bytes = Vec::with_capacity(alloc, room)?;
        Ok(MemorySink {
            bytes,
            capacity: room,
            piece,
            fails,
            calls: 0,
            faults: 0,
        })
    }

    /// What it holds.
    pub fn bytes(&self) -> &[u8]
        ensures { result.now ≡ self.now.held }
    {
        self.bytes.as_slice()
    }
}

impl Sink for MemorySink {
    ghost held = { λ s. Some s.held };

    ghost faults = { λ s. s.faults };

    ghost takes = { λ s n. HasRoom s n };

    fn write(&mut self, bytes: &[u8]) -> Result<usize, Failed>
        requires { 0 < length bytes.now }
        ensures bound { WritesAtMost result bytes.now }
        ensures some { IfOk result (λ n. 0 < n) }
        ensures bytes { WriteAppends (Some self.old.held) (Some self.new.held) result bytes.now }
        ensures cause { HasCause self.old.faults self.new.faults result }
        ensures room { (n : ℕ) → length bytes.now ≤ n → HasRoom self.old n → TakesOn (HasRoom self.new) n self.old.faults self.new.faults result }
        ensures fails { IsErr result ↔ (Contains self.old.fails (one_more self.old.calls) ⊎ (self.old.capacity ≤ length self.old.held)) }
        ensures count { Counts self.old.faults self.new.faults result }
        ensures calls { self.new.calls ≡ one_more self.old.calls }
        ensures piece { IfOk result (λ n. n ≡ min self.old.piece (min (self.old.capacity - length self.old.held) (length bytes.now))) }
        ensures rest { (self.new.fails ≡ self.old.fails) × (self.new.capacity ≡ self.old.capacity) × (self.new.piece ≡ self.old.piece) }
    {
        self.calls = self.calls.saturating_add(1);
        let room = self.capacity - self.bytes.len();
        if room == 0 || self.fails.as_slice().contains(&self.calls) {
            self.faults = self.faults.saturating_add(1);
            return Err(Failed);
        }
        let count = self.piece.min(room).min(bytes.len());
        store(&mut self.bytes, &bytes[..count]);
        Ok(count)
    }
}
