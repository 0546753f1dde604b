//! The small value that the tests guard, and the passes of its lock.
ghost use Rattle.std.specs.Prelude.{◌≡◌, ◌+◌, ◌<◌, ◌++◌, ◌∷◌, [], if◌then◌else◌, length};
ghost use Rattle.dri_hwlock.specs.Tokens.{id_of, pass_token, opening_value, passes_in, AreNew, AllOfLock};

use dri_hwlock::{Guarded, HwLock, Pass, Passes};
use std::alloc::Global;

// An entry: a context and a number.
#[derive(Clone, Copy, Drop)]
pub struct Note {
    pub context: u32,
    pub number: u32,
}

#[derive(Drop)]
pub struct Notes {
    pub base: u32,
    pub closer: u32,
    pub notes: Vec<Note>,
}

impl Guarded for Notes {
    type Base = u32;

    type Entry = Note;

    ghost base_of = { λ s. s.base };

    ghost entries_of = { λ s. s.notes.items };

    ghost context_of = { λ e. e.context };

    ghost closer_of = { λ s. s.closer };

    fn count(&self) -> u64 {
        self.notes.len() as u64
    }

    fn closer(&self) -> u32 {
        self.closer
    }
}

impl Notes {
    // Adds a note where there is memory, and becomes its context's.
    pub fn add(&mut self, note: Note)
        ensures base { self.new.base ≡ self.old.base }
        ensures closer { self.new.closer ≡ note.context }
        ensures notes { (added : _) × (self.new.notes.items
            ≡ (if added then self.old.notes.items ++ note ∷ [] else self.old.notes.items)) }
    {
        self.closer = note.context;
        let _ = self.notes.push(note);
    }
}

pub fn no_notes(alloc: Global) -> Notes
    ensures { (result.notes.items ≡ []) × (result.closer ≡ 1) }
{
    Notes {
        base: 7,
        closer: 1,
        notes: Vec::new(alloc),
    }
}

// The last of some new passes, whose context is their number.
pub fn last_pass(lock: &HwLock<Notes>, passes: &mut Passes<Notes>, context: u32) -> Pass<Notes>
    requires new { AreNew (id_of lock.now) (opening_value lock.now).base 1 (passes_in passes.old) }
    requires count { (0 < context) × (length (passes_in passes.old) ≡ context) }
    ensures own { (pass_token result).lock ≡ id_of lock.now }
    ensures context { (pass_token result).context ≡ context }
    ensures new { AreNew (id_of lock.now) (opening_value lock.now).base 1 (passes_in passes.new) }
    ensures of { AllOfLock (id_of lock.now) (passes_in passes.new) }
    ensures count { length (passes_in passes.new) + 1 ≡ context }
{
    let _ = lock;
    let _ = context;
    let Some(pass) = passes.pop() else {
        unreachable!()
    };
    pass
}

// Puts a pass back, so that the lock can be closed.
pub fn put_back(lock: &HwLock<Notes>, passes: &mut Passes<Notes>, pass: Pass<Notes>)
    requires own { AllOfLock (id_of lock.now) (passes_in passes.old) }
    requires pass { (pass_token pass).lock ≡ id_of lock.now }
    requires room { length (passes_in passes.old) < 33 }
    ensures own { AllOfLock (id_of lock.now) (passes_in passes.new) }
    ensures count { length (passes_in passes.new) ≡ length (passes_in passes.old) + 1 }
{
    let _ = lock;
    passes.push(pass);
}
