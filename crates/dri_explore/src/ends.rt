//! The ends that are found: each distinct journal, with the picture that it leaves, and each distinct picture.

ghost use Rattle.std.specs.Prelude.{◌≡◌, [], Contains, IfOk, OnOk, false};
ghost use Rattle.std.specs.Bool.{Decides};
ghost use Rattle.dri_core.specs.Cores.{journal_of};
ghost use Rattle.dri_explore.specs.Ends.{IsShown, journals};
ghost use Rattle.dri_explore.specs.Gathering.{Notes, Places};

use crate::same::{are_entries, are_pixels};
use dri_base::{Entries, Entry, OutOfMemory, Rgb, Sequence};
use dri_world::World;
use std::alloc::Global;

/// The pixels of a screen, row by row.
pub type Screen = Sequence<Rgb>;

/// What a complete run ends with.
#[derive(Drop)]
pub struct End {
    /// Its journal.
    pub journal: Entries,
    /// Which of the pictures its screen is, counted from 0.
    pub picture: usize,
}

/// All ends, their pictures, and whether a run was cut.
#[derive(Drop)]
pub struct Ends {
    /// The ends, each journal once. Those of fewer events come first.
    pub ends: Sequence<End>,
    /// The pictures, each screen once, in the order in which the ends have them.
    pub pictures: Sequence<Screen>,
    /// Whether some run with the greatest number of events could go on.
    pub cut: bool,
}

impl Ends {
    /// No ends.
    pub(crate) fn new(alloc: Global) -> Ends
        ensures { result ≡ record { ends = []; pictures = []; cut = false } }
    {
        Ends {
            ends: Sequence::new(alloc),
            pictures: Sequence::new(alloc),
            cut: false,
        }
    }

    /// Notes what a complete run ends with, where its journal isn't there yet.
    pub(crate) fn note(&mut self, alloc: Global, world: &World) -> Result<(), OutOfMemory>
        requires { IsShown world.now.scene self.old }
        ensures { OnOk result (Notes world.now.scene self.old self.new (journal_of world.now.events)) }
    {
        if self.has(world.journal()) {
            return Ok(());
        }
        let journal = Entries::from_vec(Vec::from_slice(alloc, world.journal())?);
        let picture = self.picture_of(alloc, world.front().pixels())?;
        self.ends.push(End { journal, picture })?;
        Ok(())
    }

    // Whether an end has this journal.
    fn has(&self, journal: &[Entry]) -> bool
        ensures { Decides result (Contains (journals self.now.ends) journal.now) }
    {
        for i in 0..self.ends.len() {
            if are_entries(self.ends.get(i).journal.as_slice(), journal) {
                return true;
            }
        }
        false
    }

    // The number of a screen's picture. One that isn't there yet is put last.
    fn picture_of(&mut self, alloc: Global, pixels: &[Rgb]) -> Result<usize, OutOfMemory>
        ensures ends { self.new.ends ≡ self.old.ends }
        ensures cut { self.new.cut ≡ self.old.cut }
        ensures placed { IfOk result (Places self.old.pictures self.new.pictures pixels.now) }
    {
        for i in 0..self.pictures.len() {
            if are_pixels(self.pictures.get(i).as_slice(), pixels) {
                return Ok(i);
            }
        }
        let number = self.pictures.len();
        let screen = Screen::from_vec(Vec::from_slice(alloc, pixels)?);
        self.pictures.push(screen)?;
        Ok(number)
    }
}
