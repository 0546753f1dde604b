//! The frames that were run, and how many of them stood. For each client there is kept whether its frame has a clear, and
//! whether that has stood.

ghost use Rattle.std.specs.Prelude.{◌≡◌, ◌+◌, ◌<◌, ◌≤◌, ℕ, not, length, true, Some, IfOk, slice_get, get_or, slice_set};
ghost use Rattle.dri_base.specs.declared.scene.ClientScript.{ClientScript};
ghost use Rattle.dri_base.specs.declared.scene.Scene.{Scene};
ghost use Rattle.dri_journal.specs.Tallies.{AreCut, IsTallyOf, has_number, is_cut, no_tally, standing_in};
ghost use Rattle.dri_journal.specs.declared.tally.Standing.TheVariants as Standing_is;
ghost use Rattle.dri_meaning.specs.Reports.{counts_frame, counts_stood, cut_by, standing_after};

use dri_base::{ClientScript, Command, OutOfMemory};
use std::alloc::Global;

/// Where a client's frame stands: it has no clear yet, its last clear has stood, or a new stamp came after it by something else
/// than a whole move.
#[derive(Clone, Copy, PartialEq, Eq)]
pub enum Standing {
    NoClear,
    Stood,
    Cut,
}

/// The counts, and by the place of a client's script where its frame stands.
#[derive(Drop)]
pub struct Tally {
    pub standings: Vec<Standing>,
    pub frames: usize,
    pub stood: usize,
}

impl Standing {
    /// After a command that the client ran, where it ran one.
    fn ran(self, command: Option<Command>) -> Standing
        ensures { standing_in result ≡ standing_after command (standing_in self) }
    {
        match command {
            Some(
                Command::Clear {
                    colour: _,
                    depth: _,
                },
            ) => Standing::Stood,
            Some(Command::Swap) => Standing::NoClear,
            _ => self,
        }
    }

    /// After a new stamp of the client's window, which wasn't moved whole.
    fn cut(self) -> Standing
        ensures { standing_in result ≡ cut_by true (standing_in self) }
    {
        match self {
            Standing::NoClear => Standing::NoClear,
            _ => Standing::Cut,
        }
    }

    /// How many frames a command ends that begin with a clear: one or none.
    fn frames(self, command: Option<Command>) -> usize
        ensures count { result ≡ counts_frame command (standing_in self) }
        ensures most { result ≤ 1 }
    {
        match (command, self) {
            (Some(Command::Swap), Standing::NoClear) => 0,
            (Some(Command::Swap), _) => 1,
            _ => 0,
        }
    }

    /// How many of them stood.
    fn stood(self, command: Option<Command>) -> usize
        ensures count { result ≡ counts_stood command (standing_in self) }
        ensures most { result ≤ 1 }
    {
        match (command, self) {
            (Some(Command::Swap), Standing::Stood) => 1,
            _ => 0,
        }
    }
}

/// Whether the numbers have this one.
fn has_number(numbers: &[u32], number: u32) -> bool
    ensures { result ≡ has_number numbers.now number }
{
    for other in numbers {
        if *other == number {
            return true;
        }
    }
    false
}

/// Whether what stands on a window is cut: it is one of the windows, and not the one that was moved whole, if one was.
fn is_cut(windows: &[u32], whole: Option<u32>, window: u32) -> bool
    ensures { result ≡ is_cut windows.now whole window }
{
    match whole {
        Some(moved) => moved != window && has_number(windows, window),
        None => has_number(windows, window),
    }
}

impl Tally {
    /// Nothing is counted yet, of so many clients.
    pub fn new(alloc: Global, clients: usize) -> Result<Tally, OutOfMemory>
        ensures { IfOk result (λ t. (s : Scene) → length s.clients ≡ clients → IsTallyOf s no_tally t) }
    {
        let standings = vec![in alloc; Standing::NoClear; clients]?;
        Ok(Tally {
            standings,
            frames: 0,
            stood: 0,
        })
    }

    /// The client of the script at a place ran a command, or none.
    pub fn ran(&mut self, at: usize, command: Option<Command>)
        requires there { at < length self.old.standings.items }
        requires frames { self.old.frames < 18446744073709551615 }
        requires stood { self.old.stood < 18446744073709551615 }
        ensures frames { self.new.frames ≡ self.old.frames + counts_frame command (standing_in (get_or self.old.standings.items at Standing_is.NoClear)) }
        ensures stood { self.new.stood ≡ self.old.stood + counts_stood command (standing_in (get_or self.old.standings.items at Standing_is.NoClear)) }
        ensures others { (i : ℕ) → (i ≡ at → ⊥) → slice_get self.new.standings.items i ≡ slice_get self.old.standings.items i }
        ensures own { standing_in (get_or self.new.standings.items at Standing_is.NoClear) ≡ standing_after command (standing_in (get_or self.old.standings.items at Standing_is.NoClear)) }
        ensures room { length self.new.standings.items ≡ length self.old.standings.items }
    {
        let standing = self.standings[at];
        self.frames += standing.frames(command);
        self.stood += standing.stood(command);
        self.standings[at] = standing.ran(command);
    }

    /// Windows got new stamps: the frames of the clients that draw on them are cut, but for the window that was moved whole,
    /// if one was.
    pub fn cut(&mut self, clients: &[ClientScript], windows: &[u32], whole: Option<u32>)
        requires { length self.old.standings.items ≡ length clients.now }
        ensures cut { AreCut clients.now windows.now whole self.old.standings.items self.new.standings.items }
        ensures frames { self.new.frames ≡ self.old.frames }
        ensures stood { self.new.stood ≡ self.old.stood }
    {
        for at in 0..clients.len() {
            if is_cut(windows, whole, clients[at].window) {
                self.standings[at] = self.standings[at].cut();
            }
        }
    }
}
