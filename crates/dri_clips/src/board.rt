//! The board. It keeps the window stack, a clip list for each window, and a stamp for each window number.

ghost use Rattle.std.specs.Prelude.{ℕ, ◌≡◌, ◌≤◌, ◌<◌, ◌+◌, ◌*◌, ◌↔◌, None, Some, Err, IfOk, IfSome, OnOk, OnErr, All, Contains};
ghost use Rattle.dri_base.specs.declared.command.Change.{Change};
ghost use Rattle.dri_base.specs.Ranges.{InRange, WindowInRange, WindowsInRange, window_numbers};
ghost use Rattle.dri_base.specs.Limits.{last_stamp};
ghost use Rattle.dri_model.specs.Stacks.{Refusal, moved_by, origin, refusal, stack_after, touches, window_in, without_owner};
ghost use Rattle.dri_clips.specs.declared.change.ChangeFault.TheVariants.{NoWindow, OutOfRange, AlreadyMapped, NotMapped};
ghost use Rattle.dri_clips.specs.Areas.{is_named, is_owned, names, others, reached};
ghost use Rattle.dri_clips.specs.Boards.{AreClipsOf, IsOpening, IsRestacked, is_mapped, stamps_of};
ghost use Rattle.dri_clips.specs.Layouts.{SameNumbers};
ghost use Rattle.dri_clips.specs.Mends.{mending_cost, moving_cost};
ghost use Rattle.dri_clips.specs.Paints.{IsTouched};

use crate::cause::Cause;
use crate::change::{moved, place_to_change, stack_after, without_owner};
use crate::layout::Layout;
use crate::mending::mend;
use crate::moving::{carry_of, follow, moves_whole};
use crate::paints::paints;
use crate::stack::Stack;
use crate::stamps::restamp;
use crate::{ChangeFault, Touched};
use dri_base::{Change, OutOfMemory, Point, Rgb, Scene, Steps};
use dri_rect::Region;
use std::alloc::Global;
use std::marker::{Brand, Model};
use std::sync::ledger::{Blank, Ledger};

/// The window stack of a screen with what shows of each window, and a stamp for each window number.
#[derive(Drop)]
pub struct Board {
    root: Rgb,
    layout: Layout,
    stamps: [u32; 65],
    counter: u32,
}

impl Model for Board {
    ghost use Rattle.std.specs.Prelude.{◌≡◌, length};
    ghost use Rattle.dri_clips.specs.Boards.{Screen};
    ghost use Rattle.dri_clips.specs.Layouts.{IsLayout};

    ghost Value = { Screen };

    ghost view = { λ b. record { width = b.layout.width; height = b.layout.height; root = b.root; stack = b.layout.stack; stamps = b.stamps; counter = b.counter } };

    ghost invariant = { λ b. IsLayout b.layout × (length b.stamps ≡ 65) };
}

impl Board {
    /// The board of a scene before the first change. The scene is in range.
    pub fn new(alloc: Global, scene: &Scene) -> Result<Board, OutOfMemory>
        requires { InRange scene.now }
        ensures { IfOk result (IsOpening scene.now) }
    {
        opening::<Brand>(alloc, scene, Blank::new(1))
    }

    /// Puts a new stack in place, and tells what it touches.
    fn restack<L: Ledger>(
        &mut self,
        alloc: Global,
        cause: &Cause,
        stack: Stack,
        moved: Option<u32>,
        steps: &mut Steps<L>,
    ) -> Result<Touched, OutOfMemory>
        requires counter { self.old.counter ≤ last_stamp }
        requires ranged { All WindowInRange stack }
        requires numbers { SameNumbers self.old.stack stack }
        requires others { others (names cause.now) self.old.stack ≡ others (names cause.now) stack }
        requires moved { IfSome moved (λ window. window < 65) }
        ensures ok { OnOk result (IsRestacked stack self.old self.new) }
        ensures touched { IfOk result (IsTouched self.old stack moved) }
        ensures err { OnErr result (self.new ≡ self.old) }
        ensures steps { steps.new ≤ steps.old + (mending_cost (names cause.now) self.old.stack stack + moving_cost) }
    {
        let mended = mend(alloc, cause, &self.layout, &stack, steps)?;
        let new = restamp(
            alloc,
            &self.layout,
            &stack,
            &mended,
            &self.stamps,
            self.counter,
        )?;
        let motion = follow(alloc, moved, &self.layout, &stack, &mended, steps)?;
        let carry = carry_of(alloc, &motion)?;
        let paints = paints(alloc, self.root, &self.layout, &stack, &mended, &motion)?;
        self.layout.put(stack, mended);
        let stamps = new.stamps;
        self.stamps = stamps;
        self.counter = new.counter;
        Ok(Touched {
            windows: new.touched,
            carry,
            paints,
            whole: moves_whole(&motion),
        })
    }

    /// Makes a change, and tells what it touched. The windows touched get new stamps, by rising number. A change that is
    /// refused, or for which memory is wanting, leaves the board as it was. The stamp counter is at most 4,294,967,231. It
    /// makes at most 8 T + 16 region computations, where T counts the windows that it reaches; a refused change makes none.
    pub fn apply<L: Ledger>(
        &mut self,
        alloc: Global,
        change: &Change,
        steps: &mut Steps<L>,
    ) -> Result<Touched, ChangeFault>
        requires { self.old.counter ≤ last_stamp }
        ensures allowed { OnOk result (refusal change.now self.old.stack ≡ None) }
        ensures ok { OnOk result (IsRestacked (stack_after change.now self.old.stack) self.old self.new) }
        ensures touched { IfOk result (IsTouched self.old (stack_after change.now self.old.stack) (moved_by change.now self.old.stack)) }
        ensures no_window { (result ≡ Err NoWindow) ↔ (refusal change.now self.old.stack ≡ Some Refusal.NoWindow) }
        ensures out_of_range { (result ≡ Err OutOfRange) ↔ (refusal change.now self.old.stack ≡ Some Refusal.OutOfRange) }
        ensures already_mapped { (result ≡ Err AlreadyMapped) ↔ (refusal change.now self.old.stack ≡ Some Refusal.AlreadyMapped) }
        ensures not_mapped { (result ≡ Err NotMapped) ↔ (refusal change.now self.old.stack ≡ Some Refusal.NotMapped) }
        ensures err { OnErr result (self.new ≡ self.old) }
        ensures steps { steps.new ≤ steps.old + (8 * reached (is_named change.now) self.old.stack (stack_after change.now self.old.stack) + 16) }
        ensures refused { IfSome (refusal change.now self.old.stack) (λ _. steps.new ≡ steps.old) }
    {
        let at = place_to_change(&self.layout.stack, change)?;
        let stack = stack_after(&self.layout.stack, at, change)?;
        stack.arranged();
        let cause = Cause::Window(change.window());
        Ok(self.restack(alloc, &cause, stack, moved(change), steps)?)
    }

    /// Unmaps each window of an owner, as one change, and tells what it touched. Where memory is wanting the board stays
    /// as it was. The stamp counter is at most 4,294,967,231.
    pub fn unmap_owner<L: Ledger>(
        &mut self,
        alloc: Global,
        owner: u32,
        steps: &mut Steps<L>,
    ) -> Result<Touched, OutOfMemory>
        requires { self.old.counter ≤ last_stamp }
        ensures ok { OnOk result (IsRestacked (without_owner owner self.old.stack) self.old self.new) }
        ensures touched { IfOk result (IsTouched self.old (without_owner owner self.old.stack) None) }
        ensures err { OnErr result (self.new ≡ self.old) }
        ensures steps { steps.new ≤ steps.old + (8 * reached (is_owned owner) self.old.stack (without_owner owner self.old.stack) + 16) }
    {
        let stack = without_owner(&self.layout.stack, owner)?;
        self.restack(alloc, &Cause::Owner(owner), stack, None, steps)
    }

    /// The stamp of a window that is on the board.
    pub fn stamp(&self, window: u32) -> u32
        requires { Contains (window_numbers self.now.stack) window }
        ensures { result ≡ stamps_of self.now window }
    {
        self.stamps[window as usize]
    }

    /// The pixels of the screen at which a window shows that is on the board.
    pub fn clips(&self, window: u32) -> &Region
        requires { Contains (window_numbers self.now.stack) window }
        ensures { AreClipsOf self.now window result.now }
    {
        &self.layout.clips[window as usize]
    }

    /// The upper left corner of a window that is on the board.
    pub fn origin(&self, window: u32) -> Point
        requires { Contains (window_numbers self.now.stack) window }
        ensures { (result.x, result.y) ≡ origin self.now.stack window }
    {
        self.layout.stack.origin(window)
    }

    /// Whether a window that is on the board is mapped.
    pub fn mapped(&self, window: u32) -> bool
        requires { Contains (window_numbers self.now.stack) window }
        ensures { result ≡ is_mapped (window_in self.now.stack window) }
    {
        let at = self.layout.stack.place(window).unwrap();
        self.layout.stack.window(at).mapped
    }

    /// How the windows stand: each of them is in range, and no number stands twice. So a change touches at most 64 of
    /// them, as does a death. It does nothing: its contract is the law.
    pub fn arranged(&self)
        ensures stack { WindowsInRange self.now.stack }
        ensures change { (change : Change) → touches self.now.width self.now.height self.now.stack (stack_after change self.now.stack) ≤ 64 }
        ensures death { (owner : ℕ) → touches self.now.width self.now.height self.now.stack (without_owner owner self.now.stack) ≤ 64 }
    {
        let _layout = &self.layout;
    }
}

// The first lists count steps that nobody asks for.
fn opening<L: Ledger>(alloc: Global, scene: &Scene, blank: Blank) -> Result<Board, OutOfMemory>
    requires name { blank.name ≡ L.name }
    requires parts { blank.parts ≡ L.parts }
    requires one { L.parts ≡ 1 }
    requires scene { InRange scene.now }
    ensures { IfOk result (IsOpening scene.now) }
{
    let mut steps = Steps::<L>::new(blank);
    let stack = Stack::from_windows(alloc, scene.windows.as_slice())?;
    Ok(Board {
        root: scene.root,
        layout: Layout::new(alloc, scene.width, scene.height, stack, &mut steps)?,
        stamps: [1; 65],
        counter: 1,
    })
}
