//! A stack with what shows of it: a region for each window number, empty where the window shows nowhere, and the region
//! that no window covers.

ghost use Rattle.std.specs.Prelude.{ℕ, None, ◌≡◌, ◌<◌, [], length, replicate, slice_index_or, All, IfOk};
ghost use Rattle.dri_base.specs.Ranges.{IsSide, WindowInRange};
ghost use Rattle.dri_clips.specs.Layouts.{IsLayout};
ghost use Rattle.dri_clips.specs.Mends.{AreMended, list_or};

use crate::area::screen;
use crate::cause::Cause;
use crate::mending::{Mended, Patch, mend};
use crate::stack::Stack;
use dri_base::{OutOfMemory, Steps};
use dri_rect::Region;
use std::alloc::Global;
use std::sync::ledger::Ledger;

/// How many numbers there are: a window's is from 1 to 64.
pub const NUMBERS: usize = 65;

/// What shows of the windows of a stack on a screen.
#[derive(Drop)]
pub struct Layout {
    pub width: u32,
    pub height: u32,
    pub stack: Stack,
    pub clips: Vec<Region>,
    pub free: Region,
}

/// An empty region for each window number.
fn no_clips<L: Ledger>(alloc: Global, steps: &mut Steps<L>) -> Result<Vec<Region>, OutOfMemory>
    ensures { IfOk result (λ clips. clips.items ≡ replicate 65 []) }
{
    let mut clips = Vec::with_capacity(alloc, NUMBERS)?;
    for _number in 0..NUMBERS {
        clips.push(Region::empty(alloc, steps))?;
    }
    Ok(clips)
}

/// Puts the new lists in place.
fn put_lists(clips: &mut Vec<Region>, lists: Vec<Option<Patch>>)
    requires clips { length clips.old.items ≡ 65 }
    requires lists { length lists.items ≡ 65 }
    ensures room { length clips.new.items ≡ 65 }
    ensures lists { (n : ℕ) → n < 65 → slice_index_or clips.new.items n [] ≡ list_or (slice_index_or lists.items n None) (slice_index_or clips.old.items n []) }
{
    let mut lists = lists;
    while let Some(list) = lists.pop() {
        if let Some(patch) = list {
            clips[lists.len()] = patch.clips;
        }
    }
}

impl Layout {
    /// A screen without windows.
    fn bare<L: Ledger>(
        alloc: Global,
        width: u32,
        height: u32,
        steps: &mut Steps<L>,
    ) -> Result<Layout, OutOfMemory>
        requires wide { IsSide width }
        requires high { IsSide height }
        ensures stack { IfOk result (λ l. l.stack ≡ []) }
        ensures width { IfOk result (λ l. l.width ≡ width) }
        ensures height { IfOk result (λ l. l.height ≡ height) }
        ensures layout { IfOk result IsLayout }
    {
        Ok(Layout {
            width,
            height,
            stack: Stack::empty(alloc),
            clips: no_clips(alloc, steps)?,
            free: Region::of_rect(alloc, &screen(width, height), steps)?,
        })
    }

    /// The layout of a stack. Each window is new to the screen.
    pub fn new<L: Ledger>(
        alloc: Global,
        width: u32,
        height: u32,
        stack: Stack,
        steps: &mut Steps<L>,
    ) -> Result<Layout, OutOfMemory>
        requires wide { IsSide width }
        requires high { IsSide height }
        requires ranged { All WindowInRange stack }
        ensures stack { IfOk result (λ l. l.stack ≡ stack) }
        ensures width { IfOk result (λ l. l.width ≡ width) }
        ensures height { IfOk result (λ l. l.height ≡ height) }
        ensures layout { IfOk result IsLayout }
    {
        let mut layout = Layout::bare(alloc, width, height, steps)?;
        let mended = mend(alloc, &Cause::Opening, &layout, &stack, steps)?;
        layout.put(stack, mended);
        Ok(layout)
    }

    /// Puts a new stack with its lists in place. It takes no memory.
    pub fn put(&mut self, stack: Stack, mended: Mended)
        requires layout { IsLayout self.old }
        requires ranged { All WindowInRange stack }
        requires mended { AreMended self.old stack mended }
        ensures stack { self.new.stack ≡ stack }
        ensures width { self.new.width ≡ self.old.width }
        ensures height { self.new.height ≡ self.old.height }
        ensures layout { IsLayout self.new }
    {
        put_lists(&mut self.clips, mended.windows);
        self.free = mended.root.clips;
        self.stack = stack;
    }
}
