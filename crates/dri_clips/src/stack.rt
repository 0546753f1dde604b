//! The window stack: an index map from window numbers to windows, from top to bottom.

ghost use Rattle.std.specs.Prelude.{[], ◌≡◌, ◌<◌, length, slice_get, slice_set, Some, IfOk, IfSome, IfNone};
ghost use Rattle.indexmap.specs.IndexMap.{move_index};
ghost use Rattle.dri_model.specs.Stacks.{origin};
ghost use Rattle.dri_clips.specs.Layouts.{AreDistinct, IsAbsent, IsPlaced};

use dri_base::{OutOfMemory, Point, Window};
use indexmap::IndexMap;
use std::alloc::Global;
use std::marker::Model;

/// Windows from top to bottom, each found by its number. Contracts see the list of the windows.
#[derive(Drop)]
pub struct Stack {
    windows: IndexMap<u32, Window>,
}

impl Model for Stack {
    ghost use Rattle.std.specs.Prelude.{◌≡◌, List};
    ghost use Rattle.dri_base.specs.declared.scene.Window.{Window};
    ghost use Rattle.dri_base.specs.Ranges.{window_numbers};
    ghost use Rattle.indexmap.specs.IndexMap.{keys, values};

    ghost Value = { List Window };

    ghost view = { λ s. values s.windows };

    ghost invariant = { λ s. keys s.windows ≡ window_numbers (values s.windows) };
}

impl Stack {
    /// The stack of these windows, no two of which have one number.
    pub fn from_windows(alloc: Global, windows: &[Window]) -> Result<Stack, OutOfMemory>
        requires { AreDistinct windows.now }
        ensures { IfOk result (λ stack. stack ≡ windows.now) }
    {
        let mut stack = IndexMap::with_capacity(alloc, windows.len())?;
        for window in windows {
            stack.insert(window.number, *window)?;
        }
        Ok(Stack { windows: stack })
    }

    /// The stack of no window.
    pub fn empty(alloc: Global) -> Stack
        ensures { result ≡ [] }
    {
        Stack {
            windows: IndexMap::new(alloc),
        }
    }

    /// The same stack.
    pub fn copy(&self) -> Result<Stack, OutOfMemory>
        ensures { IfOk result (λ stack. stack ≡ self.now) }
    {
        Ok(Stack {
            windows: self.windows.clone()?,
        })
    }

    /// How many windows there are. No two of them have one number.
    pub fn len(&self) -> usize
        ensures len { result ≡ length self.now }
        ensures apart { AreDistinct self.now }
    {
        self.windows.len()
    }

    /// No two windows have one number. It does nothing: its contract is the law.
    pub fn arranged(&self)
        ensures { AreDistinct self.now }
    {
        let _count = self.len();
    }

    /// The place of a window, counted from 0 at the top, if it is there.
    pub fn place(&self, number: u32) -> Option<usize>
        ensures there { IfSome result (λ at. IsPlaced number at self.now) }
        ensures absent { IfNone result (IsAbsent number self.now) }
    {
        self.windows.get_index_of(&number)
    }

    /// The upper left corner of a window. One that isn't there has (0, 0).
    pub fn origin(&self, number: u32) -> Point
        ensures { (result.x, result.y) ≡ origin self.now number }
    {
        let Some(at) = self.place(number) else {
            return Point { x: 0, y: 0 };
        };
        let window = self.window(at);
        Point {
            x: window.x,
            y: window.y,
        }
    }

    /// The window at a place.
    pub fn window(&self, at: usize) -> Window
        requires { at < length self.now }
        ensures { slice_get self.now at ≡ Some result }
    {
        self.windows[at]
    }

    /// Puts a window of the same number into the place of one.
    pub fn replace(&mut self, at: usize, window: Window)
        requires there { at < length self.old }
        requires same { IfSome (slice_get self.old at) (λ w. window.number ≡ w.number) }
        ensures { self.new ≡ slice_set self.old at window }
    {
        self.windows[at] = window;
    }

    /// Moves a window to another place. Those in between move by one.
    pub fn move_to(&mut self, from: usize, to: usize)
        requires from { from < length self.old }
        requires to { to < length self.old }
        ensures { self.new ≡ move_index self.old from to }
    {
        self.windows.move_index(from, to);
    }
}
