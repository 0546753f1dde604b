//! New stamps for the windows that a new stack touches.

ghost use Rattle.std.specs.Prelude.{◌≡◌, ◌<◌, ◌≤◌, IfOk};
ghost use Rattle.dri_base.specs.Limits.{last_stamp};
ghost use Rattle.dri_model.specs.Stacks.{is_touched};
ghost use Rattle.dri_clips.specs.Layouts.{IsLayout, IsRestamped, SameNumbers};
ghost use Rattle.dri_clips.specs.Mends.{AreMended, IsMended};

use crate::layout::{Layout, NUMBERS};
use crate::mending::{Mended, Patch};
use crate::regions::same_region;
use crate::stack::Stack;
use dri_base::{Numbers, OutOfMemory};
use std::alloc::Global;

/// The stamps by window number, the stamp counter, and the windows that were touched, by rising number.
#[derive(Drop)]
pub struct Restamped {
    pub stamps: [u32; 65],
    pub counter: u32,
    pub touched: Numbers,
}

/// Whether a window's clip set or origin differs. One whose list stands is as it was.
fn is_touched(old: &Layout, new: &Stack, list: &Option<Patch>, number: u32) -> bool
    requires layout { IsLayout old.now }
    requires number { number < 65 }
    requires mended { IsMended old.now.width old.now.height old.now.stack new.now number list.now }
    ensures { result ≡ is_touched old.now.width old.now.height old.now.stack new.now number }
{
    let Some(patch) = list else {
        return false;
    };
    let was = &old.clips[number as usize];
    was.canonical(&patch.clips);
    if !same_region(was, &patch.clips) {
        return true;
    }
    old.stack.origin(number) != new.origin(number)
}

/// Gives each window that the new stack touches a new stamp, by rising number.
pub fn restamp(
    alloc: Global,
    old: &Layout,
    new: &Stack,
    mended: &Mended,
    stamps: &[u32; 65],
    counter: u32,
) -> Result<Restamped, OutOfMemory>
    requires layout { IsLayout old.now }
    requires numbers { SameNumbers old.now.stack new.now }
    requires mended { AreMended old.now new.now mended.now }
    requires counter { counter ≤ last_stamp }
    ensures { IfOk result (IsRestamped (is_touched old.now.width old.now.height old.now.stack new.now) 65 counter stamps.now) }
{
    let mut out = Restamped {
        stamps: *stamps,
        counter,
        touched: Numbers::new(alloc),
    };
    for number in 1..65 {
        if is_touched(old, new, &mended.windows[number as usize], number) {
            out.counter += 1;
            out.stamps[number as usize] = out.counter;
            out.touched.push(number)?;
        }
    }
    Ok(out)
}
