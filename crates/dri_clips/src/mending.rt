//! The walk over the area of a new stack, from top to bottom: each window that it meets gets a new list, made of what its
//! old list has outside the area and of its part of the area, unless the old list has just this part there.

ghost use Rattle.std.specs.Prelude.{ℤ, ℕ, true, ◌≡◌, ◌≤◌, ◌+◌, ◌*◌, ◌&&◌, ◌||◌, not, filter, length, replicate, None, All, IfOk, OnOk, if◌then◌else◌};
ghost use Rattle.dri_base.specs.Ranges.{WindowInRange};
ghost use Rattle.dri_rect.specs.Pixels.{has_pixel, inside};
ghost use Rattle.dri_clips.specs.Areas.{in_area, names, others};
ghost use Rattle.dri_clips.specs.Layouts.{AreDistinct, IsAbsent, IsLayout, has_place, window_rect};
ghost use Rattle.dri_clips.specs.Mends.{AreMended, IsNewList, IsPartList, IsPatch, IsWalk, is_met, mending_cost};

use crate::area::{area_of, meets, rect_of, screen};
use crate::cause::Cause;
use crate::layout::{Layout, NUMBERS};
use crate::regions::same_region;
use crate::stack::Stack;
use dri_base::{OutOfMemory, Steps, Window};
use dri_rect::Region;
use std::alloc::Global;
use std::sync::ledger::Ledger;

/// A new list, and which of its pixels the old one lacks.
#[derive(Drop)]
pub struct Patch {
    pub clips: Region,
    pub gained: Region,
}

/// What a new stack changes: the new list of each window that is met, by window number, and that of the root.
#[derive(Drop)]
pub struct Mended {
    pub windows: Vec<Option<Patch>>,
    pub root: Patch,
}

/// Takes a window's part of what is left.
fn take_part<L: Ledger>(
    alloc: Global,
    left: &mut Region,
    window: &Window,
    steps: &mut Steps<L>,
) -> Result<Region, OutOfMemory>
    requires { WindowInRange window.now }
    ensures part { IfOk result (λ part. (x y : ℤ) → inside part x y ≡ (inside left.old x y && has_pixel (window_rect window.now) x y)) }
    ensures left { OnOk result ((x y : ℤ) → inside left.new x y ≡ (inside left.old x y && not (has_pixel (window_rect window.now) x y))) }
    ensures steps { steps.new ≤ steps.old + 3 }
{
    if left.len() == 0 {
        return Ok(Region::empty(alloc, steps));
    }
    let rect = Region::of_rect(alloc, &rect_of(window), steps)?;
    let part = left.intersect(alloc, &rect, steps)?;
    let rest = left.subtract(alloc, &rect, steps)?;
    *left = rest;
    Ok(part)
}

/// A list whose pixels of the area become this part.
fn mend_list<L: Ledger>(
    alloc: Global,
    old: &Region,
    area: &Region,
    part: &Region,
    steps: &mut Steps<L>,
) -> Result<Patch, OutOfMemory>
    ensures patch { IfOk result (IsPatch old.now area.now (inside part.now)) }
    ensures steps { steps.new ≤ steps.old + 3 }
{
    let kept = old.subtract(alloc, area, steps)?;
    if part.len() == 0 {
        return Ok(Patch {
            clips: kept,
            gained: Region::empty(alloc, steps),
        });
    }
    Ok(Patch {
        clips: kept.unite(alloc, part, steps)?,
        gained: part.subtract(alloc, old, steps)?,
    })
}

/// The list of a window that is met, whose pixels of the area become this part. Where it has just these there, its list
/// stands, unless it is named and so may have moved.
fn mend_met<L: Ledger>(
    alloc: Global,
    named: bool,
    old: &Region,
    area: &Region,
    part: &Region,
    steps: &mut Steps<L>,
) -> Result<Option<Patch>, OutOfMemory>
    ensures list { IfOk result (IsPartList named area.now old.now (inside part.now)) }
    ensures steps { steps.new ≤ steps.old + 4 }
{
    let was = old.intersect(alloc, area, steps)?;
    if !named && same_region(&was, part) {
        return Ok(None);
    }
    Ok(Some(mend_list(alloc, old, area, part, steps)?))
}

/// Whether a window takes part in the area.
fn is_met(cause: &Cause, area: &Region, window: &Window) -> bool
    requires { WindowInRange window.now }
    ensures { result ≡ is_met (names cause.now) area.now window.now }
{
    window.mapped && (cause.names(window) || meets(area, &rect_of(window)))
}

/// The new list of a window, unless its list stands.
fn mend_window<L: Ledger>(
    alloc: Global,
    cause: &Cause,
    area: &Region,
    left: &mut Region,
    old: &Region,
    window: &Window,
    steps: &mut Steps<L>,
) -> Result<Option<Patch>, OutOfMemory>
    requires ranged { WindowInRange window.now }
    requires within { (x y : ℤ) → inside left.old x y ≡ true → inside area.now x y ≡ true }
    ensures list { IfOk result (IsNewList (names cause.now) area.now left.old old.now window.now) }
    ensures left { OnOk result ((x y : ℤ) → inside left.new x y ≡ (inside left.old x y && not (has_place window.now x y))) }
    ensures steps { steps.new ≤ steps.old + (if is_met (names cause.now) area.now window.now then 7 else 0) }
{
    if is_met(cause, area, window) {
        let part = take_part(alloc, left, window, steps)?;
        return mend_met(alloc, cause.names(window), old, area, &part, steps);
    }
    if cause.names(window) {
        return Ok(Some(Patch {
            clips: Region::empty(alloc, steps),
            gained: Region::empty(alloc, steps),
        }));
    }
    Ok(None)
}

/// No new list for any number.
fn no_lists(alloc: Global) -> Result<Vec<Option<Patch>>, OutOfMemory>
    ensures { IfOk result (λ lists. lists.items ≡ replicate 65 None) }
{
    let mut lists = Vec::with_capacity(alloc, NUMBERS)?;
    for _number in 0..NUMBERS {
        lists.push(None)?;
    }
    Ok(lists)
}

/// The lists of the windows, from top to bottom.
fn mend_windows<L: Ledger>(
    alloc: Global,
    cause: &Cause,
    area: &Region,
    left: &mut Region,
    old: &Layout,
    new: &Stack,
    steps: &mut Steps<L>,
) -> Result<Vec<Option<Patch>>, OutOfMemory>
    requires layout { IsLayout old.now }
    requires ranged { All WindowInRange new.now }
    requires others { others (names cause.now) old.now.stack ≡ others (names cause.now) new.now }
    requires area { (x y : ℤ) → inside area.now x y ≡ in_area old.now.width old.now.height (names cause.now) old.now.stack new.now x y }
    requires left { left.old ≡ area.now }
    ensures apart { AreDistinct new.now }
    ensures walk { IfOk result (λ lists. IsWalk old.now.width old.now.height (names cause.now) old.now.stack new.now area.now (length new.now) left.new lists.items) }
    ensures steps { steps.new ≤ steps.old + 7 * length (filter (is_met (names cause.now) area.now) new.now) }
{
    let count = new.len();
    let mut lists = no_lists(alloc)?;
    for at in 0..count {
        let window = new.window(at);
        let number = window.number as usize;
        let was = &old.clips[number];
        lists[number] = mend_window(alloc, cause, area, left, was, &window, steps)?;
    }
    Ok(lists)
}

/// The lists of a new stack.
pub fn mend<L: Ledger>(
    alloc: Global,
    cause: &Cause,
    old: &Layout,
    new: &Stack,
    steps: &mut Steps<L>,
) -> Result<Mended, OutOfMemory>
    requires layout { IsLayout old.now }
    requires ranged { All WindowInRange new.now }
    requires others { others (names cause.now) old.now.stack ≡ others (names cause.now) new.now }
    requires absent { (n : ℕ) → IsAbsent n new.now → IsAbsent n old.now.stack }
    ensures mended { IfOk result (AreMended old.now new.now) }
    ensures steps { steps.new ≤ steps.old + mending_cost (names cause.now) old.now.stack new.now }
{
    let area = area_of(
        alloc,
        cause,
        &old.stack,
        new,
        &screen(old.width, old.height),
        steps,
    )?;
    let mut left = area.copy(alloc, steps)?;
    let windows = mend_windows(alloc, cause, &area, &mut left, old, new, steps)?;
    let root = mend_list(alloc, &old.free, &area, &left, steps)?;
    Ok(Mended { windows, root })
}
