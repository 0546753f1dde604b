//! A window that a new stack moves: how far, and what of it comes along.

ghost use Rattle.std.specs.Prelude.{◌≡◌, ◌≤◌, ◌+◌, ◌<◌, All, IfOk, IfSome, map};
ghost use Rattle.dri_base.specs.Ranges.{WindowInRange};
ghost use Rattle.dri_model.specs.Stacks.{shift};
ghost use Rattle.dri_clips.specs.Gains.{AreOnScreen, clip_rect};
ghost use Rattle.dri_clips.specs.Layouts.{IsLayout};
ghost use Rattle.dri_clips.specs.Mends.{AreMended, list_or, moving_cost};
ghost use Rattle.dri_clips.specs.Motions.{IsAlong, IsCarryOf, IsMotion, moved_in, moved_whole, repainted_of};
ghost use Rattle.dri_clips.specs.Paints.{IsNear};

use crate::layout::Layout;
use crate::mending::{Mended, Patch};
use crate::paints::clip_rect;
use crate::regions::same_region;
use crate::stack::Stack;
use crate::{Carry, ClipRects};
use dri_base::{OutOfMemory, Point, Steps};
use dri_rect::Region;
use std::alloc::Global;
use std::sync::ledger::Ledger;

/// What comes along of a window that moves.
#[derive(Drop)]
pub struct Motion {
    pub window: u32,
    pub dx: i32,
    pub dy: i32,
    /// The pixels that are carried, as they lie before the move.
    pub carried: Region,
    /// Where the window shows after the move, and nothing is carried to.
    pub fresh: Region,
    /// Whether nothing is fresh, and nothing stays behind.
    pub whole: bool,
}

/// What comes along of a window that showed here and shows there, where it moves so far.
fn along<L: Ledger>(
    alloc: Global,
    window: u32,
    way: Point,
    was: &Region,
    now: &Region,
    steps: &mut Steps<L>,
) -> Result<Motion, OutOfMemory>
    requires was { AreOnScreen 1024 1024 was.now }
    requires now { AreOnScreen 1024 1024 now.now }
    requires across { IsNear way.x }
    requires down { IsNear way.y }
    ensures along { IfOk result (IsAlong window way.x way.y was.now now.now) }
    ensures steps { steps.new ≤ steps.old + moving_cost }
{
    let back = now.translate(alloc, -way.x, -way.y, steps)?;
    let carried = was.intersect(alloc, &back, steps)?;
    let arrived = carried.translate(alloc, way.x, way.y, steps)?;
    let fresh = now.subtract(alloc, &arrived, steps)?;
    carried.canonical(was);
    arrived.canonical(now);
    Ok(Motion {
        window,
        dx: way.x,
        dy: way.y,
        whole: same_region(&carried, was) && same_region(&arrived, now),
        carried,
        fresh,
    })
}

/// The list of a window: the new one, if there is one, or the one that stands.
fn list_of<'a>(list: &'a Option<Patch>, was: &'a Region) -> &'a Region
    ensures { result.now ≡ list_or list.now was.now }
{
    match list {
        Some(patch) => &patch.clips,
        None => was,
    }
}

/// How far a new stack moves a window.
fn way(old: &Stack, new: &Stack, window: u32) -> Point
    requires old { All WindowInRange old.now }
    requires new { All WindowInRange new.now }
    ensures way { (result.x, result.y) ≡ shift old.now new.now window }
    ensures across { IsNear result.x }
    ensures down { IsNear result.y }
{
    let from = old.origin(window);
    let to = new.origin(window);
    Point {
        x: to.x - from.x,
        y: to.y - from.y,
    }
}

/// What comes along of a window that a new stack moves.
fn motion_of<L: Ledger>(
    alloc: Global,
    window: u32,
    old: &Layout,
    new: &Stack,
    mended: &Mended,
    steps: &mut Steps<L>,
) -> Result<Motion, OutOfMemory>
    requires layout { IsLayout old.now }
    requires ranged { All WindowInRange new.now }
    requires window { window < 65 }
    requires mended { AreMended old.now new.now mended.now }
    ensures motion { IfOk result (IsMotion old.now.width old.now.height old.now.stack new.now) }
    ensures window { IfOk result (λ motion. motion.window ≡ window) }
    ensures steps { steps.new ≤ steps.old + moving_cost }
{
    let was = &old.clips[window as usize];
    let now = list_of(&mended.windows[window as usize], was);
    let way = way(&old.stack, new, window);
    along(alloc, window, way, was, now, steps)
}

/// What comes along of the window that a new stack moves, if it moves one.
pub fn follow<L: Ledger>(
    alloc: Global,
    moved: Option<u32>,
    old: &Layout,
    new: &Stack,
    mended: &Mended,
    steps: &mut Steps<L>,
) -> Result<Option<Motion>, OutOfMemory>
    requires layout { IsLayout old.now }
    requires ranged { All WindowInRange new.now }
    requires moved { IfSome moved (λ window. window < 65) }
    requires mended { AreMended old.now new.now mended.now }
    ensures motion { IfOk result (λ motion. IfSome motion (IsMotion old.now.width old.now.height old.now.stack new.now)) }
    ensures moved { IfOk result (λ motion. moved_in motion ≡ moved) }
    ensures steps { steps.new ≤ steps.old + moving_cost }
{
    let Some(window) = moved else {
        return Ok(None);
    };
    Ok(Some(motion_of(alloc, window, old, new, mended, steps)?))
}

/// Whether a window moves whole.
pub fn moves_whole(motion: &Option<Motion>) -> bool
    ensures { result ≡ moved_whole motion.now }
{
    match motion {
        Some(motion) => motion.whole,
        None => false,
    }
}

/// What a window repaints: what is fresh of it where it moves, else what it gained.
pub fn repainted<'a>(motion: &'a Option<Motion>, number: u32, gained: &'a Region) -> &'a Region
    ensures { result.now ≡ repainted_of motion.now number gained.now }
{
    match motion {
        Some(motion) if motion.window == number => &motion.fresh,
        _ => gained,
    }
}

/// The rectangles of a region, as the card takes them.
fn clip_rects(alloc: Global, region: &Region) -> Result<ClipRects, OutOfMemory>
    requires { AreOnScreen 1024 1024 region.now }
    ensures { IfOk result (λ rects. rects ≡ map clip_rect region.now) }
{
    region.arranged();
    let mut rects = ClipRects::new(alloc);
    for i in 0..region.len() {
        rects.push(clip_rect(&region.rect(i)))?;
    }
    Ok(rects)
}

/// What is carried, if something is.
pub fn carry_of(alloc: Global, motion: &Option<Motion>) -> Result<Option<Carry>, OutOfMemory>
    requires { IfSome motion.now (λ motion. AreOnScreen 1024 1024 motion.carried) }
    ensures { IfOk result (IsCarryOf motion.now) }
{
    let Some(motion) = motion else {
        return Ok(None);
    };
    if motion.carried.len() == 0 {
        return Ok(None);
    }
    motion.carried.arranged();
    Ok(Some(Carry {
        rects: clip_rects(alloc, &motion.carried)?,
        dx: motion.dx,
        dy: motion.dy,
    }))
}
