//! The area in which a new stack may change what shows: the screen's pixels in the old and the new rectangles of the
//! windows that it names.

ghost use Rattle.std.specs.Prelude.{ℤ, ◌≡◌, ◌≤◌, ◌+◌, ◌*◌, ◌&&◌, ◌||◌, length, All, IfOk, if◌then◌else◌};
ghost use Rattle.dri_base.specs.Ranges.{IsSide, WindowInRange};
ghost use Rattle.dri_rect.specs.Pixels.{has_pixel, inside, IsInRange};
ghost use Rattle.dri_clips.specs.Areas.{has_named, meets, named_in, names, share_pixel};
ghost use Rattle.dri_clips.specs.Layouts.{has_place, screen_rect, window_rect};

use crate::cause::Cause;
use crate::stack::Stack;
use dri_base::{OutOfMemory, Rect, Steps, Window};
use dri_rect::{Region, shared};
use std::alloc::Global;
use std::sync::ledger::Ledger;

/// The window's rectangle.
pub fn rect_of(window: &Window) -> Rect
    requires { WindowInRange window.now }
    ensures { result ≡ window_rect window.now }
{
    Rect {
        x1: window.x,
        y1: window.y,
        x2: window.x + window.width as i32,
        y2: window.y + window.height as i32,
    }
}

/// The screen's rectangle.
pub fn screen(width: u32, height: u32) -> Rect
    requires wide { IsSide width }
    requires high { IsSide height }
    ensures { result ≡ screen_rect width height }
{
    Rect {
        x1: 0,
        y1: 0,
        x2: width as i32,
        y2: height as i32,
    }
}

/// Whether two rectangles share a pixel.
fn share_pixel(a: &Rect, b: &Rect) -> bool
    ensures { result ≡ share_pixel a.now b.now }
{
    let both = shared(a, b);
    both.x1 < both.x2 && both.y1 < both.y2
}

/// Whether a rectangle shares a pixel with the area. It makes no step.
pub fn meets(area: &Region, rect: &Rect) -> bool
    ensures { result ≡ meets area.now rect.now }
{
    for i in 0..area.len() {
        if share_pixel(&area.rect(i), rect) {
            return true;
        }
    }
    false
}

/// Adds a window's rectangle, where the window is named and mapped.
fn add_window<L: Ledger>(
    alloc: Global,
    area: Region,
    cause: &Cause,
    window: &Window,
    screen: &Rect,
    steps: &mut Steps<L>,
) -> Result<Region, OutOfMemory>
    requires ranged { WindowInRange window.now }
    requires screen { IsInRange screen.now }
    ensures region { IfOk result (λ region. (x y : ℤ) → inside region x y ≡ (inside area x y || (has_pixel screen.now x y && (names cause.now window.now && has_place window.now x y)))) }
    ensures steps { steps.new ≤ steps.old + (if names cause.now window.now && window.now.mapped then 2 else 0) }
{
    if !cause.names(window) {
        return Ok(area);
    }
    if !window.mapped {
        return Ok(area);
    }
    let rect = Region::of_rect(alloc, &shared(screen, &rect_of(window)), steps)?;
    area.unite(alloc, &rect, steps)
}

/// Adds the rectangles of the named windows of a stack that are mapped.
fn add_named<L: Ledger>(
    alloc: Global,
    area: Region,
    cause: &Cause,
    stack: &Stack,
    screen: &Rect,
    steps: &mut Steps<L>,
) -> Result<Region, OutOfMemory>
    requires ranged { All WindowInRange stack.now }
    requires screen { IsInRange screen.now }
    ensures region { IfOk result (λ region. (x y : ℤ) → inside region x y ≡ (inside area x y || (has_pixel screen.now x y && has_named (names cause.now) stack.now x y))) }
    ensures steps { steps.new ≤ steps.old + 2 * length (named_in (names cause.now) stack.now) }
{
    let mut area = area;
    for at in 0..stack.len() {
        area = add_window(alloc, area, cause, &stack.window(at), screen, steps)?;
    }
    Ok(area)
}

/// The area of a new stack on a screen.
pub fn area_of<L: Ledger>(
    alloc: Global,
    cause: &Cause,
    old: &Stack,
    new: &Stack,
    screen: &Rect,
    steps: &mut Steps<L>,
) -> Result<Region, OutOfMemory>
    requires old { All WindowInRange old.now }
    requires new { All WindowInRange new.now }
    requires screen { IsInRange screen.now }
    ensures region { IfOk result (λ region. (x y : ℤ) → inside region x y ≡ (has_pixel screen.now x y && (has_named (names cause.now) old.now x y || has_named (names cause.now) new.now x y))) }
    ensures steps { steps.new ≤ steps.old + 2 * (length (named_in (names cause.now) old.now) + length (named_in (names cause.now) new.now)) }
{
    let area = add_named(
        alloc,
        Region::empty(alloc, steps),
        cause,
        old,
        screen,
        steps,
    )?;
    add_named(alloc, area, cause, new, screen, steps)
}
