ghost use Rattle.std.specs.Prelude.{◌≡◌, true, [], ◌≤ℤ◌, ◌-ℤ◌, ℤ, ◌&&◌, ◌||◌, not, IfOk, ◌+◌, length, ◌<◌, slice_get, Some};
ghost use Rattle.std.specs.List.{AllByRecursion, All, AllPairs};
ghost use Rattle.dri_rect.specs.Pixels.{has_pixel, inside, SamePixels, IsInRange, IsProper, ComesBefore, IsApart, StaysInRange, shift, moved};
ghost use Rattle.dri_rect.specs.Walk.{Movable, answer, IsRegion};
ghost use Rattle.dri_rect.specs.Extents.{Includes, FitsIfProper, Holds};

use crate::bands::combine;
use crate::extents::{hull, is_nowhere, reaches_round, shared};
use crate::operation::Operation;
use dri_base::{OutOfMemory, Rect, Steps};
use std::alloc::Global;
use std::marker::Model;
use std::slice;
use std::sync::ledger::Ledger;

/// A rectangle without a pixel.
const NOWHERE: Rect = Rect {
    x1: 0,
    y1: 0,
    x2: 0,
    y2: 0,
};

/// A set of pixels with coordinates from -4,096 to 4,096. Contracts see it as its rectangles, of which there is one list
/// for each set. A set of one rectangle is kept as its bounds alone, and takes no memory.
#[derive(Drop)]
pub struct Region {
    bounds: Rect,
    rects: Vec<Rect>,
}

impl Model for Region {
    ghost use Rattle.std.specs.Prelude.{List};
    ghost use Rattle.dri_base.specs.declared.shape.Rect.{Rect};

    ghost Value = { List Rect };

    ghost use Rattle.dri_rect.specs.Extents.{listed, IsKept};

    ghost view = { λ it. listed it.bounds it.rects.items };

    ghost invariant = { λ it. IsKept it.bounds it.rects.items };
}

/// Whether the rectangle has the pixel.
fn is_within(rect: &Rect, x: i32, y: i32) -> bool
    ensures { result ≡ has_pixel rect.now x y }
{
    if rect.y1 > y || y >= rect.y2 {
        return false;
    }
    rect.x1 <= x && x < rect.x2
}

/// Whether one of the rectangles has the pixel.
fn is_inside(rects: &[Rect], x: i32, y: i32) -> bool
    ensures { result ≡ inside rects.now x y }
{
    let mut rest = rects;
    while let Some((first, others)) = rest.split_first() {
        if is_within(first, x, y) {
            return true;
        }
        rest = others;
    }
    false
}

/// The rectangle, moved.
fn move_one(rect: &Rect, dx: i32, dy: i32) -> Rect
    requires { Movable dx dy rect.now }
    ensures { result ≡ shift dx dy rect.now }
{
    Rect {
        x1: rect.x1 + dx,
        y1: rect.y1 + dy,
        x2: rect.x2 + dx,
        y2: rect.y2 + dy,
    }
}

/// The rectangles, moved.
fn move_all(alloc: Global, rects: &[Rect], dx: i32, dy: i32) -> Result<Vec<Rect>, OutOfMemory>
    requires { AllByRecursion (Movable dx dy) rects.now }
    ensures { IfOk result (λ out. out.items ≡ moved dx dy rects.now) }
{
    let mut out = Vec::with_capacity(alloc, rects.len())?;
    for rect in rects {
        out.push(move_one(rect, dx, dy))?;
    }
    Ok(out)
}

/// A rectangle round some rectangles, of which there is one.
fn bounds_of(rects: &[Rect]) -> Rect
    requires { 0 < length rects.now }
    ensures { Holds result rects.now }
{
    let mut bounds = rects[0];
    for rect in rects {
        bounds = hull(&bounds, rect);
    }
    bounds
}

impl Region {
    /// The set of no pixel. It takes no memory, and makes no step.
    pub fn empty<L: Ledger>(alloc: Global, steps: &mut Steps<L>) -> Region
        ensures region { result ≡ [] }
        ensures steps { steps.new ≡ steps.old }
    {
        Region::nothing(alloc)
    }

    /// The set of no pixel.
    fn nothing(alloc: Global) -> Region
        ensures { result ≡ [] }
    {
        Region {
            bounds: NOWHERE,
            rects: Vec::new(alloc),
        }
    }

    /// The pixels of a rectangle.
    fn alone(alloc: Global, rect: Rect) -> Region
        requires { FitsIfProper rect }
        ensures { (x y : ℤ) → inside result x y ≡ has_pixel rect x y }
    {
        if rect.x2 <= rect.x1 {
            return Region::nothing(alloc);
        }
        if rect.y2 <= rect.y1 {
            return Region::nothing(alloc);
        }
        Region {
            bounds: rect,
            rects: Vec::new(alloc),
        }
    }

    /// The set of a region's list, whose pixels the rectangle holds.
    fn of_list(alloc: Global, bounds: Rect, rects: Vec<Rect>) -> Region
        requires region { IsRegion rects.items }
        requires holds { Holds bounds rects.items }
        ensures { result ≡ rects.items }
    {
        if rects.len() == 0 {
            return Region::nothing(alloc);
        }
        if rects.len() == 1 {
            return Region {
                bounds: rects[0],
                rects: Vec::new(alloc),
            };
        }
        Region { bounds, rects }
    }

    /// The list of its rectangles.
    fn list(&self) -> &[Rect]
        ensures list { result.now ≡ self.now }
        ensures region { IsRegion result.now }
    {
        if self.rects.len() == 0 {
            if self.bounds.x1 < self.bounds.x2 {
                return slice::from_ref(&self.bounds);
            }
        }
        self.rects.as_slice()
    }

    /// Whether it is seen without a walk that this set has each pixel of the other: the other is empty, or this is one
    /// rectangle, round the other's bounds.
    fn includes(&self, other: &Region) -> bool
        ensures { result ≡ true → Includes self.now other.now }
    {
        if self.rects.len() == 0 && reaches_round(&self.bounds, &other.bounds) {
            return true;
        }
        other.rects.len() == 0 && is_nowhere(&other.bounds)
    }

    /// The pixels of a rectangle, whose numbers are in range, in one step. A rectangle without a pixel gives the empty set.
    pub fn of_rect<L: Ledger>(
        alloc: Global,
        rect: &Rect,
        steps: &mut Steps<L>,
    ) -> Result<Region, OutOfMemory>
        requires { IsInRange rect.now }
        ensures region { IfOk result (λ region. (x y : ℤ) → inside region x y ≡ has_pixel rect.now x y) }
        ensures steps { steps.new ≡ steps.old + 1 }
    {
        steps.tick();
        Ok(Region::alone(alloc, *rect))
    }

    /// The same set.
    fn duplicate(&self, alloc: Global) -> Result<Region, OutOfMemory>
        ensures { IfOk result (λ region. region ≡ self.now) }
    {
        Ok(Region {
            bounds: self.bounds,
            rects: Vec::from_slice(alloc, self.rects.as_slice())?,
        })
    }

    /// The same set, in one step.
    pub fn copy<L: Ledger>(
        &self,
        alloc: Global,
        steps: &mut Steps<L>,
    ) -> Result<Region, OutOfMemory>
        ensures region { IfOk result (λ region. region ≡ self.now) }
        ensures steps { steps.new ≡ steps.old + 1 }
    {
        steps.tick();
        self.duplicate(alloc)
    }

    /// The pixels that the operation takes of the two sets, all of which the rectangle holds, by a walk.
    fn combined(
        &self,
        alloc: Global,
        operation: Operation,
        other: &Region,
        bounds: Rect,
    ) -> Result<Region, OutOfMemory>
        requires { (x y : ℤ) → answer operation (inside self.now x y) (inside other.now x y) ≡ true → has_pixel bounds x y ≡ true }
        ensures { IfOk result (λ region. (x y : ℤ) → inside region x y ≡ answer operation (inside self.now x y) (inside other.now x y)) }
    {
        let rects = combine(alloc, operation, self.list(), other.list())?;
        Ok(Region::of_list(alloc, bounds, rects))
    }

    /// The pixels of either set, in one step.
    pub fn unite<L: Ledger>(
        &self,
        alloc: Global,
        other: &Region,
        steps: &mut Steps<L>,
    ) -> Result<Region, OutOfMemory>
        ensures region { IfOk result (λ region. (x y : ℤ) → inside region x y ≡ (inside self.now x y || inside other.now x y)) }
        ensures steps { steps.new ≡ steps.old + 1 }
    {
        steps.tick();
        if self.includes(other) {
            return self.duplicate(alloc);
        }
        if other.includes(self) {
            return other.duplicate(alloc);
        }
        let bounds = hull(&self.bounds, &other.bounds);
        self.combined(alloc, Operation::Unite, other, bounds)
    }

    /// The pixels of this set that aren't in the other, in one step.
    pub fn subtract<L: Ledger>(
        &self,
        alloc: Global,
        other: &Region,
        steps: &mut Steps<L>,
    ) -> Result<Region, OutOfMemory>
        ensures region { IfOk result (λ region. (x y : ℤ) → inside region x y ≡ (inside self.now x y && not (inside other.now x y))) }
        ensures steps { steps.new ≡ steps.old + 1 }
    {
        steps.tick();
        if is_nowhere(&shared(&self.bounds, &other.bounds)) {
            return self.duplicate(alloc);
        }
        if other.includes(self) {
            return Ok(Region::nothing(alloc));
        }
        self.combined(alloc, Operation::Subtract, other, self.bounds)
    }

    /// The pixels of both sets, in one step.
    pub fn intersect<L: Ledger>(
        &self,
        alloc: Global,
        other: &Region,
        steps: &mut Steps<L>,
    ) -> Result<Region, OutOfMemory>
        ensures region { IfOk result (λ region. (x y : ℤ) → inside region x y ≡ (inside self.now x y && inside other.now x y)) }
        ensures steps { steps.new ≡ steps.old + 1 }
    {
        steps.tick();
        let bounds = shared(&self.bounds, &other.bounds);
        if is_nowhere(&bounds) {
            return Ok(Region::nothing(alloc));
        }
        if self.rects.len() == 0 && other.rects.len() == 0 {
            return Ok(Region::alone(alloc, bounds));
        }
        if self.includes(other) {
            return other.duplicate(alloc);
        }
        if other.includes(self) {
            return self.duplicate(alloc);
        }
        self.combined(alloc, Operation::Intersect, other, bounds)
    }

    /// The set, moved by dx to the right and dy down, in one step. Each moved pixel has to be one that a region may have.
    pub fn translate<L: Ledger>(
        &self,
        alloc: Global,
        dx: i32,
        dy: i32,
        steps: &mut Steps<L>,
    ) -> Result<Region, OutOfMemory>
        requires { StaysInRange dx dy self.now }
        ensures rects { IfOk result (λ region. region ≡ moved dx dy self.now) }
        ensures pixels { IfOk result (λ region. (x y : ℤ) → inside region x y ≡ inside self.now (x -ℤ dx) (y -ℤ dy)) }
        ensures steps { steps.new ≡ steps.old + 1 }
    {
        steps.tick();
        let rects = move_all(alloc, self.list(), dx, dy)?;
        if rects.len() == 0 {
            return Ok(Region::nothing(alloc));
        }
        let bounds = bounds_of(rects.as_slice());
        Ok(Region::of_list(alloc, bounds, rects))
    }

    /// Whether the pixel is in the set.
    pub fn contains(&self, x: i32, y: i32) -> bool
        ensures { result ≡ inside self.now x y }
    {
        is_inside(self.list(), x, y)
    }

    /// How many rectangles there are.
    pub fn len(&self) -> usize
        ensures { result ≡ length self.now }
    {
        self.list().len()
    }

    /// The rectangle at a place below the length, counted from 0. Rectangles come by y1, then by x1.
    pub fn rect(&self, i: usize) -> Rect
        requires { i < length self.now }
        ensures { slice_get self.now i ≡ Some result }
    {
        self.list()[i]
    }

    /// Equal sets are equal lists. It does nothing: its contract is the law.
    pub fn canonical(&self, other: &Region)
        ensures { SamePixels self.now other.now → self.now ≡ other.now }
    {
        let _first = &self.rects;
        let _second = &other.rects;
    }

    /// How the rectangles stand: by y1, then by x1; none is empty, no two share a pixel, and all are in range. It does
    /// nothing: its contract is the law.
    pub fn arranged(&self)
        ensures order { AllPairs ComesBefore self.now }
        ensures proper { AllByRecursion IsProper self.now }
        ensures apart { AllPairs IsApart self.now }
        ensures range { AllByRecursion IsInRange self.now }
    {
        let _rects = &self.rects;
    }
}
