//! Where the pixels of the three planes wait while they are carried.

ghost use Rattle.std.specs.Prelude.{◌≡◌, ◌+◌, ◌*◌, ℕ, All, IfOk};
ghost use Rattle.dri_base.specs.declared.colour.Pixel.{Pixel};
ghost use Rattle.dri_base.specs.declared.colour.Rgb.{Rgb};
ghost use Rattle.dri_base.specs.Planes.{plane};
ghost use Rattle.dri_plane.specs.Formats.{shown_by};
ghost use Rattle.dri_plane.specs.Grids.{Becomes, IsInside};
ghost use Rattle.dri_plane.specs.Moves.{StaysInside, cuts, laid, pixel_counts};
ghost use Rattle.dri_card.specs.Contents.{HoldPairs};
ghost use Rattle.dri_card.specs.Drawing.{carried_by};
ghost use Rattle.dri_card.specs.Lifting.{HaveLifted, HaveRoom};

use crate::target::Target;
use dri_base::{ClipRect, OutOfMemory, Steps};
use dri_plane::{ColourFormat, Lifted, Plane};
use std::alloc::Global;
use std::sync::ledger::Ledger;

/// A list for each plane.
#[derive(Drop)]
pub struct Lifts<T> {
    pub front: Lifted<T>,
    pub back: Lifted<T>,
    pub depth: Lifted<u16>,
}

impl<T: Copy> Lifts<T> {
    /// Three lists with room for so many pixels each. They take their memory at once.
    pub fn new(alloc: Global, room: u32) -> Result<Lifts<T>, OutOfMemory>
        ensures { IfOk result (HaveRoom room) }
    {
        let front = Lifted::new(alloc, room)?;
        let back = Lifted::new(alloc, room)?;
        let depth = Lifted::new(alloc, room)?;
        Ok(Lifts { front, back, depth })
    }

    // Reads the pixels of some rectangles out of the three planes. It takes three steps a pixel, one for each plane.
    fn read_out<F: ColourFormat<Kept = T>, L: Ledger>(
        &mut self,
        rects: &[ClipRect],
        front: &Plane<T>,
        target: &Target<F>,
        steps: &mut Steps<L>,
    )
        requires width { target.now.back.width ≡ front.now.width }
        requires height { target.now.back.height ≡ front.now.height }
        requires inside { All (λ r. IsInside r front.now.width front.now.height) rects.now }
        requires room { HaveRoom (pixel_counts rects.now) self.old }
        ensures front { (f : ℕ → ℕ → T) → front.now.pixels ≡ plane front.now.width front.now.height f → self.new.front.pixels ≡ cuts f rects.now }
        ensures back { (f : ℕ → ℕ → T) → target.now.back.pixels ≡ plane target.now.back.width target.now.back.height f → self.new.back.pixels ≡ cuts f rects.now }
        ensures depth { (f : ℕ → ℕ → ℕ) → target.now.depth.pixels ≡ plane target.now.depth.width target.now.depth.height f → self.new.depth.pixels ≡ cuts f rects.now }
        ensures number { HaveLifted (pixel_counts rects.now) self.new }
        ensures room { (room : ℕ) → HaveRoom room self.old → HaveRoom room self.new }
        ensures cost { steps.new ≡ steps.old + 3 * pixel_counts rects.now }
    {
        front.read_out(rects, &mut self.front, steps);
        target.back.read_out(rects, &mut self.back, steps);
        target.depth.read_out(rects, &mut self.depth, steps);
    }

    // Writes the pixels of some rectangles, moved by (dx, dy), into the three planes. It takes three steps a pixel, one
    // for each plane.
    fn write_in<F: ColourFormat<Kept = T>, L: Ledger>(
        &self,
        rects: &[ClipRect],
        dx: i32,
        dy: i32,
        front: &mut Plane<T>,
        target: &mut Target<F>,
        steps: &mut Steps<L>,
    )
        requires width { target.old.back.width ≡ front.old.width }
        requires height { target.old.back.height ≡ front.old.height }
        requires stay { All (StaysInside dx dy front.old.width front.old.height) rects.now }
        requires number { HaveLifted (pixel_counts rects.now) self.now }
        ensures front { (front.new.width ≡ front.old.width) × (front.new.height ≡ front.old.height) }
        ensures target { (target.new.back.width ≡ target.old.back.width) × (target.new.back.height ≡ target.old.back.height) }
        ensures front_laid { (f : ℕ → ℕ → T) → self.now.front.pixels ≡ cuts f rects.now → Becomes front.old front.new (laid rects.now dx dy f) }
        ensures back_laid { (f : ℕ → ℕ → T) → self.now.back.pixels ≡ cuts f rects.now → Becomes target.old.back target.new.back (laid rects.now dx dy f) }
        ensures depth_laid { (f : ℕ → ℕ → ℕ) → self.now.depth.pixels ≡ cuts f rects.now → Becomes target.old.depth target.new.depth (laid rects.now dx dy f) }
        ensures cost { steps.new ≡ steps.old + 3 * pixel_counts rects.now }
    {
        front.write_in(rects, dx, dy, &self.front, steps);
        target.back.write_in(rects, dx, dy, &self.back, steps);
        target.depth.write_in(rects, dx, dy, &self.depth, steps);
    }

    /// Carries the pixels of some rectangles by (dx, dy) in the three planes: all are read before any is written. The lists
    /// keep their room. It takes six steps a pixel.
    pub fn carry<F: ColourFormat<Kept = T>, L: Ledger>(
        &mut self,
        rects: &[ClipRect],
        dx: i32,
        dy: i32,
        front: &mut Plane<T>,
        target: &mut Target<F>,
        steps: &mut Steps<L>,
    )
        requires width { target.old.back.width ≡ front.old.width }
        requires height { target.old.back.height ≡ front.old.height }
        requires stay { All (StaysInside dx dy front.old.width front.old.height) rects.now }
        requires room { HaveRoom (pixel_counts rects.now) self.old }
        ensures front { (front.new.width ≡ front.old.width) × (front.new.height ≡ front.old.height) }
        ensures target { (target.new.back.width ≡ target.old.back.width) × (target.new.back.height ≡ target.old.back.height) }
        ensures shown { (shown : ℕ → ℕ → Rgb) → F.all_shown front.old.pixels ≡ plane front.old.width front.old.height shown → F.all_shown front.new.pixels ≡ plane front.new.width front.new.height (carried_by rects.now dx dy shown) }
        ensures held { (f : ℕ → ℕ → Pixel) → HoldPairs (shown_by F.all_shown target.old.back) target.old.depth f → HoldPairs (shown_by F.all_shown target.new.back) target.new.depth (carried_by rects.now dx dy f) }
        ensures room { (room : ℕ) → HaveRoom room self.old → HaveRoom room self.new }
        ensures cost { steps.new ≡ steps.old + 6 * pixel_counts rects.now }
    {
        self.read_out(rects, front, target, steps);
        self.write_in(rects, dx, dy, front, target, steps);
    }
}
