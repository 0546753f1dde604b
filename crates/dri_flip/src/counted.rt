//! A card that flips, with counts of its flips and of the copies that were owed and made.

ghost use Rattle.std.specs.Prelude.{◌≡◌, ◌≤◌, ◌<◌, ◌+◌, ◌&&◌, ℕ, not, if◌then◌else◌, false, option_copied, All, AllPairs, IfOk};
ghost use Rattle.dri_base.specs.Fragments.{rules_of};
ghost use Rattle.dri_base.specs.Limits.{word_end};
ghost use Rattle.dri_base.specs.Ranges.{InRange, IsPlace, TriangleInRange};
ghost use Rattle.dri_base.specs.Texels.{given_image};
ghost use Rattle.dri_base.specs.declared.colour.Pixel.{Pixel};
ghost use Rattle.dri_base.specs.declared.colour.Rgb.{Rgb};
ghost use Rattle.dri_flip.specs.Calls.{IsImage, OnlyDrawn, OnlyShown, cleared_in, drawn_in, fill, swapped_in, touch};
ghost use Rattle.dri_flip.specs.Follows.{IsScreen, counted, has_change};
ghost use Rattle.dri_flip.specs.Meanings.{Holds, IsOnCard, IsOpening, KeepSides, Shows};
ghost use Rattle.dri_flip.specs.Owings.{flipped_where, nothing_owed, paid_where};
ghost use Rattle.dri_clips.specs.Paints.{filled};
ghost use Rattle.dri_base.specs.Rectangles.{AreApart};
ghost use Rattle.dri_replay.specs.Makings.{CanShow, carried_along};

use crate::card::FlipCard;
use crate::showing::{carry_along, paint};
use crate::swapped::Swapped;
use dri_base::{ClipRect, OutOfMemory, Point, Rgb, Scene, State, Steps, Texture, Triangle};
use dri_clips::Touched;
use std::alloc::Global;
use std::sync::ledger::Ledger;

/// A card that flips, how many flips it made, and how many copies that were owed.
#[derive(Drop)]
pub struct CountedCard {
    pub card: FlipCard,
    pub flips: u32,
    pub copies: u32,
}

impl CountedCard {
    /// The card of a scene's opening. Nothing was counted.
    pub fn opening(alloc: Global, scene: &Scene) -> Result<CountedCard, OutOfMemory>
        requires { InRange scene.now }
        ensures card { IfOk result (λ counted. IsOpening scene.now counted.card) }
        ensures owes { IfOk result (λ card. counted card ≡ nothing_owed) }
    {
        let card = FlipCard::opening(alloc, scene)?;
        Ok(CountedCard {
            card,
            flips: 0,
            copies: 0,
        })
    }

    // Counts a copy where one was found to be owed and isn't any more.
    fn count_copy(&mut self, found: bool)
        requires { self.old.copies + 1 < word_end }
        ensures { self.new ≡ record self.old { copies = if found && not self.old.card.owed then self.old.copies + 1 else self.old.copies } }
    {
        if found && !self.card.owed() {
            self.copies += 1;
        }
    }

    // Counts a flip, and with it a copy where one was found to be owed.
    fn count_flip(&mut self, found: bool)
        requires few_flips { self.old.flips + 1 < word_end }
        requires few { self.old.copies + 1 < word_end }
        ensures { self.new ≡ record self.old { flips = self.old.flips + 1; copies = if found then self.old.copies + 1 else self.old.copies } }
    {
        self.flips += 1;
        if found {
            self.copies += 1;
        }
    }

    /// Clears some rectangles, as the card does. A copy is counted where one was owed, unless they fill the card.
    pub fn clear<L: Ledger>(
        &mut self,
        rects: &[ClipRect],
        colour: Rgb,
        depth: u16,
        steps: &mut Steps<L>,
    )
        requires inside { All (IsOnCard self.old.card) rects.now }
        requires apart { AllPairs AreApart rects.now }
        requires few { self.old.copies + 1 < word_end }
        ensures held { (f : ℕ → ℕ → Pixel) → Holds self.old.card f → Holds self.new.card (cleared_in rects.now colour depth f) }
        ensures others { OnlyDrawn self.old.card self.new.card }
        ensures sides { KeepSides self.old.card self.new.card }
        ensures owes { counted self.new ≡ paid_where (touch self.old.card rects.now) (fill self.old.card rects.now) (counted self.old) }
    {
        let owed = self.card.owed();
        let whole = self.card.covered_by(rects);
        self.card.clear(rects, colour, depth, steps);
        self.count_copy(is_wanted(owed, whole));
    }

    /// Draws a triangle in some rectangles, as the card does. A copy is counted where one was owed and they have a pixel.
    pub fn draw<L: Ledger>(
        &mut self,
        rects: &[ClipRect],
        origin: Point,
        triangle: &Triangle,
        state: &State,
        image: Option<&Texture>,
        steps: &mut Steps<L>,
    )
        requires inside { All (IsOnCard self.old.card) rects.now }
        requires apart { AllPairs AreApart rects.now }
        requires x { IsPlace origin.x }
        requires y { IsPlace origin.y }
        requires triangle { TriangleInRange triangle.now }
        requires image { IsImage (option_copied image) }
        requires few { self.old.copies + 1 < word_end }
        ensures held { (f : ℕ → ℕ → Pixel) → Holds self.old.card f → Holds self.new.card (drawn_in rects.now origin (rules_of state.now) (given_image (option_copied image.entry)) triangle.now f) }
        ensures others { OnlyDrawn self.old.card self.new.card }
        ensures sides { KeepSides self.old.card self.new.card }
        ensures owes { counted self.new ≡ paid_where (touch self.old.card rects.now) false (counted self.old) }
    {
        let found = self.card.owed();
        self.card.draw(rects, origin, triangle, state, image, steps);
        self.count_copy(found);
    }

    /// Shows back in some rectangles, as the card does. A copy is counted where one was owed and they have a pixel, and a flip
    /// where they fill the card.
    pub fn swap<L: Ledger>(&mut self, rects: &[ClipRect], steps: &mut Steps<L>)
        requires inside { All (IsOnCard self.old.card) rects.now }
        requires apart { AllPairs AreApart rects.now }
        requires wide { 1 ≤ self.old.card.front.width }
        requires high { 1 ≤ self.old.card.front.height }
        requires few_flips { self.old.flips + 1 < word_end }
        requires few { self.old.copies + 1 < word_end }
        ensures shown { (f : ℕ → ℕ → Pixel) (shown : ℕ → ℕ → Rgb) → Holds self.old.card f → Shows self.old.card shown → Shows self.new.card (swapped_in rects.now f shown) }
        ensures others { OnlyShown self.old.card self.new.card }
        ensures sides { KeepSides self.old.card self.new.card }
        ensures owes { counted self.new ≡ flipped_where (fill self.old.card rects.now) (paid_where (touch self.old.card rects.now) false (counted self.old)) }
    {
        let found = self.card.owed();
        match self.card.swap(rects, steps) {
            Swapped::Flipped => self.count_flip(found),
            Swapped::Copied => self.count_copy(found),
        }
    }

    /// Takes along what is carried, and then makes the paints. A copy is counted where one was owed and there is something of
    /// either.
    pub fn show<L: Ledger>(&mut self, touched: &Touched, steps: &mut Steps<L>)
        requires sides { IsScreen self.old.card }
        requires can { CanShow self.old.card.front.width self.old.card.front.height touched.now }
        requires few { self.old.copies + 1 < word_end }
        ensures shown { (shown : ℕ → ℕ → Rgb) → Shows self.old.card shown → Shows self.new.card (filled touched.now.paints (carried_along touched.now.carry shown)) }
        ensures held { (f : ℕ → ℕ → Pixel) → Holds self.old.card f → Holds self.new.card (carried_along touched.now.carry f) }
        ensures sides { KeepSides self.old.card self.new.card }
        ensures owes { counted self.new ≡ paid_where (has_change touched.now) false (counted self.old) }
    {
        let found = self.card.owed();
        carry_along(&mut self.card, touched, steps);
        paint(&mut self.card, touched.paints.as_slice(), steps);
        self.count_copy(found);
    }
}

// Whether a copy that is owed is wanted before a clear, which may be of the whole card.
fn is_wanted(owed: bool, whole: bool) -> bool
    ensures { result ≡ (owed && not whole) }
{
    owed && !whole
}
