//! The card keeps two planes of colours, the depth of each pixel, and lists in which pixels wait while they are carried. A swap
//! of the whole screen exchanges the two planes. What stood in front then is in the back plane, but contracts see in back what
//! they see in front: the copy is owed. Whatever touches a pixel makes that copy first, but for a clear of the whole screen,
//! which needs none.

ghost use Rattle.std.specs.Prelude.{◌≡◌, ◌≤◌, ◌+◌, ◌*◌, ◌&&◌, ◌||◌, ℕ, not, false, true, if◌then◌else◌, option_copied, All, AllPairs, ◌∷◌, [], IfOk, length};
ghost use Rattle.std.specs.List.{sum_by};
ghost use Rattle.dri_base.specs.declared.colour.Pixel.{Pixel};
ghost use Rattle.dri_base.specs.declared.colour.Rgb.{Rgb};
ghost use Rattle.dri_base.specs.Fragments.{rules_of};
ghost use Rattle.dri_base.specs.Planes.{plane};
ghost use Rattle.dri_base.specs.Ranges.{InRange, IsPlace, IsSide, TriangleInRange};
ghost use Rattle.dri_base.specs.Texels.{given_image};
ghost use Rattle.dri_card.specs.Drawing.{carried_by, painted};
ghost use Rattle.dri_card.specs.Openings.{ShowsStack};
ghost use Rattle.dri_plane.specs.Grids.{pixel_count};
ghost use Rattle.dri_base.specs.Rectangles.{AreApart};
ghost use Rattle.dri_plane.specs.Moves.{StaysInside, pixel_counts};
ghost use Rattle.dri_walk.specs.Clips.{covered_places};
ghost use Rattle.dri_flip.specs.Calls.{IsImage, OnlyDrawn, OnlyShown, cleared_in, copy_steps, drawn_in, fill, owed_after, swapped_in, touch};
ghost use Rattle.dri_flip.specs.Meanings.{HaveSides, Holds, IsFresh, IsOnCard, IsOpening, KeepSides, Shows};
ghost use Rattle.dri_flip.specs.declared.swapped.Swapped.TheVariants.{Copied, Flipped};

use crate::regions::{clear_all, copy_all, draw_all};
use crate::registers::registers_of;
use crate::swapped::Swapped;
use dri_base::{ClipRect, OutOfMemory, Point, Rgb, Scene, State, Steps, Texture, Triangle};
use dri_card::{Lifts, Target, opening_front};
use dri_meaning::bytes_of;
use dri_plane::{Plane, total};
use std::alloc::Global;
use std::marker::{Brand, Model};
use std::sync::ledger::{Blank, Ledger};

/// A card that flips. Contracts see front, back and depth, with a pixel for each place of the screen, and whether back owes a
/// copy of front. While it does, back is front: contracts see no difference to a card that copies.
#[derive(Drop)]
pub struct FlipCard {
    front: Plane<Rgb>,
    target: Target<Rgb>,
    owed: bool,
    lifts: Lifts<Rgb>,
}

impl Model for FlipCard {
    ghost use Rattle.dri_flip.specs.Meanings.{Meaning};
    ghost use Rattle.dri_flip.specs.Invariants.{IsFlipCard, meaning};

    ghost Value = { Meaning };

    ghost view = { meaning };

    ghost invariant = { IsFlipCard };
}

impl FlipCard {
    /// A card of this colour in front; back is black, depth is 65,535, and nothing is owed. The sides are 1 to 1,024. All memory
    /// that the card needs is taken here.
    pub fn new(alloc: Global, width: u32, height: u32, colour: Rgb) -> Result<FlipCard, OutOfMemory>
        requires wide { IsSide width }
        requires high { IsSide height }
        ensures { IfOk result (IsFresh width height (λ x y. colour)) }
    {
        let front = Plane::new(alloc, width, height, colour)?;
        FlipCard::behind(alloc, front)
    }

    /// The card of a scene before anything is drawn: in front each pixel has the background of its topmost mapped window, or the
    /// root colour; back is black, depth is 65,535, and nothing is owed. The scene is in range.
    pub fn opening(alloc: Global, scene: &Scene) -> Result<FlipCard, OutOfMemory>
        requires { InRange scene.now }
        ensures { IfOk result (IsOpening scene.now) }
    {
        let front = counted_front::<Brand>(alloc, scene, Blank::new(1))?;
        FlipCard::behind(alloc, front)
    }

    // The card with this front and nothing drawn.
    fn behind(alloc: Global, front: Plane<Rgb>) -> Result<FlipCard, OutOfMemory>
        ensures { IfOk result (λ card. (shown : ℕ → ℕ → Rgb) → front.pixels ≡ plane front.width front.height shown → IsFresh front.width front.height shown card) }
    {
        let (width, height) = (front.width(), front.height());
        let target = Target::new(alloc, width, height)?;
        let lifts = Lifts::new(alloc, width * height)?;
        Ok(FlipCard {
            front,
            target,
            owed: false,
            lifts,
        })
    }

    /// Writes a colour and a depth into each pixel of some rectangles of back and depth. Nothing else changes. The rectangles lie
    /// on the card, and no two share a pixel. Where they have a pixel nothing is owed afterwards. It takes two steps a pixel, and
    /// where they don't fill the card the copy that is owed is made first: two steps for each pixel of the card.
    pub fn clear<L: Ledger>(
        &mut self,
        rects: &[ClipRect],
        colour: Rgb,
        depth: u16,
        steps: &mut Steps<L>,
    )
        requires inside { All (IsOnCard self.old) rects.now }
        requires apart { AllPairs AreApart rects.now }
        ensures held { (f : ℕ → ℕ → Pixel) → Holds self.old f → Holds self.new (cleared_in rects.now colour depth f) }
        ensures others { OnlyDrawn self.old self.new }
        ensures sides { KeepSides self.old self.new }
        ensures owed { self.new.owed ≡ owed_after self.old (touch self.old rects.now) }
        ensures cost { steps.new ≡ steps.old + copy_steps self.old (touch self.old rects.now && not (fill self.old rects.now)) + 2 * pixel_counts rects.now }
    {
        if self.covered_by(rects) {
            self.clear_whole(rects, colour, depth, steps);
        } else if self.touched_by(rects) {
            self.pay(steps);
            clear_all(&mut self.target, rects, colour, depth, steps);
        }
    }

    // Clears rectangles that have each place of the card: nothing is left of what is owed, so it isn't copied.
    fn clear_whole<L: Ledger>(
        &mut self,
        rects: &[ClipRect],
        colour: Rgb,
        depth: u16,
        steps: &mut Steps<L>,
    )
        requires inside { All (IsOnCard self.old) rects.now }
        requires whole { fill self.old rects.now ≡ true }
        ensures held { (f : ℕ → ℕ → Pixel) → Holds self.old f → Holds self.new (cleared_in rects.now colour depth f) }
        ensures others { OnlyDrawn self.old self.new }
        ensures sides { KeepSides self.old self.new }
        ensures owed { self.new.owed ≡ false }
        ensures cost { steps.new ≡ steps.old + 2 * pixel_counts rects.now }
    {
        own_pixels(&self.target.back);
        own_pixels(&self.target.depth);
        self.owed = false;
        clear_all(&mut self.target, rects, colour, depth, steps);
    }

    /// Draws a triangle once at each pixel of some rectangles, in back and depth, by the pixel rule of the state and the image. The
    /// window's pixel is the screen's less the origin, the window's upper left corner, whose coordinates are -1,024 to 1,024.
    /// Nothing else changes. The rectangles lie on the card, and no two share a pixel; the triangle's corners are in range; an image
    /// has sides 1 to 256 and the bytes of its shape. Where the rectangles have a pixel nothing is owed afterwards: the copy that
    /// is owed is made first, by two steps for each pixel of the card. It then takes at most four steps for each place whose pixel
    /// the triangle covers.
    pub fn draw<L: Ledger>(
        &mut self,
        rects: &[ClipRect],
        origin: Point,
        triangle: &Triangle,
        state: &State,
        image: Option<&Texture>,
        steps: &mut Steps<L>,
    )
        requires inside { All (IsOnCard self.old) rects.now }
        requires apart { AllPairs AreApart rects.now }
        requires x { IsPlace origin.x }
        requires y { IsPlace origin.y }
        requires triangle { TriangleInRange triangle.now }
        requires image { IsImage (option_copied image) }
        ensures held { (f : ℕ → ℕ → Pixel) → Holds self.old f → Holds self.new (drawn_in rects.now origin (rules_of state.now) (given_image (option_copied image.entry)) triangle.now f) }
        ensures others { OnlyDrawn self.old self.new }
        ensures sides { KeepSides self.old self.new }
        ensures owed { self.new.owed ≡ owed_after self.old (touch self.old rects.now) }
        ensures cost { steps.new ≤ steps.old + copy_steps self.old (touch self.old rects.now) + 4 * sum_by (λ r. covered_places triangle.now r origin) rects.now }
    {
        if self.touched_by(rects) {
            let registers = registers_of(state, image);
            self.pay(steps);
            draw_all(
                &mut self.target,
                &registers,
                bytes_of(image),
                rects,
                origin,
                triangle,
                steps,
            );
        }
    }

    /// Carries the pixels of some rectangles by (dx, dy) in front, back and depth. In each plane every pixel of them is read before
    /// any is written. The rectangles lie on the card, and so they do once they are moved; no two share a pixel. Where they have a
    /// pixel nothing is owed afterwards: the copy that is owed is made first, by two steps for each pixel of the card. It then
    /// takes six steps a pixel.
    pub fn carry<L: Ledger>(&mut self, rects: &[ClipRect], dx: i32, dy: i32, steps: &mut Steps<L>)
        requires stay { All (StaysInside dx dy self.old.front.width self.old.front.height) rects.now }
        requires apart { AllPairs AreApart rects.now }
        ensures shown { (shown : ℕ → ℕ → Rgb) → Shows self.old shown → Shows self.new (carried_by rects.now dx dy shown) }
        ensures held { (f : ℕ → ℕ → Pixel) → Holds self.old f → Holds self.new (carried_by rects.now dx dy f) }
        ensures sides { KeepSides self.old self.new }
        ensures owed { self.new.owed ≡ owed_after self.old (touch self.old rects.now) }
        ensures cost { steps.new ≡ steps.old + copy_steps self.old (touch self.old rects.now) + 6 * pixel_counts rects.now }
    {
        if self.touched_by(rects) {
            self.pay(steps);
            self.lifts
                .carry(rects, dx, dy, &mut self.front, &mut self.target, steps);
        }
    }

    /// Writes a colour into each pixel of a rectangle of front. Nothing else changes. The rectangle lies on the card. Where it has a
    /// pixel nothing is owed afterwards: the copy that is owed is made first, by two steps for each pixel of the card. It then
    /// takes a step a pixel.
    pub fn paint<L: Ledger>(&mut self, rect: ClipRect, colour: Rgb, steps: &mut Steps<L>)
        requires inside { IsOnCard self.old rect }
        ensures shown { (shown : ℕ → ℕ → Rgb) → Shows self.old shown → Shows self.new (painted rect colour shown) }
        ensures others { OnlyShown self.old self.new }
        ensures sides { KeepSides self.old self.new }
        ensures owed { self.new.owed ≡ owed_after self.old (touch self.old (rect ∷ [])) }
        ensures cost { steps.new ≡ steps.old + copy_steps self.old (touch self.old (rect ∷ [])) + pixel_count rect }
    {
        if self.touched_by(&[rect]) {
            self.pay(steps);
            self.front.fill(&rect, colour, steps);
        }
    }

    /// Shows back in some rectangles: front has there what back has, and back stays as it was. The rectangles lie on the card, and
    /// no two share a pixel. `Flipped` comes exactly where they fill the card: the planes are exchanged, and a copy is owed
    /// afterwards. Else the pixels are copied, by two steps each, and nothing is owed where there is one. The copy that was owed is
    /// made first, by two steps for each pixel of the card. With nothing owed a flip takes no step.
    pub fn swap<L: Ledger>(&mut self, rects: &[ClipRect], steps: &mut Steps<L>) -> Swapped
        requires inside { All (IsOnCard self.old) rects.now }
        requires apart { AllPairs AreApart rects.now }
        ensures shown { (f : ℕ → ℕ → Pixel) (shown : ℕ → ℕ → Rgb) → Holds self.old f → Shows self.old shown → Shows self.new (swapped_in rects.now f shown) }
        ensures others { OnlyShown self.old self.new }
        ensures sides { KeepSides self.old self.new }
        ensures answer { result ≡ (if fill self.old rects.now then Flipped else Copied) }
        ensures owed { self.new.owed ≡ (fill self.old rects.now || owed_after self.old (touch self.old rects.now)) }
        ensures cost { steps.new ≡ steps.old + copy_steps self.old (touch self.old rects.now) + (if fill self.old rects.now then 0 else 2 * pixel_counts rects.now) }
    {
        if self.covered_by(rects) {
            self.aligned();
            self.pay(steps);
            self.flip();
            Swapped::Flipped
        } else {
            self.show(rects, steps);
            Swapped::Copied
        }
    }

    // Copies each pixel of the rectangles from back to front, once the copy that is owed is made.
    fn show<L: Ledger>(&mut self, rects: &[ClipRect], steps: &mut Steps<L>)
        requires inside { All (IsOnCard self.old) rects.now }
        ensures shown { (f : ℕ → ℕ → Pixel) (shown : ℕ → ℕ → Rgb) → Holds self.old f → Shows self.old shown → Shows self.new (swapped_in rects.now f shown) }
        ensures others { OnlyShown self.old self.new }
        ensures sides { KeepSides self.old self.new }
        ensures owed { self.new.owed ≡ owed_after self.old (touch self.old rects.now) }
        ensures cost { steps.new ≡ steps.old + copy_steps self.old (touch self.old rects.now) + 2 * pixel_counts rects.now }
    {
        if self.touched_by(rects) {
            self.pay(steps);
            copy_all(&mut self.front, &self.target.back, rects, steps);
        }
    }

    /// What the screen shows.
    pub fn front(&self) -> &Plane<Rgb>
        ensures { result.now ≡ self.now.front }
    {
        &self.front
    }

    /// Whether back owes a copy of front.
    pub fn owed(&self) -> bool
        ensures { result ≡ self.now.owed }
    {
        self.owed
    }

    // Whether the rectangles have each place of the card: they lie on it and share no pixel, so it's enough to count.
    pub(crate) fn covered_by(&self, rects: &[ClipRect]) -> bool
        requires inside { All (IsOnCard self.now) rects.now }
        requires apart { AllPairs AreApart rects.now }
        ensures fill { result ≡ fill self.now rects.now }
        ensures touch { result ≡ true → touch self.now rects.now ≡ true }
    {
        total(rects) == self.front.width() as usize * self.front.height() as usize
    }

    // Whether the rectangles have a place: they lie on the card, so each pixel of them is one.
    fn touched_by(&self, rects: &[ClipRect]) -> bool
        requires inside { All (IsOnCard self.now) rects.now }
        ensures touch { result ≡ touch self.now rects.now }
        ensures none { result ≡ false → pixel_counts rects.now ≡ 0 }
    {
        total(rects) > 0
    }

    // The planes have the same sides. It does nothing: its contract is the law.
    fn aligned(&self)
        ensures { HaveSides self.now self.now.front.width self.now.front.height }
    {
        let _width = self.front.width();
    }

    // Makes the copy that is owed, if there is one.
    fn pay<L: Ledger>(&mut self, steps: &mut Steps<L>)
        ensures paid { self.new ≡ record self.old { owed = false } }
        ensures cost { steps.new ≡ steps.old + copy_steps self.old true }
    {
        if self.owed {
            own_pixels(&self.front);
            own_pixels(&self.target.back);
            let whole = ClipRect {
                x1: 0,
                y1: 0,
                x2: self.front.width() as u16,
                y2: self.front.height() as u16,
            };
            self.target.back.copy_from(&self.front, &whole, steps);
            self.owed = false;
        }
    }

    // Exchanges the planes, where nothing is owed.
    fn flip(&mut self)
        requires { self.old.owed ≡ false }
        ensures { self.new ≡ record self.old { front = self.old.back; owed = true } }
    {
        std::mem::swap(&mut self.front, &mut self.target.back);
        self.owed = true;
    }
}

// A plane has a pixel for each place. It does nothing: its contract is the law.
fn own_pixels<T: Copy>(plane: &Plane<T>)
    ensures { length plane.now.pixels ≡ plane.now.width * plane.now.height }
{
    let _pixels = plane.pixels();
}

// The front of a scene's opening. Its painting counts steps that nobody asks for.
fn counted_front<L: Ledger>(
    alloc: Global,
    scene: &Scene,
    blank: Blank,
) -> Result<Plane<Rgb>, OutOfMemory>
    requires name { blank.name ≡ L.name }
    requires parts { blank.parts ≡ L.parts }
    requires one { L.parts ≡ 1 }
    requires scene { InRange scene.now }
    ensures width { IfOk result (λ front. front.width ≡ scene.now.width) }
    ensures height { IfOk result (λ front. front.height ≡ scene.now.height) }
    ensures shown { IfOk result (ShowsStack scene.now.root scene.now.windows) }
{
    let mut steps = Steps::<L>::new(blank);
    opening_front(alloc, scene, &mut steps)
}
