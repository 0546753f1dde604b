//! The card keeps two planes of words and one of depths, its registers, the bytes of its texture memory and its clip, and lists in
//! which pixels wait while they are carried. Contracts see the colours that the words show. What it keeps always fits together,
//! as on the card that keeps colours as they are: so the rectangles, the images and the bytes that it takes are those of that card.

ghost use Rattle.std.specs.Prelude.{◌≡◌, ◌≤◌, ◌+◌, ◌*◌, ℕ, length, All, AllPairs, None, OnOk, OnErr, IfOk, IfErr, IsOk, ◌↔◌};
ghost use Rattle.dri_base.specs.declared.colour.Pixel.{Pixel};
ghost use Rattle.dri_base.specs.declared.colour.Rgb.{Rgb};
ghost use Rattle.dri_base.specs.declared.shape.Triangle.{Triangle};
ghost use Rattle.dri_base.specs.Ranges.{InRange, IsPlace, TriangleInRange};
ghost use Rattle.dri_model.specs.CommandWords.{IsTriangle, triangle_words, Buffer as IsBuffer};
ghost use Rattle.dri_model.specs.Heaps.{uploaded};
ghost use Rattle.dri_plane.specs.Grids.{pixel_count};
ghost use Rattle.dri_base.specs.Rectangles.{AreApart};
ghost use Rattle.dri_plane.specs.Moves.{pixel_counts};
ghost use Rattle.dri_card.specs.Contents.{Holds, IsOnCard, KeepSides, Shows, memory_of};
ghost use Rattle.dri_card.specs.Drawing.{IsCarry, IsDispatchFault, IsFirstOff, OnlyCarried, OnlyDrawn, OnlyShown, StaysOnCard, carried_by, cleared, painted, swapped};
ghost use Rattle.dri_card.specs.Loading.{CanLoad, IsLoadFault, registers_after};
ghost use Rattle.dri_card.specs.declared.faults.OutsideCard.TheVariants.{Base, Clip};
ghost use Rattle.dri_card16.specs.Calls.{after_triangle16, after_triangles16, covered16, places16};
ghost use Rattle.dri_card16.specs.Packing.{kept};
ghost use Rattle.dri_card16.specs.Widened.{IsOpening16, seen};

use crate::drawing::draw16;
use crate::format::FiveSixFive;
use crate::opening::opening_words;
use crate::packing::pack;
use dri_base::{ClipRect, OutOfMemory, Point, Registers, Rgb, Scene, Steps, Triangle};
use dri_card::memory::{expect_room, expect_within, write, zeros};
use dri_card::screen::{expect_all_stay, expect_inside};
use dri_card::{DispatchFault, Lifts, LoadFault, OutsideCard, Target, opening_registers};
use dri_cmdbuf::{Buffer, Decoded, decode};
use dri_context::TakeWords;
use dri_plane::Plane;
use std::alloc::Global;
use std::marker::{Brand, Model};
use std::sync::ledger::{Blank, Ledger};

/// The card of sixteen bits. Contracts see what it holds: front, back and depth, with a pixel for each place of the screen, whose
/// colours are those that its words show; the registers; the bytes of the texture memory; and the clip, the rectangle of the
/// screen in which triangles and lines are drawn.
#[derive(Drop)]
pub struct Card16 {
    front: Plane<u16>,
    target: Target<FiveSixFive>,
    registers: Registers,
    memory: Vec<u8>,
    clip: ClipRect,
    lifts: Lifts<u16>,
}

impl Model for Card16 {
    ghost use Rattle.dri_card.specs.Contents.{Contents};
    ghost use Rattle.dri_card16.specs.Invariants.{IsCard16, contents};

    ghost Value = { Contents };

    ghost view = { contents };

    ghost invariant = { IsCard16 };
}

impl Card16 {
    /// The card of a scene before anything is drawn: in front each pixel has what is kept of the background of its topmost mapped
    /// window, or of the root colour; back is black and depth is 65,535; the registers are those of the default state with nothing
    /// bound; the texture memory is zero; and the clip is empty. All memory that the card needs is taken here. The scene is
    /// in range.
    pub fn new(alloc: Global, scene: &Scene) -> Result<Card16, OutOfMemory>
        requires { InRange scene.now }
        ensures { IfOk result (IsOpening16 scene.now) }
    {
        opening::<Brand>(alloc, scene, Blank::new(1))
    }

    // Refuses a rectangle that isn't on the card.
    fn expect_inside(&self, rect: ClipRect) -> Result<(), OutsideCard>
        ensures inside { IsOk result ↔ IsOnCard rect self.now }
        ensures outside { IfErr result (λ outside. outside ≡ Clip rect) }
    {
        expect_inside(rect, self.front.width(), self.front.height())
    }

    /// Loads registers: exactly where the words spell some and the image that is bound then lies in the texture memory.
    /// The groups that the words spell become theirs, and nothing else changes. The words are tested first: `BadWord`
    /// comes exactly where they spell no registers, and names the first word that can't stand there. `Outside` comes
    /// exactly where they spell some and the image that is bound then passes the texture memory, and is a `Base` with the
    /// image's first byte and how many it has. After a refusal nothing has changed.
    pub fn load_registers(&mut self, words: &[u32]) -> Result<(), LoadFault>
        ensures ok { OnOk result ((able : CanLoad words.now self.old) × (self.new ≡ record self.old { registers = registers_after able.spelled self.old })) }
        ensures can { (able : CanLoad words.now self.old) → IsOk result × (self.new ≡ record self.old { registers = registers_after able.spelled self.old }) }
        ensures fault { IfErr result (IsLoadFault words.now self.old) }
        ensures err { OnErr result (self.new ≡ self.old) }
    {
        let mut registers = self.registers;
        registers.apply(words)?;
        expect_within(&registers.bound, self.memory.len())?;
        self.registers = registers;
        Ok(())
    }

    /// Sets the clip, exactly where the rectangle lies on the card: no side is before the one across from it, and none
    /// is beyond the screen. Nothing else changes. Otherwise it is refused as a `Clip` with that rectangle, and nothing
    /// changes.
    pub fn set_clip(&mut self, rect: ClipRect) -> Result<(), OutsideCard>
        ensures on_card { IsOk result ↔ IsOnCard rect self.old }
        ensures ok { OnOk result (self.new ≡ record self.old { clip = rect }) }
        ensures outside { IfErr result (λ outside. outside ≡ Clip rect) }
        ensures err { OnErr result (self.new ≡ self.old) }
    {
        self.expect_inside(rect)?;
        self.clip = rect;
        Ok(())
    }

    /// Draws the triangles of the buffer in order, or the lines that they are, each at every pixel of the clip by the card's pixel
    /// rule, with its registers and texture memory. The window's pixel is the screen's less the origin, the window's upper left corner,
    /// whose coordinates are -1,024 to 1,024. For each of them it takes at most four steps for each place of the clip whose
    /// pixel it covers; a scissor only leaves some out. `BadWord` comes exactly where the buffer's words spell no
    /// triangles, and then nothing is drawn.
    pub fn dispatch<L: Ledger>(
        &mut self,
        buffer: &Buffer,
        origin: Point,
        steps: &mut Steps<L>,
    ) -> Result<(), DispatchFault>
        requires x { IsPlace origin.x }
        requires y { IsPlace origin.y }
        ensures ok { OnOk result ((b : IsBuffer buffer.now) × ((f : ℕ → ℕ → Pixel) → Holds self.old f → Holds self.new (after_triangles16 self.old origin b.triangles f))) }
        ensures drawn { (b : IsBuffer buffer.now) → IsOk result × ((f : ℕ → ℕ → Pixel) → Holds self.old f → Holds self.new (after_triangles16 self.old origin b.triangles f)) }
        ensures one { (t : Triangle) → IsTriangle t → buffer.now ≡ triangle_words t → IsOk result × ((f : ℕ → ℕ → Pixel) → Holds self.old f → Holds self.new (after_triangle16 self.old origin t f)) }
        ensures others { OnlyDrawn self.old self.new }
        ensures sides { KeepSides self.old self.new }
        ensures bound { (b : IsBuffer buffer.now) → steps.new ≤ steps.old + 4 * covered16 self.old origin b.triangles }
        ensures bad { IfErr result (IsDispatchFault buffer.now) }
        ensures err { OnErr result ((self.new ≡ self.old) × (steps.new ≡ steps.old)) }
    {
        let triangles = decode(buffer.words())?;
        self.draw_all(&triangles, origin, steps);
        Ok(())
    }

    // Draws triangles and lines one after another.
    fn draw_all<L: Ledger>(&mut self, triangles: &Decoded<'_>, origin: Point, steps: &mut Steps<L>)
        requires x { IsPlace origin.x }
        requires y { IsPlace origin.y }
        requires triangles { All IsTriangle triangles.now }
        ensures drawn { (f : ℕ → ℕ → Pixel) → Holds self.old f → Holds self.new (after_triangles16 self.old origin triangles.now f) }
        ensures others { OnlyDrawn self.old self.new }
        ensures sides { KeepSides self.old self.new }
        ensures bound { steps.new ≤ steps.old + 4 * covered16 self.old origin triangles.now }
    {
        for i in 0..triangles.len() {
            self.draw(&triangles.triangle(i), origin, steps);
        }
    }

    // Draws a triangle, or the line that it is, in the clip.
    fn draw<L: Ledger>(&mut self, triangle: &Triangle, origin: Point, steps: &mut Steps<L>)
        requires x { IsPlace origin.x }
        requires y { IsPlace origin.y }
        requires triangle { TriangleInRange triangle.now }
        ensures drawn { (f : ℕ → ℕ → Pixel) → Holds self.old f → Holds self.new (after_triangle16 self.old origin triangle.now f) }
        ensures others { OnlyDrawn self.old self.new }
        ensures sides { KeepSides self.old self.new }
        ensures bound { steps.new ≤ steps.old + 4 * places16 triangle.now self.old.clip origin }
    {
        draw16(
            &mut self.target,
            &self.registers,
            self.memory.as_slice(),
            &self.clip,
            origin,
            triangle,
            steps,
        );
    }

    /// Writes what is kept of a colour, and a depth, into each pixel of a rectangle of back and depth, exactly where it lies on the card.
    /// Nothing else changes. It takes two steps a pixel. The rectangle is tested first: one that doesn't lie on the card
    /// is refused as a `Clip` with it, before any step, and nothing changes.
    pub fn clear<L: Ledger>(
        &mut self,
        rect: ClipRect,
        colour: Rgb,
        depth: u16,
        steps: &mut Steps<L>,
    ) -> Result<(), OutsideCard>
        ensures on_card { IsOk result ↔ IsOnCard rect self.old }
        ensures ok { OnOk result ((f : ℕ → ℕ → Pixel) → Holds self.old f → Holds self.new (cleared rect (kept colour) depth f)) }
        ensures others { OnlyDrawn self.old self.new }
        ensures sides { KeepSides self.old self.new }
        ensures cost { OnOk result (steps.new ≡ steps.old + 2 * pixel_count rect) }
        ensures outside { IfErr result (λ outside. outside ≡ Clip rect) }
        ensures err { OnErr result ((self.new ≡ self.old) × (steps.new ≡ steps.old)) }
    {
        self.expect_inside(rect)?;
        self.target.clear(&rect, colour, depth, steps);
        Ok(())
    }

    /// Copies each pixel of a rectangle from back to front, exactly where it lies on the card. Nothing else changes. It
    /// takes two steps a pixel. The rectangle is tested first: one that doesn't lie on the card is refused as a `Clip`
    /// with it, before any step, and nothing changes.
    pub fn swap<L: Ledger>(
        &mut self,
        rect: ClipRect,
        steps: &mut Steps<L>,
    ) -> Result<(), OutsideCard>
        ensures on_card { IsOk result ↔ IsOnCard rect self.old }
        ensures ok { OnOk result ((f : ℕ → ℕ → Pixel) (shown : ℕ → ℕ → Rgb) → Holds self.old f → Shows self.old shown → Shows self.new (swapped rect f shown)) }
        ensures others { OnlyShown self.old self.new }
        ensures sides { KeepSides self.old self.new }
        ensures cost { OnOk result (steps.new ≡ steps.old + 2 * pixel_count rect) }
        ensures outside { IfErr result (λ outside. outside ≡ Clip rect) }
        ensures err { OnErr result ((self.new ≡ self.old) × (steps.new ≡ steps.old)) }
    {
        self.expect_inside(rect)?;
        self.front.copy_from(&self.target.back, &rect, steps);
        Ok(())
    }

    /// Writes bytes into the texture memory from the base on, exactly where they end within it. Nothing else changes.
    /// There are at most 4,294,967,295 bytes. Their end is tested first: bytes that pass the memory are refused as a
    /// `Base` with the base and how many they are, and nothing changes.
    pub fn upload(&mut self, base: u32, bytes: &[u8]) -> Result<(), OutsideCard>
        requires { length bytes.now ≤ 4294967295 }
        ensures within { IsOk result ↔ (base + length bytes.now ≤ length self.old.memory) }
        ensures ok { OnOk result (memory_of self.new ≡ uploaded (memory_of self.old) base bytes.now) }
        ensures others { self.new ≡ record self.old { memory = self.new.memory } }
        ensures len { length self.new.memory ≡ length self.old.memory }
        ensures outside { IfErr result (λ outside. outside ≡ Base base (length bytes.now)) }
        ensures err { OnErr result (self.new ≡ self.old) }
    {
        expect_room(base, bytes.len(), self.memory.len())?;
        write(self.memory.as_mut_slice(), base as usize, bytes);
        Ok(())
    }

    /// Writes what is kept of a colour into each pixel of a rectangle of front, exactly where it lies on the card. Nothing else changes.
    /// It takes a step a pixel. The rectangle is tested first: one that doesn't lie on the card is refused as a `Clip`
    /// with it, before any step, and nothing changes.
    pub fn paint<L: Ledger>(
        &mut self,
        rect: ClipRect,
        colour: Rgb,
        steps: &mut Steps<L>,
    ) -> Result<(), OutsideCard>
        ensures on_card { IsOk result ↔ IsOnCard rect self.old }
        ensures ok { OnOk result ((shown : ℕ → ℕ → Rgb) → Shows self.old shown → Shows self.new (painted rect (kept colour) shown)) }
        ensures others { OnlyShown self.old self.new }
        ensures sides { KeepSides self.old self.new }
        ensures cost { OnOk result (steps.new ≡ steps.old + pixel_count rect) }
        ensures outside { IfErr result (λ outside. outside ≡ Clip rect) }
        ensures err { OnErr result ((self.new ≡ self.old) × (steps.new ≡ steps.old)) }
    {
        self.expect_inside(rect)?;
        self.front.fill(&rect, pack(colour), steps);
        Ok(())
    }

    // Refuses the first rectangle that doesn't stay on the card.
    fn expect_all_stay(&self, rects: &[ClipRect], dx: i32, dy: i32) -> Result<(), OutsideCard>
        requires dx { IsCarry dx }
        requires dy { IsCarry dy }
        ensures stay { IsOk result ↔ All (StaysOnCard dx dy self.now) rects.now }
        ensures off { IfErr result (IsFirstOff dx dy self.now rects.now) }
    {
        expect_all_stay(rects, dx, dy, self.front.width(), self.front.height())
    }

    /// Carries the pixels of some rectangles by (dx, dy) in front, back and depth, exactly where each rectangle lies on the
    /// card, and still does once it is moved. In each plane every pixel of them is read before any is written. The
    /// rectangles share no pixel, and dx and dy are -2,048 to 2,048. Nothing else changes. It takes six steps a pixel. The
    /// rectangles are tested first: the first one that doesn't stay on the card is refused as a `Clip` with it, before any
    /// step, and nothing changes.
    pub fn carry<L: Ledger>(
        &mut self,
        rects: &[ClipRect],
        dx: i32,
        dy: i32,
        steps: &mut Steps<L>,
    ) -> Result<(), OutsideCard>
        requires apart { AllPairs AreApart rects.now }
        requires dx { IsCarry dx }
        requires dy { IsCarry dy }
        ensures stay { IsOk result ↔ All (StaysOnCard dx dy self.old) rects.now }
        ensures shown { OnOk result ((shown : ℕ → ℕ → Rgb) → Shows self.old shown → Shows self.new (carried_by rects.now dx dy shown)) }
        ensures held { OnOk result ((f : ℕ → ℕ → Pixel) → Holds self.old f → Holds self.new (carried_by rects.now dx dy f)) }
        ensures others { OnlyCarried self.old self.new }
        ensures sides { KeepSides self.old self.new }
        ensures cost { OnOk result (steps.new ≡ steps.old + 6 * pixel_counts rects.now) }
        ensures off { IfErr result (IsFirstOff dx dy self.old rects.now) }
        ensures err { OnErr result ((self.new ≡ self.old) × (steps.new ≡ steps.old)) }
    {
        self.expect_all_stay(rects, dx, dy)?;
        self.lifts
            .carry(rects, dx, dy, &mut self.front, &mut self.target, steps);
        Ok(())
    }

    /// The words that the screen shows: each has red in bits 15 to 11, green in bits 10 to 5, blue in bits 4 to 0.
    pub fn front16(&self) -> &Plane<u16>
        ensures { seen result.now ≡ self.now.front }
    {
        &self.front
    }
}

// The painting of front counts steps that nobody asks for.
fn opening<L: Ledger>(alloc: Global, scene: &Scene, blank: Blank) -> Result<Card16, OutOfMemory>
    requires name { blank.name ≡ L.name }
    requires parts { blank.parts ≡ L.parts }
    requires one { L.parts ≡ 1 }
    requires scene { InRange scene.now }
    ensures { IfOk result (IsOpening16 scene.now) }
{
    let mut steps = Steps::<L>::new(blank);
    let front = opening_words(alloc, scene, &mut steps)?;
    let target = Target::new(alloc, scene.width, scene.height)?;
    let memory = zeros(alloc, scene.regions as usize * scene.region_size as usize)?;
    let lifts = Lifts::new(alloc, scene.width * scene.height)?;
    Ok(Card16 {
        front,
        target,
        registers: opening_registers(),
        memory,
        clip: ClipRect {
            x1: 0,
            y1: 0,
            x2: 0,
            y2: 0,
        },
        lifts,
    })
}
