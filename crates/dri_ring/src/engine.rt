//! The engine keeps a card, and a ring of jobs that run on it later, the first put first. Whoever puts a job goes on before it
//! ran; whoever changes the windows waits until the ring is empty.

ghost use Rattle.std.specs.Prelude.{◌≡◌, ◌≤◌, ◌++◌, ◌∷◌, [], ◌↔◌, ℕ, length, All, AllPairs, IfOk, IfErr, IsErr, OnOk, OnErr};
ghost use Rattle.std.specs.Arc.{arc_value};
ghost use Rattle.dri_base.specs.Ranges.{InRange, IsWithin};
ghost use Rattle.dri_base.specs.declared.colour.Pixel.{Pixel};
ghost use Rattle.dri_base.specs.declared.colour.Rgb.{Rgb};
ghost use Rattle.dri_card.specs.Contents.{Holds as CardHolds, KeepSides, Shows as CardShows};
ghost use Rattle.dri_card.specs.Drawing.{IsCarry, OnlyCarried as OnlyCarriedOn, OnlyShown as OnlyShownOn, StaysOnCard, carried_by, painted};
ghost use Rattle.dri_plane.specs.Grids.{IsInside};
ghost use Rattle.dri_base.specs.Rectangles.{AreApart};
ghost use Rattle.dri_plane.specs.Moves.{StaysInside};
ghost use Rattle.dri_plane.specs.Runs.{HoldPairs};
ghost use Rattle.dri_ring.specs.Jobs.{IsDrawable, IsGood, effect};
ghost use Rattle.dri_ring.specs.Rings.{Has, IsOpening, IsScreen, OnlyCarried, OnlyRan, OnlyShown, Shows, first_run, planes_of, settled, step_answer, without_first};

use crate::job::{Job, RingFull, Stepped};
use crate::running::run;
use dri_base::{ClipRect, OutOfMemory, Rgb, Scene, Steps};
use dri_card::Card;
use dri_plane::Plane;
use std::alloc::Global;
use std::marker::{Brand, Model};
use std::sync::Arc;
use std::sync::ledger::{Blank, Ledger};

/// The engine. Contracts see its scene, how many jobs may wait, those that do, and the card's three planes.
#[derive(Drop)]
pub struct Engine {
    scene: Arc<Scene, Global>,
    room: u32,
    pending: Vec<Job>,
    card: Card,
}

impl Model for Engine {
    ghost use Rattle.dri_ring.specs.Invariants.{IsEngine, ring};
    ghost use Rattle.dri_ring.specs.Rings.{Ring};

    ghost Value = { Ring };

    ghost view = { ring };

    ghost invariant = { IsEngine };
}

impl Engine {
    /// The engine of a scene in range, before anything is drawn, in which nothing waits: front has the background of each
    /// pixel's topmost mapped window, or the root colour; back is black and depth is 65,535. As many jobs may wait as there is
    /// room for, 1 to 64. All memory that the engine needs is taken here.
    pub fn new(alloc: Global, scene: Arc<Scene, Global>, room: u32) -> Result<Engine, OutOfMemory>
        requires scene { InRange (arc_value scene) }
        requires room { IsWithin 1 64 room }
        ensures { IfOk result (IsOpening (arc_value scene) room) }
    {
        let card = Card::new(alloc, &scene)?;
        let pending = Vec::with_capacity(alloc, room as usize)?;
        Ok(Engine {
            scene,
            room,
            pending,
            card,
        })
    }

    /// Puts a job last in the ring, and draws nothing. It is refused exactly where as many jobs wait as there is room for; then
    /// it is handed back, and nothing changes. The job is good, its triangle's corners are in range, and so is its window's, of
    /// -1,024 to 1,024.
    pub fn put(&mut self, job: Job) -> Result<(), RingFull>
        requires good { IsGood self.old.scene job }
        requires drawable { IsDrawable job }
        ensures last { OnOk result (self.new ≡ record self.old { pending = self.old.pending ++ job ∷ [] }) }
        ensures settled { OnOk result (settled self.new ≡ effect self.old.scene (settled self.old) job) }
        ensures full { IsErr result ↔ (length self.old.pending ≡ self.old.room) }
        ensures back { IfErr result (λ full. (full.job ≡ job) × (full.room ≡ self.old.room)) }
        ensures stays { OnErr result (self.new ≡ self.old) }
    {
        if self.pending.len() >= self.room as usize {
            return Err(RingFull {
                job,
                room: self.room,
            });
        }
        self.pending.push_reserved(job);
        Ok(())
    }

    /// Runs the first job that waits, which leaves the ring. `Empty` comes exactly where none waits, and then nothing changes.
    pub fn step(&mut self) -> Stepped
        ensures answer { result ≡ step_answer self.old.pending }
        ensures left { self.new.pending ≡ without_first self.old.pending }
        ensures planes { planes_of self.new ≡ first_run self.old.scene self.old.pending (planes_of self.old) }
        ensures settled { settled self.new ≡ settled self.old }
        ensures others { OnlyRan self.old self.new }
    {
        if self.pending.is_empty() {
            return Stepped::Empty;
        }
        let job = self.pending.remove(0);
        run(&mut self.card, &self.scene, &job);
        Stepped::Ran
    }

    /// Runs all jobs that wait, in order.
    pub fn idle(&mut self)
        ensures empty { self.new.pending ≡ [] }
        ensures planes { planes_of self.new ≡ settled self.old }
        ensures settled { settled self.new ≡ settled self.old }
        ensures others { OnlyRan self.old self.new }
    {
        for _ran in 0..self.pending.len() {
            self.step();
        }
    }

    /// Writes a colour into each pixel of a rectangle of front. Nothing else changes. Nothing waits, and the rectangle lies on the
    /// screen.
    pub fn paint(&mut self, rect: ClipRect, colour: Rgb)
        requires idle { self.old.pending ≡ [] }
        requires inside { IsInside rect self.old.scene.width self.old.scene.height }
        ensures shown { (shown : ℕ → ℕ → Rgb) → Shows self.old shown → Shows self.new (painted rect colour shown) }
        ensures others { OnlyShown self.old self.new }
        ensures screen { IsScreen self.new }
    {
        paint_on::<Brand>(Blank::new(1), &mut self.card, rect, colour);
    }

    /// Carries the pixels of some rectangles by (dx, dy) in front, back and depth. In each plane every pixel of them is read before
    /// any is written. Nothing else changes. Nothing waits; the rectangles lie on the screen, and so they do once they are moved;
    /// no two share a pixel; dx and dy are -2,048 to 2,048.
    pub fn carry(&mut self, rects: &[ClipRect], dx: i32, dy: i32)
        requires idle { self.old.pending ≡ [] }
        requires stay { All (StaysInside dx dy self.old.scene.width self.old.scene.height) rects.now }
        requires apart { AllPairs AreApart rects.now }
        requires dx { IsCarry dx }
        requires dy { IsCarry dy }
        ensures shown { (shown : ℕ → ℕ → Rgb) → Shows self.old shown → Shows self.new (carried_by rects.now dx dy shown) }
        ensures held { (f : ℕ → ℕ → Pixel) → HoldPairs self.old.back self.old.depth f → HoldPairs self.new.back self.new.depth (carried_by rects.now dx dy f) }
        ensures others { OnlyCarried self.old self.new }
        ensures screen { IsScreen self.new }
    {
        carry_on::<Brand>(Blank::new(1), &mut self.card, rects, dx, dy);
    }

    /// How many jobs wait: no more than there is room for.
    pub fn len(&self) -> u32
        ensures count { result ≡ length self.now.pending }
        ensures most { result ≤ self.now.room }
        ensures room { IsWithin 1 64 self.now.room }
    {
        self.pending.len() as u32
    }

    /// What the screen shows. The planes have a pixel for each place of the screen.
    pub fn front(&self) -> &Plane<Rgb>
        ensures front { result.now ≡ self.now.front }
        ensures screen { IsScreen self.now }
        ensures whole { Has self.now (planes_of self.now) }
    {
        self.card.front()
    }

    /// The colours that are drawn.
    pub fn back(&self) -> &Plane<Rgb>
        ensures { result.now ≡ self.now.back }
    {
        self.card.back()
    }

    /// The depth of each pixel that is drawn.
    pub fn depth(&self) -> &Plane<u16>
        ensures { result.now ≡ self.now.depth }
    {
        self.card.depth()
    }
}

// Paints a rectangle of a card's front. The steps are counted from the blank on.
fn paint_on<L: Ledger>(blank: Blank, card: &mut Card, rect: ClipRect, colour: Rgb)
    requires name { blank.name ≡ L.name }
    requires parts { blank.parts ≡ L.parts }
    requires one { L.parts ≡ 1 }
    requires inside { IsInside rect card.old.front.width card.old.front.height }
    ensures shown { (shown : ℕ → ℕ → Rgb) → CardShows card.old shown → CardShows card.new (painted rect colour shown) }
    ensures others { OnlyShownOn card.old card.new }
    ensures sides { KeepSides card.old card.new }
{
    let mut steps = Steps::<L>::new(blank);
    card.paint(rect, colour, &mut steps).unwrap();
}

// Carries rectangles of a card's planes. The steps are counted from the blank on.
fn carry_on<L: Ledger>(blank: Blank, card: &mut Card, rects: &[ClipRect], dx: i32, dy: i32)
    requires name { blank.name ≡ L.name }
    requires parts { blank.parts ≡ L.parts }
    requires one { L.parts ≡ 1 }
    requires stay { All (StaysOnCard dx dy card.old) rects.now }
    requires apart { AllPairs AreApart rects.now }
    requires dx { IsCarry dx }
    requires dy { IsCarry dy }
    ensures shown { (shown : ℕ → ℕ → Rgb) → CardShows card.old shown → CardShows card.new (carried_by rects.now dx dy shown) }
    ensures held { (f : ℕ → ℕ → Pixel) → CardHolds card.old f → CardHolds card.new (carried_by rects.now dx dy f) }
    ensures others { OnlyCarriedOn card.old card.new }
    ensures sides { KeepSides card.old card.new }
{
    let mut steps = Steps::<L>::new(blank);
    card.carry(rects, dx, dy, &mut steps).unwrap();
}
