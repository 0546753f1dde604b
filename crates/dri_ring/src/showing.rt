//! What a new stack leaves on an idle engine's planes: a moved window takes along what it shows, and then front is painted.

ghost use Rattle.std.specs.Prelude.{◌≡◌, ◌≤◌, [], ℕ, All, IfSome};
ghost use Rattle.dri_base.specs.declared.colour.Pixel.{Pixel};
ghost use Rattle.dri_base.specs.declared.colour.Rgb.{Rgb};
ghost use Rattle.dri_clips.specs.Paints.{IsOnScreen, filled};
ghost use Rattle.dri_plane.specs.Runs.{HoldPairs};
ghost use Rattle.dri_replay.specs.Makings.{CanCarry, CanShow, carried_along};
ghost use Rattle.dri_ring.specs.Follows.{shown_by};
ghost use Rattle.dri_ring.specs.Jobs.{Planes};
ghost use Rattle.dri_ring.specs.Rings.{Has, OnlyCarried, OnlyShown, Shows};

use crate::engine::Engine;
use dri_clips::{Paint, Touched};

/// Takes along what is carried, and then makes the paints. Nothing waits.
pub fn show(engine: &mut Engine, touched: &Touched)
    requires idle { engine.old.pending ≡ [] }
    requires wide { engine.old.scene.width ≤ 1024 }
    requires high { engine.old.scene.height ≤ 1024 }
    requires can { CanShow engine.old.scene.width engine.old.scene.height touched.now }
    ensures planes { (p : Planes) → Has engine.old p → Has engine.new (shown_by touched.now p) }
    ensures others { OnlyCarried engine.old engine.new }
{
    carry_along(engine, touched);
    paint(engine, touched.paints.as_slice());
}

// Takes along what a moved window carries, if there is something: front, and back with its depth.
fn carry_along(engine: &mut Engine, touched: &Touched)
    requires idle { engine.old.pending ≡ [] }
    requires wide { engine.old.scene.width ≤ 1024 }
    requires high { engine.old.scene.height ≤ 1024 }
    requires can { IfSome touched.now.carry (CanCarry engine.old.scene.width engine.old.scene.height) }
    ensures shown { (shown : ℕ → ℕ → Rgb) → Shows engine.old shown → Shows engine.new (carried_along touched.now.carry shown) }
    ensures held { (f : ℕ → ℕ → Pixel) → HoldPairs engine.old.back engine.old.depth f → HoldPairs engine.new.back engine.new.depth (carried_along touched.now.carry f) }
    ensures others { OnlyCarried engine.old engine.new }
{
    match &touched.carry {
        None => {}
        Some(carry) => engine.carry(carry.rects.as_slice(), carry.dx, carry.dy),
    }
}

// Makes the paints in front, one after the other.
fn paint(engine: &mut Engine, paints: &[Paint])
    requires idle { engine.old.pending ≡ [] }
    requires on { All (λ p. IsOnScreen engine.old.scene.width engine.old.scene.height p.rect) paints.now }
    ensures shown { (shown : ℕ → ℕ → Rgb) → Shows engine.old shown → Shows engine.new (filled paints.now shown) }
    ensures others { OnlyShown engine.old engine.new }
{
    for paint in paints {
        engine.paint(paint.rect, paint.colour);
    }
}
