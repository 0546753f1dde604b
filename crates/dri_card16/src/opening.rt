//! What a scene shows before anything is drawn, in words: the front plane of the scene is painted as it ever is, and packed.

ghost use Rattle.std.specs.Prelude.{◌≡◌, ◌==◌, ◌<◌, ℕ, IfOk, if◌then◌else◌};
ghost use Rattle.dri_base.specs.Planes.{plane};
ghost use Rattle.dri_base.specs.Ranges.{InRange};
ghost use Rattle.dri_base.specs.declared.colour.Rgb.{Rgb};
ghost use Rattle.dri_card16.specs.Packing.{kept, pack};
ghost use Rattle.dri_card16.specs.Widened.{seen};
ghost use Rattle.dri_model.specs.Stacks.{ground_colour, top};
ghost use Rattle.dri_plane.specs.Grids.{Becomes};

use crate::packing::pack;
use dri_base::{OutOfMemory, Rgb, Scene, Steps};
use dri_card::opening_front;
use dri_plane::Plane;
use std::alloc::Global;
use std::sync::ledger::Ledger;

/// The front plane of a scene: what is kept of the background of each pixel's topmost mapped window, or of the root colour.
pub fn opening_words<L: Ledger>(
    alloc: Global,
    scene: &Scene,
    steps: &mut Steps<L>,
) -> Result<Plane<u16>, OutOfMemory>
    requires { InRange scene.now }
    ensures width { IfOk result (λ front. front.width ≡ scene.now.width) }
    ensures height { IfOk result (λ front. front.height ≡ scene.now.height) }
    ensures shown { IfOk result (λ front. (seen front).pixels ≡ plane front.width front.height (λ x y. kept (ground_colour scene.now.root (top scene.now.windows x y)))) }
{
    let colours = opening_front(alloc, scene, steps)?;
    packed(alloc, &colours, steps)
}

/// The words of a plane's colours.
fn packed<L: Ledger>(
    alloc: Global,
    colours: &Plane<Rgb>,
    steps: &mut Steps<L>,
) -> Result<Plane<u16>, OutOfMemory>
    ensures width { IfOk result (λ words. words.width ≡ colours.now.width) }
    ensures height { IfOk result (λ words. words.height ≡ colours.now.height) }
    ensures pixels { IfOk result (λ words. (f : ℕ → ℕ → Rgb) → colours.now.pixels ≡ plane colours.now.width colours.now.height f → words.pixels ≡ plane words.width words.height (λ x y. pack (f x y))) }
{
    let mut words = Plane::new(alloc, colours.width(), colours.height(), 0)?;
    for y in 0..colours.height() {
        pack_row(&mut words, colours, y, steps);
    }
    Ok(words)
}

/// Packs the colours of row y.
fn pack_row<L: Ledger>(words: &mut Plane<u16>, colours: &Plane<Rgb>, y: u32, steps: &mut Steps<L>)
    requires width { words.old.width ≡ colours.now.width }
    requires height { words.old.height ≡ colours.now.height }
    requires row { y < colours.now.height }
    ensures width { words.new.width ≡ words.old.width }
    ensures height { words.new.height ≡ words.old.height }
    ensures pixels { (f : ℕ → ℕ → Rgb) → colours.now.pixels ≡ plane colours.now.width colours.now.height f → Becomes words.old words.new (λ g a b. if b == y then pack (f a b) else g a b) }
{
    for x in 0..colours.width() {
        let word = pack(colours.get(x, y, steps));
        words.put(x, y, word, steps);
    }
}
