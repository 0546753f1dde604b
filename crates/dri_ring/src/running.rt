//! A job, run on the card in the clips that it was put with. What a triangle is drawn with is loaded first.

ghost use Rattle.std.specs.Prelude.{◌≡◌, ℤ, length};
ghost use Rattle.dri_base.specs.Fragments.{fragment};
ghost use Rattle.dri_base.specs.Ranges.{InRange, heap_bytes};
ghost use Rattle.dri_base.specs.Scenes.{bytes_of, textures_of};
ghost use Rattle.dri_base.specs.Texels.{own_image, texture_bound};
ghost use Rattle.dri_base.specs.declared.colour.Pixel.{Pixel};
ghost use Rattle.dri_base.specs.declared.shape.Triangle.{Triangle};
ghost use Rattle.dri_card.specs.Drawing.{drawn};
ghost use Rattle.dri_replay.specs.Cards.{OnlyLoaded};
ghost use Rattle.dri_ring.specs.Cards.{IsCardOf, IsReady};
ghost use Rattle.dri_ring.specs.Jobs.{Planes, SpellAll, effect, spelled_rules};
ghost use Rattle.dri_ring.specs.Rings.{Show};

use crate::job::Job;
use dri_base::Scene;
use dri_card::Card;
use dri_context::EmitWords;
use dri_draw::{clear_clips, draw_clips, swap_clips, texture_bytes};
use std::marker::Brand;
use std::sync::ledger::Blank;

/// Where a job's image begins in the card's texture memory.
const FIRST_BYTE: u32 = 0;

/// Runs a job on a card of its scene.
pub fn run(card: &mut Card, scene: &Scene, job: &Job)
    requires scene { InRange scene.now }
    requires card { IsCardOf scene.now card.old }
    requires ready { IsReady scene.now job.now }
    ensures planes { (p : Planes) → Show card.old.front card.old.back card.old.depth p → Show card.new.front card.new.back card.new.depth (effect scene.now p job.now) }
    ensures card { IsCardOf scene.now card.new }
{
    match job {
        Job::Clear {
            clips,
            colour,
            depth,
        } => clear_clips::<Brand>(Blank::new(1), card, clips, *colour, *depth),
        Job::Draw {
            clips,
            origin,
            words,
            client,
            texture,
            triangle,
        } => {
            load(card, scene, words, *client, *texture);
            draw_clips::<Brand>(Blank::new(1), card, clips, *origin, triangle);
        }
        Job::Swap { clips } => swap_clips::<Brand>(Blank::new(1), card, clips),
    }
}

// Loads what a client's triangle is drawn with: its image into the texture memory, and its words into the registers.
fn load(card: &mut Card, scene: &Scene, words: &EmitWords, client: u32, texture: Option<u32>)
    requires scene { InRange scene.now }
    requires bytes { length card.old.memory ≡ heap_bytes scene.now }
    requires spelled { SpellAll scene.now client texture words.now }
    ensures draws { (t : Triangle) (x y : ℤ) (under : Pixel) → drawn card.new t x y under ≡ fragment (spelled_rules words.now) (own_image (textures_of scene.now client) texture) t x y under }
    ensures others { OnlyLoaded card.old card.new }
    ensures len { length card.new.memory ≡ length card.old.memory }
{
    let bytes = bytes_named(scene, client, texture);
    card.upload(FIRST_BYTE, bytes).unwrap();
    card.load_registers(words.words()).unwrap();
}

// The bytes of a client's texture; none where none is named, or it isn't there.
fn bytes_named(scene: &Scene, client: u32, texture: Option<u32>) -> &[u8]
    ensures { result.now ≡ bytes_of (texture_bound (textures_of scene.now client) texture) }
{
    match texture {
        Some(number) => texture_bytes(scene, client, number),
        None => &[],
    }
}
