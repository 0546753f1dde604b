//! What a scene's run by its schedule gives: its picture and its notes. The run is the schedule's items in order, and then rounds until
//! nothing is left to do.

ghost use Rattle.std.specs.Prelude.{◌≡◌, All, IfOk};
ghost use Rattle.std.specs.Arc.{arc_value};
ghost use Rattle.dri_base.specs.Ranges.{InRange};
ghost use Rattle.dri_core.specs.Runs.{plain};
ghost use Rattle.dri_journal.specs.Journals.{FitsWords, journal_text};
ghost use Rattle.dri_ppm.specs.Ppm.{ppm};
ghost use Rattle.dri_run.specs.ScheduledRun.{GivesByForm, IsRunOf, notes_of, picture_of};
ghost use Rattle.dri_run.specs.declared.form.Shown.TheVariants.{Sarea};

use crate::form::Shown;
use crate::obeying::Running;
use crate::writing::Output;
use dri_base::{Bytes, Entry, Items, OutOfMemory, Rgb, Scene};
use dri_journal::print_journal;
use dri_plane::Plane;
use dri_ppm::ppm_bytes;
use dri_world::World;
use std::alloc::Global;
use std::sync::Arc;

/// The scene without its schedule.
pub fn plain(alloc: Global, scene: Scene) -> Scene
    ensures { result ≡ plain scene }
{
    let mut scene = scene;
    scene.turns = Items::new(alloc);
    scene
}

/// Runs a scene.
pub fn run(alloc: Global, scene: &Arc<Scene, Global>) -> Result<World, OutOfMemory>
    requires { InRange (arc_value scene.now) }
    ensures scene { IfOk result (λ w. w.scene ≡ arc_value scene.now) }
    ensures run { IfOk result (λ w. IsRunOf w.scene w.events) }
{
    let mut world = World::new(alloc, scene.clone()?)?;
    world.run_schedule(alloc)?;
    world.finish(alloc)?;
    // What holds of the world's events is told by this call alone.
    let _events = world.events();
    Ok(world)
}

/// A screen in the P6 form, and a journal.
pub fn screen_of(
    alloc: Global,
    front: &Plane<Rgb>,
    journal: &[Entry],
) -> Result<Output, OutOfMemory>
    ensures picture { IfOk result (λ o. o.picture ≡ ppm front.now.width front.now.height front.now.pixels) }
    ensures notes { IfOk result (λ o. o.notes ≡ journal_text journal.now) }
    ensures fits { IfOk result (λ o. All FitsWords journal.now) }
{
    let picture = ppm_bytes(alloc, front)?;
    let notes = print_journal(alloc, journal)?;
    Ok(Output { picture, notes })
}

/// The image of the shared area, and nothing.
fn area_of(alloc: Global, world: &World) -> Result<Output, OutOfMemory>
    ensures picture { IfOk result (λ o. o.picture ≡ picture_of Sarea world.now.scene world.now.events) }
    ensures notes { IfOk result (λ o. o.notes ≡ notes_of Sarea world.now.events) }
{
    let area = world.sarea(alloc)?;
    let picture = area.to_bytes(alloc)?;
    Ok(Output {
        picture,
        notes: Bytes::new(alloc),
    })
}

/// What is shown of a world.
fn given(alloc: Global, shown: Shown, world: &World) -> Result<Output, OutOfMemory>
    ensures picture { IfOk result (λ o. o.picture ≡ picture_of shown world.now.scene world.now.events) }
    ensures notes { IfOk result (λ o. o.notes ≡ notes_of shown world.now.events) }
{
    match shown {
        Shown::Turns => screen_of(alloc, world.front(), world.journal()),
        Shown::Sarea => area_of(alloc, world),
    }
}

impl Running for Shown {
    type Input = Scene;

    ghost gives = { λ shown scene image text. GivesByForm shown scene image text };

    fn output_of(&self, alloc: Global, input: Scene) -> Result<Output, OutOfMemory> {
        let scene = Arc::new(alloc, input)?;
        let world = run(alloc, &scene)?;
        let output = given(alloc, *self, &world)?;
        Ok(output)
    }
}
