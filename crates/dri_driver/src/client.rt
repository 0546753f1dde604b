//! A client: its number and script in the scene, its private part, and the copies of its window's clips and origin that
//! the part is without. Whether it is dying is kept apart from what it is doing, since a client that was stopped stands
//! in the world as before. Its clips are a region of its own, which a told client takes over; textures, commands and
//! planes are never copied.

ghost use Rattle.std.specs.Prelude.{◌≡◌, ◌⊎◌, [], Contains, IfOk, false, true};
ghost use Rattle.std.specs.Arc.{arc_value};
ghost use Rattle.dri_base.specs.Ranges.{InRange, client_numbers};
ghost use Rattle.dri_base.specs.Scenes.{commands_of, script_of};
ghost use Rattle.dri_base.specs.declared.journal.Entry.TheVariants.{Gone, Info};
ghost use Rattle.dri_core.specs.Phases.{Asking, Dead, Out};
ghost use Rattle.dri_core.specs.Privates.{opening_part};
ghost use Rattle.dri_shared.specs.Copies.{IsCopyOf, IsToldOf, corner};
ghost use Rattle.dri_shared.specs.States.{Added, SharedState, world_of};
ghost use Rattle.dri_driver.specs.Clients.{copy_of, next_command, part_of};
ghost use Rattle.dri_driver.specs.Fits.{Fits};
ghost use Rattle.dri_driver.specs.Needs.{need_of};
ghost use Rattle.dri_driver.specs.Shown.{shown_phase};

mod act;
mod prepare;
mod run;
mod take;

use crate::ahead::commands_ahead;
use crate::phase::{Phase, shown};
use dri_base::{ClientScript, Command, OutOfMemory, Point, Scene, Steps};
use dri_client::{ClientPart, place_of};
use dri_rect::Region;
use dri_shared::Told;
use std::alloc::Global;
use std::marker::{Brand, Model};
use std::sync::Arc;
use std::sync::ledger::{Blank, Ledger};

// The most entries that a command brings: a triangle's place, emit and run.
const ENTRIES_EACH: u32 = 3;

// What a hold may add beside its commands: it comes in, may say that its stamp is old, and goes out. The rule leaves room for one
// entry more.
const ENTRIES_MORE: u32 = 4;

/// What one client keeps. Contracts see its scene and its number, whether it is dying, and its private part.
#[derive(Drop)]
pub struct Client {
    scene: Arc<Scene, Global>,
    index: usize,
    number: u32,
    is_dying: bool,
    clips: Region,
    origin: Point,
    part: ClientPart,
}

impl Model for Client {
    ghost use Rattle.dri_driver.specs.Clients.{ClientState};

    ghost Value = { ClientState };

    ghost use Rattle.dri_driver.specs.Kept.{state_of, IsClient};

    ghost view = { state_of };

    ghost invariant = { λ c. IsClient (state_of c) c.index };
}

/// The empty copy of clips that a client begins with. It counts no step, and its call wants a counter.
fn no_clips<L: Ledger>(blank: Blank, alloc: Global) -> Region
    requires name { blank.name ≡ L.name }
    requires parts { blank.parts ≡ L.parts }
    requires one { L.parts ≡ 1 }
    ensures { result ≡ [] }
{
    Region::empty(alloc, &mut Steps::<L>::new(blank))
}

impl Client {
    /// A client of a scene in range, as the run begins: with its first command next, an empty copy of its clips, the
    /// state that every script begins with, all of it dirty, and no texture placed.
    pub fn new(alloc: Global, scene: Arc<Scene, Global>, client: u32) -> Result<Client, OutOfMemory>
        requires in_range { InRange (arc_value scene) }
        requires there { Contains (client_numbers (arc_value scene).clients) client }
        ensures scene { IfOk result (λ made. made.scene ≡ arc_value scene) }
        ensures number { IfOk result (λ made. made.number ≡ client) }
        ensures living { IfOk result (λ made. made.dying ≡ false) }
        ensures part { IfOk result (λ made. part_of made ≡ opening_part (commands_of (arc_value scene) client)) }
    {
        let Some(index) = place_of(scene.clients.as_slice(), client) else {
            unreachable!();
        };
        let part = ClientPart::new(alloc, scene.clients.get(index), scene.region_size)?;
        Ok(Client {
            scene,
            index,
            number: client,
            is_dying: false,
            clips: no_clips::<Brand>(Blank::new(1), alloc),
            origin: Point { x: 0, y: 0 },
            part,
        })
    }

    /// Its number in the scene.
    pub fn number(&self) -> u32
        ensures { result ≡ self.now.number }
    {
        self.number
    }

    /// Whether it was stopped, and its death is yet to come.
    pub fn is_dying(&self) -> bool
        ensures { result ≡ self.now.dying }
    {
        self.is_dying
    }

    /// What it is doing: dying, where it was stopped, and else the phase of its part.
    pub fn phase(&self) -> Phase
        ensures { result ≡ shown_phase self.now.dying self.now.phase }
    {
        shown(self.part.activity(), self.is_dying)
    }

    /// The most entries that its next hold can add: 3 for each command up to the next swap, yield or end, and 4 more.
    pub fn need(&self) -> u32
        ensures { result ≡ need_of self.now }
    {
        let (_, ahead) = self
            .script()
            .commands
            .as_slice()
            .split_at(self.part.place() as usize - 1);
        ENTRIES_EACH * commands_ahead(ahead) + ENTRIES_MORE
    }

    /// It takes in what it is told of its window, whose clips are pixels of the screen, and is out again. Told what a
    /// value's world shows, it fits what the entry leaves, where it fitted the value before.
    pub fn told(&mut self, told: Told)
        requires asking { self.old.phase ≡ Asking }
        requires clips { IsCopyOf told.clips (copy_of told.clips) }
        ensures state { self.new ≡ record self.old { phase = Out; stamp = told.stamp; clips = told.clips; origin = corner told.origin } }
        ensures fits { (v w : SharedState) → Fits self.old v → Added v w (Info self.old.number) → IsToldOf v.scene (world_of v) self.old.number told → Fits self.new w }
    {
        let Told {
            stamp,
            origin,
            clips,
        } = told;
        self.part.told(stamp);
        self.origin = origin;
        self.clips = clips;
    }

    /// It is stopped, and only its death is left. It holds nothing and hasn't ended.
    pub fn stop(&mut self)
        requires resting { (self.old.phase ≡ Out) ⊎ (self.old.phase ≡ Asking) }
        requires living { self.old.dying ≡ false }
        ensures { self.new ≡ record self.old { dying = true } }
    {
        self.is_dying = true;
    }

    /// It has died. It fits what the entry leaves, where it fitted the value before.
    pub fn gone(&mut self)
        ensures state { self.new ≡ record self.old { dying = false; phase = Dead } }
        ensures fits { (v w : SharedState) → Fits self.old v → Added v w (Gone self.old.number) → Fits self.new w }
    {
        self.is_dying = false;
        self.part.gone();
    }

    // Its script.
    fn script(&self) -> &ClientScript
        ensures { result.now ≡ script_of self.now.scene self.now.number }
    {
        self.scene.clients.get(self.index)
    }

    // Its next command, where one is left.
    fn next_command(&self) -> Option<Command>
        ensures { result ≡ next_command self.now }
    {
        self.part.next_command(self.script())
    }
}
