//! The world: the shared value with its lock, a client for each script in the scripts' order, and the events made. Its type
//! keeps that the events are a run of the scene, and that each part is that of the core which they leave. Room for an
//! event is made before the event, so want of memory leaves all as it was.

ghost use Rattle.std.specs.Prelude.{◌≡◌, [], Contains, IfOk};
ghost use Rattle.std.specs.Arc.{arc_value};
ghost use Rattle.dri_base.specs.Planes.{plane};
ghost use Rattle.dri_base.specs.Ranges.{InRange, client_numbers};
ghost use Rattle.dri_core.specs.CoreRuns.{ConfinedRun, IsRun, OwnRun, SoloLeftRun, world_of};
ghost use Rattle.dri_core.specs.Cores.{journal_of, word_number};
ghost use Rattle.dri_core.specs.Runs.{HoldRun, after};
ghost use Rattle.dri_shared.specs.Areas.{area_of};
ghost use Rattle.dri_world.specs.Courses.{core_of};

use crate::lock::{Lock, LockWord};
use crate::site::Site;
use dri_base::{Entry, Event, OutOfMemory, Rgb, Scene};
use dri_client::place_of;
use dri_driver::{Client, clients_of};
use dri_kernel::Queue;
use dri_plane::Plane;
use dri_sarea::Sarea;
use dri_shared::Shared;
use std::alloc::Global;
use std::marker::Model;
use std::sync::Arc;

/// A world on one thread. Contracts see its scene and the list of the events made in it; all else is the core that these
/// events leave.
#[derive(Drop)]
pub struct World {
    pub(crate) scene: Arc<Scene, Global>,
    pub(crate) site: Site,
    pub(crate) clients: Vec<Client>,
    pub(crate) events: Vec<Event>,
}

impl Model for World {
    ghost use Rattle.std.specs.Arc.{arc_value};
    ghost use Rattle.dri_world.specs.Courses.{Course};
    ghost use Rattle.dri_world.specs.Holding.{IsHeld};

    ghost Value = { Course };

    ghost view = { λ a. record { scene = arc_value a.scene; events = a.events.items } };

    ghost invariant = { λ a. IsHeld (arc_value a.scene) a.events.items a.site a.clients.items };
}

impl World {
    /// The world of a scene in range, at the opening.
    pub fn new(alloc: Global, scene: Arc<Scene, Global>) -> Result<World, OutOfMemory>
        requires { InRange (arc_value scene) }
        ensures { IfOk result (λ w. w ≡ record { scene = arc_value scene; events = [] }) }
    {
        let shared = Shared::new(alloc, scene.clone()?)?;
        let clients = clients_of(alloc, &scene)?;
        let lock = Lock {
            word: LockWord::left_by(1),
            queue: Queue::new(),
        };
        Ok(World {
            scene,
            site: Site { shared, lock },
            clients,
            events: Vec::new(alloc),
        })
    }

    /// The lock word as a number: bit 31 says held, bit 30 contended, and the rest is a context.
    pub fn word(&self) -> u32
        ensures { result ≡ word_number (core_of self.now).word }
    {
        self.site.lock.word.number()
    }

    /// The actors that wait for the lock, the first first; the server is 0.
    pub fn queue(&self) -> &[u32]
        ensures { result.now ≡ (core_of self.now).queue }
    {
        self.site.lock.queue.actors()
    }

    /// Whether a client of the scene was stopped, and its death is yet to come.
    pub fn is_dying(&self, client: u32) -> bool
        requires { Contains (client_numbers self.now.scene.clients) client }
        ensures { result ≡ (core_of self.now).dying client }
    {
        let Some(place) = place_of(self.scene.clients.as_slice(), client) else {
            unreachable!();
        };
        self.clients[place].is_dying()
    }

    /// All events made, in order. They are a run of the scene, which is in range: no command of it changes a pixel
    /// outside its client's clips of that moment, each triangle is drawn with its own client's state and texels, and each
    /// frame that stood is left in its client's clips as it is drawn alone.
    pub fn events(&self) -> &[Event]
        ensures same { result.now ≡ self.now.events }
        ensures in_range { InRange self.now.scene }
        ensures run { IsRun self.now.scene self.now.events }
        ensures confined { ConfinedRun self.now.scene self.now.events }
        ensures own { OwnRun self.now.scene self.now.events }
        ensures solo { SoloLeftRun self.now.scene self.now.events }
    {
        self.events.as_slice()
    }

    /// The journal: the events without marks, queueing and stops. It is a hold-run of the scene, and leaves the world
    /// that the events leave.
    pub fn journal(&self) -> &[Entry]
        ensures same { result.now ≡ journal_of self.now.events }
        ensures run { HoldRun self.now.scene (journal_of self.now.events) }
        ensures world { after self.now.scene (journal_of self.now.events) ≡ world_of self.now.scene self.now.events }
    {
        self.site.shared.journal()
    }

    /// What the screen shows now.
    pub fn front(&self) -> &Plane<Rgb>
        ensures width { result.now.width ≡ self.now.scene.width }
        ensures height { result.now.height ≡ self.now.scene.height }
        ensures pixels { result.now.pixels ≡ plane self.now.scene.width self.now.scene.height (world_of self.now.scene self.now.events).front }
    {
        self.site.shared.front()
    }

    /// The shared area as it stands now, with the lock word.
    pub fn sarea(&self, alloc: Global) -> Result<Sarea, OutOfMemory>
        ensures { IfOk result (λ area. area ≡ area_of self.now.scene (world_of self.now.scene self.now.events) (word_number (core_of self.now).word)) }
    {
        let word = self.site.lock.word.number();
        self.site.shared.sarea(alloc, word)
    }
}
