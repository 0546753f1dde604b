//! The guarded value: the scene, the journal, and what the journal leaves. Its type keeps that the journal is a hold-run
//! of the scene, and that the holdings are those of the world after it.

ghost use Rattle.std.specs.Prelude.{◌≡◌, ◌≤◌, ◌<◌, [], Contains, IfOk, OnOk, OnErr};
ghost use Rattle.std.specs.Arc.{arc_value};
ghost use Rattle.dri_base.specs.Planes.{plane};
ghost use Rattle.dri_base.specs.Ranges.{InRange, client_numbers};
ghost use Rattle.dri_core.specs.Frames.{Own, SoloLeft};
ghost use Rattle.dri_core.specs.Runs.{Confined, HoldRun};
ghost use Rattle.dri_shared.specs.Sides.{borrow_of, client_at, served_at, server_borrow_of, value_at};
ghost use Rattle.dri_shared.specs.States.{IsSameRun, world_of};

use crate::client_side::ClientSide;
use crate::holdings::{Holdings, PLACES};
use crate::server_side::ServerSide;
use dri_base::{Entry, OutOfMemory, Rgb, Scene};
use dri_card::Card;
use dri_clips::Board;
use dri_plane::Plane;
use dri_texheap::Regions;
use std::alloc::Global;
use std::marker::Model;
use std::sync::Arc;

/// The value under the lock. Contracts see its scene, its journal, and the number of entries for which there is room;
/// all else is what the journal leaves.
#[derive(Drop)]
pub struct Shared {
    pub(crate) scene: Arc<Scene, Global>,
    pub(crate) journal: Vec<Entry>,
    pub(crate) holdings: Holdings,
}

impl Model for Shared {
    ghost use Rattle.std.specs.Prelude.{◌-◌, vec_capacity, vec_len};
    ghost use Rattle.std.specs.Arc.{arc_value};
    ghost use Rattle.dri_shared.specs.States.{SharedState};

    ghost Value = { SharedState };

    ghost use Rattle.dri_shared.specs.Holdings.{IsFaithful};

    ghost view = { λ a. record { scene = arc_value a.scene; journal = a.journal.items; spare = vec_capacity a.journal - vec_len a.journal } };

    ghost invariant = { λ a. IsFaithful (arc_value a.scene) a.journal.items a.holdings };
}

impl Shared {
    /// The value of a scene at the opening, with an empty journal. The scene is in range.
    pub fn new(alloc: Global, scene: Arc<Scene, Global>) -> Result<Shared, OutOfMemory>
        requires { InRange (arc_value scene) }
        ensures scene { IfOk result (λ shared. shared.scene ≡ arc_value scene) }
        ensures journal { IfOk result (λ shared. shared.journal ≡ []) }
    {
        let card = Card::new(alloc, &scene)?;
        let board = Board::new(alloc, &scene)?;
        let regions = Regions::new(scene.regions);
        let holdings = Holdings {
            card,
            board,
            regions,
            places: [1; PLACES],
            owner: 0,
            holder: None,
            left: 1,
            made: 0,
        };
        Ok(Shared {
            scene,
            journal: Vec::new(alloc),
            holdings,
        })
    }

    /// Makes room for so many more entries.
    pub fn reserve(&mut self, n: u32) -> Result<(), OutOfMemory>
        ensures run { IsSameRun self.old self.new }
        ensures ok { OnOk result (n ≤ self.new.spare) }
        ensures err { OnErr result (self.new ≡ self.old) }
    {
        self.journal.reserve(n as usize)?;
        Ok(())
    }

    /// The side of a client of the scene.
    pub fn client_side(&mut self, client: u32) -> ClientSide<'_>
        requires { Contains (client_numbers self.old.scene.clients) client }
        ensures borrow { borrow_of result ≡ self.entry.ghost_name }
        ensures value { value_at result ≡ self.old }
        ensures client { client_at result ≡ client }
    {
        ClientSide {
            shared: self,
            client,
        }
    }

    /// The server's side.
    pub fn server_side(&mut self) -> ServerSide<'_>
        ensures borrow { server_borrow_of result ≡ self.entry.ghost_name }
        ensures value { served_at result ≡ self.old }
    {
        ServerSide { shared: self }
    }

    /// The entries, in order. They are a hold-run of the scene, which is in range. No command of it changes a pixel
    /// outside its client's clips of that moment, each triangle is drawn with its own client's state and texels, and each
    /// frame that stood is left in its client's clips as it is drawn alone.
    pub fn journal(&self) -> &[Entry]
        ensures same { result.now ≡ self.now.journal }
        ensures in_range { InRange self.now.scene }
        ensures run { HoldRun self.now.scene self.now.journal }
        ensures confined { Confined self.now.scene self.now.journal }
        ensures own { Own self.now.scene self.now.journal }
        ensures solo { SoloLeft self.now.scene self.now.journal }
    {
        self.journal.as_slice()
    }

    /// What the screen shows after the journal's entries.
    pub fn front(&self) -> &Plane<Rgb>
        ensures width { result.now.width ≡ self.now.scene.width }
        ensures height { result.now.height ≡ self.now.scene.height }
        ensures pixels { result.now.pixels ≡ plane self.now.scene.width self.now.scene.height (world_of self.now).front }
    {
        self.holdings.card.front()
    }

    /// The client that holds after the journal's entries; `None` exactly where nobody does.
    pub fn holder(&self) -> Option<u32>
        ensures { result ≡ (world_of self.now).holder }
    {
        self.holdings.holder
    }
}
