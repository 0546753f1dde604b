//! The steps of a hold's ends, and of what is done to a client that holds nothing: it takes the lock, says that its stamp
//! is old, leaves, is told of its window, and dies. A client that took the lock lightly is as the last hold left it. A
//! client that the kernel let in finds out what others did: it makes all groups dirty where another owned the card,
//! loses the textures and the shared regions of which a region is newer than the age that it knows, and compares the stamp.

ghost use Rattle.std.specs.Prelude.{◌≡◌, ◌+◌, ◌==◌, ℕ, ℤ, Bool, if◌then◌else◌, not};
ghost use Rattle.dri_base.specs.Scenes.{script_of, window_of};
ghost use Rattle.dri_base.specs.declared.journal.Entry.TheVariants.{Gone, Info, Kernel, Leave, Light, Stale};
ghost use Rattle.dri_base.specs.declared.scene.Scene.{Scene};
ghost use Rattle.dri_core.specs.Phases.{Ask, Asking, Dead, In, Old, Out};
ghost use Rattle.dri_core.specs.Worlds.{World};
ghost use Rattle.dri_model.specs.Groups.{all_where, with_bound};
ghost use Rattle.dri_texheap.specs.Placements.{AreInside};
ghost use Rattle.dri_texheap.specs.RegionStates.{heap_of};
ghost use Rattle.dri_client.specs.Kept.{IsKept, StaysKept};
ghost use Rattle.dri_client.specs.Parts.{Agrees, part_after, private_of};
ghost use Rattle.dri_client.specs.Steps.{caught_up};

use super::ClientPart;
use crate::activity::Activity;
use crate::script::is_last;
use dri_base::ClientScript;
use dri_context::ContextState;
use dri_texheap::Regions;

// Makes all groups dirty where another owned the card, and the bound texture's where it was lost.
fn mark(context: &mut ContextState, is_new_owner: bool, is_lost: bool)
    ensures state { context.new.state ≡ context.old.state }
    ensures dirty { context.new.dirty ≡ with_bound is_lost (all_where is_new_owner context.old.dirty) }
{
    if is_new_owner {
        context.dirty_all();
    }
    if is_lost {
        context.dirty_bound();
    }
}

impl ClientPart {
    /// It took the lock by the light exchange, and may act.
    pub fn light(&mut self)
        requires out { self.old.phase ≡ Out }
        ensures state { self.new ≡ record self.old { phase = In } }
        ensures part { (s : Scene) (w : World) (c : ℕ) → Agrees self.old (w.client c) → Agrees self.new (part_after s w (Light c) c) }
        ensures kept { StaysKept self.old self.new }
    {
        self.activity = Activity::In;
    }

    /// The kernel let it in: with these regions, its window's stamp, and whether another owned the card. It is stale
    /// exactly where that stamp isn't the one that it was told, and else may act.
    pub fn kernel(&mut self, regions: &Regions, stamp: u32, is_new_owner: bool) -> bool
        requires out { self.old.phase ≡ Out }
        requires inside { AreInside regions.now.count self.old.placed }
        ensures stale { result ≡ not (self.old.stamp == stamp) }
        ensures phase { self.new.phase ≡ (if result then Old else In) }
        ensures size { self.new.placed.region_size ≡ self.old.placed.region_size }
        ensures part { (s : Scene) (w : World) (c found : ℕ) → Agrees self.old (w.client c) → heap_of regions.now ≡ w.heap → stamp ≡ w.stamps (window_of s c) → is_new_owner ≡ not (w.owner == c + 1) → Agrees self.new (part_after s w (Kernel c found) c) }
        ensures kept { StaysKept self.old self.new }
    {
        self.catch_up(regions, is_new_owner);
        let is_stale = stamp != self.stamp;
        self.activity = Activity::taken(is_stale);
        is_stale
    }

    // Takes in what others did to the card and to the regions.
    fn catch_up(&mut self, regions: &Regions, is_new_owner: bool)
        requires inside { AreInside regions.now.count self.old.placed }
        ensures size { self.new.placed.region_size ≡ self.old.placed.region_size }
        ensures part { (copy : ℕ → ℕ → Bool) (origin : ℤ × ℤ) → private_of self.new copy origin ≡ caught_up (heap_of regions.now) is_new_owner (private_of self.old copy origin) }
        ensures kept { StaysKept self.old self.new }
    {
        let bound = self.context.state().bound;
        let is_lost = self.placed.lose(regions, self.local, bound);
        mark(&mut self.context, is_new_owner, is_lost);
        self.local = regions.age();
    }

    /// It said that its stamp is old, and must leave to ask for information.
    pub fn stale(&mut self)
        requires old { self.old.phase ≡ Old }
        ensures state { self.new ≡ record self.old { phase = Ask } }
        ensures part { (s : Scene) (w : World) (c : ℕ) → Agrees self.old (w.client c) → Agrees self.new (part_after s w (Stale c) c) }
        ensures kept { StaysKept self.old self.new }
    {
        self.activity = Activity::Ask;
    }

    /// It left the lock: to ask, where it said that its stamp is old; else it is out, or has ended where no command is
    /// left.
    pub fn leave(&mut self, script: &ClientScript)
        ensures size { self.new.placed.region_size ≡ self.old.placed.region_size }
        ensures part { (s : Scene) (w : World) (c : ℕ) → script.now ≡ script_of s c → Agrees self.old (w.client c) → Agrees self.new (part_after s w (Leave c) c) }
        ensures kept { (regions : ℕ) → IsKept script.now regions self.old → IsKept script.now regions self.new }
    {
        let is_last = is_last(script, self.place - 1);
        self.activity = self.activity.left(is_last);
    }

    /// It was told its window's stamp, and is out again.
    pub fn told(&mut self, stamp: u32)
        requires asking { self.old.phase ≡ Asking }
        ensures state { self.new ≡ record self.old { phase = Out; stamp = stamp } }
        ensures part { (s : Scene) (w : World) (c : ℕ) → Agrees self.old (w.client c) → stamp ≡ w.stamps (window_of s c) → Agrees self.new (part_after s w (Info c) c) }
        ensures kept { StaysKept self.old self.new }
    {
        self.stamp = stamp;
        self.activity = Activity::Out;
    }

    /// It has died.
    pub fn gone(&mut self)
        ensures state { self.new ≡ record self.old { phase = Dead } }
        ensures part { (s : Scene) (w : World) (c : ℕ) → Agrees self.old (w.client c) → Agrees self.new (part_after s w (Gone c) c) }
        ensures kept { StaysKept self.old self.new }
    {
        self.activity = Activity::Dead;
    }
}
