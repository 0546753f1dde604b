//! An engine, with counts of the jobs that were put and of the times it was made idle.

ghost use Rattle.std.specs.Prelude.{◌≡◌, ◌<◌, ◌+◌, [], length, IfOk};
ghost use Rattle.std.specs.Arc.{arc_value};
ghost use Rattle.dri_base.specs.Limits.{word_end};
ghost use Rattle.dri_base.specs.Ranges.{InRange, IsWithin};
ghost use Rattle.dri_ring.specs.Counts.{idled, nothing_put, put_once, waiting_after};
ghost use Rattle.dri_ring.specs.Follows.{counted};
ghost use Rattle.dri_ring.specs.Jobs.{IsDrawable, IsGood, effect};
ghost use Rattle.dri_ring.specs.Rings.{IsOpening, OnlyRan, settled};

use crate::engine::Engine;
use crate::job::Job;
use dri_base::{OutOfMemory, Scene};
use std::alloc::Global;
use std::sync::Arc;

/// An engine; how many jobs were put, how often it was made idle while a job waited, and the most that waited after a put.
#[derive(Drop)]
pub struct CountedRing {
    pub engine: Engine,
    pub puts: u32,
    pub idles: u32,
    pub most: u32,
}

impl CountedRing {
    /// The engine of a scene's opening. Nothing was counted.
    pub fn opening(
        alloc: Global,
        scene: &Arc<Scene, Global>,
        room: u32,
    ) -> Result<CountedRing, OutOfMemory>
        requires scene { InRange (arc_value scene.now) }
        requires room { IsWithin 1 64 room }
        ensures engine { IfOk result (λ ring. IsOpening (arc_value scene.now) room ring.engine) }
        ensures counts { IfOk result (λ ring. counted ring ≡ nothing_put) }
    {
        let engine = Engine::new(alloc, scene.clone()?, room)?;
        Ok(CountedRing {
            engine,
            puts: 0,
            idles: 0,
            most: 0,
        })
    }

    /// Puts a job, and counts it. Where the ring is full one step is made before.
    pub fn put(&mut self, job: Job)
        requires good { IsGood self.old.engine.scene job }
        requires drawable { IsDrawable job }
        requires few { self.old.puts + 1 < word_end }
        ensures settled { settled self.new.engine ≡ effect self.old.engine.scene (settled self.old.engine) job }
        ensures others { OnlyRan self.old.engine self.new.engine }
        ensures counts { counted self.new ≡ put_once self.old.engine.room (counted self.old) }
    {
        put_last(&mut self.engine, job);
        self.puts += 1;
        self.most = self.most.max(self.engine.len());
    }

    /// Makes the ring idle, which is counted where a job waited.
    pub fn wait(&mut self)
        requires few { self.old.idles + 1 < word_end }
        ensures empty { self.new.engine.pending ≡ [] }
        ensures settled { settled self.new.engine ≡ settled self.old.engine }
        ensures others { OnlyRan self.old.engine self.new.engine }
        ensures counts { counted self.new ≡ idled (counted self.old) }
    {
        if self.engine.len() != 0 {
            self.idles += 1;
        }
        self.engine.idle();
    }
}

// Puts a job last. Where the ring is full one step is made before.
fn put_last(engine: &mut Engine, job: Job)
    requires good { IsGood engine.old.scene job }
    requires drawable { IsDrawable job }
    ensures settled { settled engine.new ≡ effect engine.old.scene (settled engine.old) job }
    ensures others { OnlyRan engine.old engine.new }
    ensures waiting { length engine.new.pending ≡ waiting_after engine.old.room (length engine.old.pending) }
{
    engine.len();
    if let Err(full) = engine.put(job) {
        engine.step();
        engine.put(full.job).ok();
    }
}
