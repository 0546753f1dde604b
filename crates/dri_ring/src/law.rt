//! What holds of puts and steps in any order.

ghost use Rattle.std.specs.Prelude.{◌≡◌, List, Option};
ghost use Rattle.dri_base.specs.declared.scene.Scene.{Scene};
ghost use Rattle.dri_ring.specs.Orders.{Standing, all_called, at_idle, jobs_put};
ghost use Rattle.dri_ring.specs.Rings.{after_jobs};
ghost use Rattle.dri_ring.specs.declared.job.Job.{Job};

/// Whatever steps are made between puts, once all jobs ran the planes are those that drawing each job at once would have
/// left. It does nothing: its contract is the law.
pub fn drawn_at_once()
    ensures { (s : Scene) (calls : List (Option Job)) (v : Standing) → at_idle s (all_called s v calls) ≡ after_jobs s (jobs_put calls) (at_idle s v) }
{}
