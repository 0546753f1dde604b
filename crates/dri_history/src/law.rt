//! What isn't told doesn't change the place.

ghost use Rattle.std.specs.Prelude.{◌≡◌, ◌++◌, ◌∷◌, [], ℕ, List, None};
ghost use Rattle.dri_base.specs.Ranges.{InRange};
ghost use Rattle.dri_base.specs.declared.journal.Entry.{Entry};
ghost use Rattle.dri_base.specs.declared.scene.Scene.{Scene};
ghost use Rattle.dri_core.specs.Runs.{HoldRun, after};
ghost use Rattle.dri_history.specs.Touches.{kind_at, sample};

/// An entry of a hold-run that doesn't touch a place leaves it in front, in back and in depth. It does nothing: its contract is
/// the law.
pub fn untouched()
    ensures { (s : Scene) (past : List Entry) (e : Entry) (x y : ℕ) → InRange s → HoldRun s (past ++ e ∷ []) → kind_at s (after s past) e x y ≡ None → sample (after s (past ++ e ∷ [])) x y ≡ sample (after s past) x y }
{}
