//! The laws of hold-runs on a card with a pixel rule of its own.

ghost use Rattle.std.specs.Prelude.{◌≡◌, List, ℕ, ℤ};
ghost use Rattle.dri_base.specs.Ranges.{InRange};
ghost use Rattle.dri_base.specs.declared.journal.Entry.{Entry};
ghost use Rattle.dri_base.specs.declared.scene.ClientScript.{ClientScript};
ghost use Rattle.dri_base.specs.declared.scene.Scene.{Scene};
ghost use Rattle.dri_card16.specs.PixelRules.{KeepsForGood, PixelRule, plain_rule, solo_frame_with};
ghost use Rattle.dri_card16.specs.RuleRuns.{ConfinedWith, DifferInPlanes, OwnWith, PlanesAreKept, SoloLeftWith, StoodIsShownWith, after_with};
ghost use Rattle.dri_core.specs.Runs.{HoldRun, after};
ghost use Rattle.dri_core.specs.Solo.{solo_frame};

/// Where the card keeps each colour as it is, a hold-run leaves the world as it ever does, and a frame alone is as ever.
pub fn as_ever()
    ensures alone { (p : ClientScript) (k : ℕ) (x y : ℤ) → solo_frame_with plain_rule p k x y ≡ solo_frame p k x y }
    ensures run { (s : Scene) (journal : List Entry) → InRange s → HoldRun s journal → after_with plain_rule s journal ≡ after s journal }
{}

/// The rest of the world is as ever, and each colour of the planes is all that is kept of it: so what isn't written stays.
pub fn beside()
    ensures rest { (rule : PixelRule) (s : Scene) (journal : List Entry) → DifferInPlanes (after_with rule s journal) (after s journal) }
    ensures kept { (rule : PixelRule) (s : Scene) (journal : List Entry) → KeepsForGood rule → PlanesAreKept rule (after_with rule s journal) }
{}

/// No command changes a pixel outside its client's clips of that moment.
pub fn confined()
    ensures { (rule : PixelRule) (s : Scene) (journal : List Entry) → KeepsForGood rule → ConfinedWith rule s journal }
{}

/// Each triangle is drawn by the card's rule with its own client's state and texels.
pub fn own()
    ensures { (rule : PixelRule) (s : Scene) (journal : List Entry) → OwnWith rule s journal }
{}

/// Each frame that stood is left in its client's clips as it is drawn alone, right after its swap and for as long as nothing
/// of its client's comes between.
pub fn alone()
    ensures left { (rule : PixelRule) (s : Scene) (journal : List Entry) → KeepsForGood rule → InRange s → HoldRun s journal → SoloLeftWith rule s journal }
    ensures swapped { (rule : PixelRule) (s : Scene) (journal : List Entry) → KeepsForGood rule → InRange s → HoldRun s journal → StoodIsShownWith rule s journal }
{}
