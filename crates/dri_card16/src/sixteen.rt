//! The laws of hold-runs on the card that keeps sixteen bits of a colour and draws lines.

ghost use Rattle.std.specs.Prelude.{List};
ghost use Rattle.dri_base.specs.Ranges.{InRange};
ghost use Rattle.dri_base.specs.declared.journal.Entry.{Entry};
ghost use Rattle.dri_base.specs.declared.scene.Scene.{Scene};
ghost use Rattle.dri_card16.specs.PixelRules.{KeepsForGood};
ghost use Rattle.dri_card16.specs.RuleRuns.{ConfinedWith, PlanesAreKept, SoloLeftWith, StoodIsShownWith};
ghost use Rattle.dri_card16.specs.Sixteen.{after16, rule16};
ghost use Rattle.dri_core.specs.Runs.{HoldRun};

/// The card keeps its colours for good, and each colour of its planes is one that a word shows.
pub fn for_good16()
    ensures rule { KeepsForGood rule16 }
    ensures planes { (s : Scene) (journal : List Entry) → PlanesAreKept rule16 (after16 s journal) }
{}

/// No command changes a pixel outside its client's clips of that moment.
pub fn confined16()
    ensures { (s : Scene) (journal : List Entry) → ConfinedWith rule16 s journal }
{}

/// Each frame that stood is left in its client's clips as it is drawn alone on sixteen bits, right after its swap and for as long
/// as nothing of its client's comes between.
pub fn alone16()
    ensures left { (s : Scene) (journal : List Entry) → InRange s → HoldRun s journal → SoloLeftWith rule16 s journal }
    ensures swapped { (s : Scene) (journal : List Entry) → InRange s → HoldRun s journal → StoodIsShownWith rule16 s journal }
{}
