//! What the check of a journal counts.

ghost use Rattle.std.specs.Prelude.{◌≡◌, List, true};
ghost use Rattle.dri_base.specs.declared.journal.Entry.{Entry};
ghost use Rattle.dri_base.specs.declared.scene.Scene.{Scene};
ghost use Rattle.dri_core.specs.Frames.{FrameRan, FrameStood, Counts};
ghost use Rattle.dri_core.specs.Runs.{HoldRun, Whole};
ghost use Rattle.dri_base.specs.Ranges.{InRange};
ghost use Rattle.dri_meaning.specs.Reports.{tally, is_whole};

/// The check counts exactly the frames that ran and those that stood, and tells exactly which hold-runs are whole.
pub fn counted()
    ensures frames { (s : Scene) (journal : List Entry) → HoldRun s journal → Counts (FrameRan s journal) (tally s journal).frames }
    ensures stood { (s : Scene) (journal : List Entry) → HoldRun s journal → Counts (FrameStood s journal) (tally s journal).stood }
    ensures whole { (s : Scene) (journal : List Entry) → InRange s → HoldRun s journal → is_whole s journal ≡ true → Whole s journal }
    ensures not_whole { (s : Scene) (journal : List Entry) → Whole s journal → is_whole s journal ≡ true }
{}
