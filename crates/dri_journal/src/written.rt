//! Laws of the journals that runs have: their text is read again, and a journal of the scene without its schedule is one of
//! the scene.

ghost use Rattle.std.specs.Prelude.{◌≡◌, List, All, Ok};
ghost use Rattle.dri_base.specs.Ranges.{InRange};
ghost use Rattle.dri_base.specs.declared.journal.Entry.{Entry};
ghost use Rattle.dri_base.specs.declared.scene.Scene.{Scene};
ghost use Rattle.dri_core.specs.Runs.{HoldRun, Whole, plain};
ghost use Rattle.dri_journal.specs.Journals.{EntryInRange, journal_text};
ghost use Rattle.dri_journal.specs.Readings.{journal_of_text};

/// The text of a hold-run is read again: the numbers of its entries are in the ranges of their lines.
pub fn runs_read_back()
    ensures in_range { (s : Scene) (journal : List Entry) → InRange s → HoldRun s journal → All EntryInRange journal }
    ensures read { (s : Scene) (journal : List Entry) → InRange s → HoldRun s journal → journal_of_text (journal_text journal) ≡ Ok journal }
{}

/// A journal of the scene without its schedule, as that of threads is, is a hold-run of the scene as it was given, and whole
/// where it was.
pub fn plain_runs_stay()
    ensures run { (s : Scene) (journal : List Entry) → HoldRun (plain s) journal → HoldRun s journal }
    ensures whole { (s : Scene) (journal : List Entry) → Whole (plain s) journal → Whole s journal }
{}
