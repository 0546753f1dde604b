//! What lasts from the beginning of a journal to its end, and by which a journal is whole. Who has seen a beginning of
//! the journal, and knows whose entries came later, learns this of the whole.

ghost use Rattle.std.specs.Prelude.{◌≡◌, ◌≢◌, ◌++◌, length, ℕ, List, true, Contains};
ghost use Rattle.std.specs.List.{All};
ghost use Rattle.dri_base.specs.declared.journal.Entry.{Entry};
ghost use Rattle.dri_base.specs.declared.scene.Scene.{Scene};
ghost use Rattle.dri_base.specs.Ranges.{InRange, client_numbers};
ghost use Rattle.dri_core.specs.Phases.{is_done};
ghost use Rattle.dri_core.specs.Runs.{HoldRun, Whole, after, client_of, plain};

/// Entries of clients leave the number of changes made. Who has ended or is dead stays so, and once all changes are
/// made they stay made.
pub fn lasting()
    ensures made { (s : Scene) (seen later : List Entry) → All (λ e. client_of e ≢ 0) later → (after s (seen ++ later)).made ≡ (after s seen).made }
    ensures done { (s : Scene) (seen later : List Entry) (c : ℕ) → HoldRun s (seen ++ later) → is_done ((after s seen).client c).phase ≡ true → is_done ((after s (seen ++ later)).client c).phase ≡ true }
    ensures all_made { (s : Scene) (seen later : List Entry) → HoldRun s (seen ++ later) → (after s seen).made ≡ length s.changes → (after s (seen ++ later)).made ≡ length s.changes }
{}

/// A hold-run is whole where each client of the scene has ended or is dead and all changes are made.
pub fn whole_by_parts()
    ensures { (s : Scene) (journal : List Entry) → InRange s → HoldRun s journal → ((c : ℕ) → Contains (client_numbers s.clients) c → is_done ((after s journal).client c).phase ≡ true) → (after s journal).made ≡ length s.changes → Whole s journal }
{}

/// A scene in range is in range without its schedule too.
pub fn plain_in_range()
    ensures { (s : Scene) → InRange s → InRange (plain s) }
{}
