//! The laws of hold-runs: the journals that the table of entries allows.

ghost use Rattle.std.specs.Prelude.{◌⊎◌, ◌≡◌, ◌≢◌, ◌≤◌, ◌+◌, length, ◌++◌, ℕ, List, true, Some, Contains};
ghost use Rattle.std.specs.List.{All};
ghost use Rattle.dri_base.specs.declared.command.Command.{Command};
ghost use Rattle.dri_base.specs.declared.journal.Entry.{Entry};
ghost use Rattle.dri_base.specs.declared.scene.Scene.{Scene};
ghost use Rattle.dri_core.specs.Decide.{is_hold_run};
ghost use Rattle.dri_core.specs.FirstBad.{IsFirstBad};
ghost use Rattle.dri_core.specs.Frames.{Own, SoloLeft, StampTells};
ghost use Rattle.dri_core.specs.Runs.{after, HoldRun, Confined, LightIsCurrent, ActingIsCurrent, OwnerIsClean, Intact, BeginsWith, since, client_of, most_age, most_stamp};
ghost use Rattle.dri_base.specs.Ranges.{InRange, client_numbers};
ghost use Rattle.dri_base.specs.Scenes.{commands_of};
ghost use Rattle.dri_core.specs.Solo.{frame, IsFrame};

use dri_base::{Entry, Scene};

/// The central invariant. Where nobody holds and a client left last and is out, its stamp, its copy of the clips, its
/// origin and its local age are current and it owns the card, so its light lock needs no check. The same holds of a
/// client that may act. What the owner hasn't marked dirty is in the card, and placed textures that no newer region
/// has touched are intact: small ones stand apart in their client's shared regions, and no region is two clients'.
pub fn central()
    ensures light { (s : Scene) (journal : List Entry) → InRange s → HoldRun s journal → LightIsCurrent s (after s journal) }
    ensures acting { (s : Scene) (journal : List Entry) → InRange s → HoldRun s journal → ActingIsCurrent s (after s journal) }
    ensures clean { (s : Scene) (journal : List Entry) → InRange s → HoldRun s journal → OwnerIsClean s (after s journal) }
    ensures intact { (s : Scene) (journal : List Entry) → InRange s → HoldRun s journal → Intact s (after s journal) }
{}

/// No command changes a pixel outside its client's clips of that moment.
pub fn confined()
    ensures { (s : Scene) (journal : List Entry) → InRange s → HoldRun s journal → Confined s journal }
{}

/// An entry leaves a window's stamp exactly where it doesn't touch the window; then the window's clips and its origin are
/// as before. Window numbers go up to 64.
pub fn stamped()
    ensures { (s : Scene) (journal : List Entry) → InRange s → HoldRun s journal → (e : Entry) (n : ℕ) → n ≤ 64 → StampTells s (after s journal) e n }
{}

/// Each triangle is drawn with its own client's state and texels.
pub fn own()
    ensures { (s : Scene) (journal : List Entry) → InRange s → HoldRun s journal → Own s journal }
{}

/// Each frame that stood is left in its client's clips as it is drawn alone.
pub fn solo_left()
    ensures { (s : Scene) (journal : List Entry) → InRange s → HoldRun s journal → SoloLeft s journal }
{}

/// Entries of others leave a client's private part as it was. `client` is a client of the scene; `now` begins with
/// `seen`, and goes on with no entry of this client.
pub fn foreign(scene: &Scene, client: u32, seen: &[Entry], now: &[Entry])
    requires in_range { InRange scene.now }
    requires there { Contains (client_numbers scene.now.clients) client }
    requires seen { HoldRun scene.now seen.now }
    requires now { HoldRun scene.now now.now }
    requires begins { BeginsWith now.now seen.now }
    requires others { All (λ e. client_of e ≢ client) (since seen.now now.now) }
    ensures { (after scene.now now.now).client client ≡ (after scene.now seen.now).client client }
{}

/// A journal is a hold-run exactly where the test says so.
pub fn decided()
    ensures yes { (s : Scene) (journal : List Entry) → is_hold_run s journal ≡ true → HoldRun s journal }
    ensures no { (s : Scene) (journal : List Entry) → HoldRun s journal → is_hold_run s journal ≡ true }
{}

/// A journal is a hold-run, or it has a first entry that isn't legal after those before it, and never both. That entry's
/// number, counted from 1, is one alone.
pub fn judged()
    ensures either { (s : Scene) (journal : List Entry) → HoldRun s journal ⊎ ((n : ℕ) × IsFirstBad s journal n) }
    ensures not_both { (s : Scene) (journal : List Entry) (n : ℕ) → HoldRun s journal → IsFirstBad s journal n → ⊥ }
    ensures one { (s : Scene) (journal : List Entry) (m n : ℕ) → IsFirstBad s journal m → IsFirstBad s journal n → m ≡ n }
{}

/// A script's frame k is found exactly where it exists and begins with a clear: then at its last clear and its swap.
pub fn frames()
    ensures found { (commands : List Command) (k first last : ℕ) → frame commands k ≡ Some (first, last) → IsFrame commands k first last }
    ensures there { (commands : List Command) (k first last : ℕ) → IsFrame commands k first last → frame commands k ≡ Some (first, last) }
{}

/// How high counts can rise over a hold-run: the global age to 300,000, the stamps to 268,321, a client's place to one
/// behind its last command, and the number of changes made to that of all changes.
pub fn bounded()
    ensures age { (s : Scene) (journal : List Entry) → InRange s → HoldRun s journal → (after s journal).heap.global ≤ most_age }
    ensures stamps { (s : Scene) (journal : List Entry) → InRange s → HoldRun s journal → (after s journal).counter ≤ most_stamp }
    ensures places { (s : Scene) (journal : List Entry) → InRange s → HoldRun s journal → (c : ℕ) → ((after s journal).client c).place ≤ length (commands_of s c) + 1 }
    ensures made { (s : Scene) (journal : List Entry) → InRange s → HoldRun s journal → (after s journal).made ≤ length s.changes }
{}
