//! The laws of the core's own runs: lists of events, with lock word, queue, marks and stops.

ghost use Rattle.std.specs.Prelude.{◌≡◌, ℕ, List, true};
ghost use Rattle.dri_base.specs.declared.command.Item.{Item};
ghost use Rattle.dri_base.specs.declared.journal.Event.{Event};
ghost use Rattle.dri_base.specs.declared.scene.Scene.{Scene};
ghost use Rattle.dri_core.specs.CoreRuns.{IsRun, after_events, world_of, ConfinedRun, OwnRun, SoloLeftRun, WordHasImages, WordIsClean, WordIsCurrent};
ghost use Rattle.dri_core.specs.Cores.{journal_of, opening_core};
ghost use Rattle.dri_core.specs.Measures.{TurnsLeaveLess, ComesToAnEnd};
ghost use Rattle.dri_core.specs.Runs.{after, HoldRun, Whole};
ghost use Rattle.dri_base.specs.Ranges.{InRange};
ghost use Rattle.dri_core.specs.TurnLaws.{OneEvent, TurnsAreLegal, NoLightAfterMark, OneKill, KillsAreLegal, IsScheduled, IsPlayed};
ghost use Rattle.dri_core.specs.Turns.{all_pass, played, round, turns_and_rounds, IsTurns};

/// The journal of a run is a hold-run that leaves the run's world, so taking the marks, the queue and the stops away
/// changes nothing else. Where the word is unheld and is a client's context and the client is out, it is current, the
/// card's registers are those that its state spells, but for its dirty groups, and the card's bytes of its placed textures
/// are their images. The run is confined, own and solo left.
pub fn core()
    ensures journal { (s : Scene) (events : List Event) → InRange s → IsRun s events → HoldRun s (journal_of events) }
    ensures world { (s : Scene) (events : List Event) → after s (journal_of events) ≡ world_of s events }
    ensures current { (s : Scene) (events : List Event) → InRange s → IsRun s events → WordIsCurrent s (after_events s (opening_core s) events) }
    ensures clean { (s : Scene) (events : List Event) → InRange s → IsRun s events → WordIsClean s (after_events s (opening_core s) events) }
    ensures images { (s : Scene) (events : List Event) → InRange s → IsRun s events → WordHasImages s (after_events s (opening_core s) events) }
    ensures confined { (s : Scene) (events : List Event) → InRange s → IsRun s events → ConfinedRun s events }
    ensures own { (s : Scene) (events : List Event) → InRange s → IsRun s events → OwnRun s events }
    ensures solo { (s : Scene) (events : List Event) → InRange s → IsRun s events → SoloLeftRun s events }
{}

/// In a run, kills aside, an actor's turn makes its one legal event, and makes nothing that isn't legal. A kill makes the
/// one legal event that can come by it, and nothing that isn't legal where the schedule has the kill. So turns and such
/// kills make a run, and every run is what turns and kills of its events' actors make. Each event that a turn makes leaves
/// less to do. Once the first in the queue has marked the word, no light lock is legal until the unheld word was taken
/// again.
pub fn turns()
    ensures one { (s : Scene) (events : List Event) → InRange s → IsRun s events → OneEvent s (after_events s (opening_core s) events) }
    ensures legal { (s : Scene) (events : List Event) → InRange s → IsRun s events → TurnsAreLegal s (after_events s (opening_core s) events) }
    ensures one_kill { (s : Scene) (events : List Event) → InRange s → IsRun s events → OneKill s (after_events s (opening_core s) events) }
    ensures kill_legal { (s : Scene) (events : List Event) → InRange s → IsRun s events → KillsAreLegal s (after_events s (opening_core s) events) }
    ensures items { (s : Scene) (items : List Item) → InRange s → IsScheduled s items → IsRun s (played s (opening_core s) items) }
    ensures played { (s : Scene) (events : List Event) → InRange s → IsRun s events → IsPlayed s events }
    ensures less { (s : Scene) (events : List Event) → InRange s → IsRun s events → TurnsLeaveLess s (after_events s (opening_core s) events) }
    ensures mark { (s : Scene) (events : List Event) → InRange s → IsRun s events → NoLightAfterMark s events }
{}

/// The schedule and any number of rounds make a run. Rounds come to an end: after some number of them a turn of each
/// actor would be passed over. The run up to there is one alone, and its journal is whole, as that of every run after
/// which a turn of each would be passed over.
pub fn rounds_end()
    ensures run { (s : Scene) (rounds : ℕ) → InRange s → IsRun s (turns_and_rounds s rounds) }
    ensures ends { (s : Scene) → InRange s → ComesToAnEnd s }
    ensures one { (s : Scene) (a b : List Event) → IsTurns s a → IsTurns s b → a ≡ b }
    ensures whole { (s : Scene) (events : List Event) → InRange s → IsTurns s events → Whole s (journal_of events) }
    ensures passed { (s : Scene) (events : List Event) → InRange s → IsRun s events → all_pass s (after_events s (opening_core s) events) (round s) ≡ true → Whole s (journal_of events) }
{}
