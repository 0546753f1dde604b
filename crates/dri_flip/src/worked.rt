//! Worked journals: what they owe, and the flips and copies that they count.

ghost use Rattle.std.specs.Prelude.{◌≡◌, true, false, take};
ghost use Rattle.dri_core.specs.Cores.{journal_of};
ghost use Rattle.dri_core.specs.Turns.{turns_and_rounds};
ghost use Rattle.dri_flip.specs.Examples.{swapped_twice};
ghost use Rattle.dri_flip.specs.Owings.{owing};
ghost use Rattle.dri_meaning.specs.ExampleRuns.{two_frames_journal};
ghost use Rattle.dri_meaning.specs.ExampleScenes.{two_frames, under_another};

/// Two frames that each begin with a clear of the whole screen: both swaps flip, and the second clear needs no copy. A frame that
/// is swapped twice needs one. A window that shows nowhere flips nothing.
pub fn flips_and_copies()
    ensures saved { owing two_frames two_frames_journal ≡ record { owed = true; flips = 2; copies = 0 } }
    ensures cleared { owing two_frames (take 10 two_frames_journal) ≡ record { owed = false; flips = 1; copies = 0 } }
    ensures copied { owing swapped_twice (journal_of (turns_and_rounds swapped_twice 14)) ≡ record { owed = true; flips = 2; copies = 1 } }
    ensures hidden { owing under_another (journal_of (turns_and_rounds under_another 16)) ≡ record { owed = false; flips = 0; copies = 0 } }
{}
