//! Scenes with moves, worked by hand like the others: the journal, the picture, and how many frames ran and stood. The
//! schedule and enough rounds give just the journal that was found by hand.

ghost use Rattle.std.specs.Prelude.{◌≡◌, [], ◌∷◌, length, true, false};
ghost use Rattle.dri_base.specs.Ranges.{InRange};
ghost use Rattle.dri_base.specs.declared.command.Change.TheVariants.{Raise};
ghost use Rattle.dri_core.specs.Cores.{journal_of};
ghost use Rattle.dri_core.specs.Runs.{after, HoldRun};
ghost use Rattle.dri_core.specs.Turns.{turns_and_rounds};
ghost use Rattle.dri_meaning.specs.ExampleMoves.{moved_whole, moved_over_itself, moved_off, moved_off_and_back, moved_nowhere, not_moved, moved_unmapped, moved_and_resized, moved_and_raised, shown_and_moved, shown_off_and_back, shown_and_raised, moved_with_depth, moved_onto, half_off, until_change, until_second, moved_journal, moved_again_journal, unmoved_journal, moved_with_depth_journal};
ghost use Rattle.dri_meaning.specs.ExampleRuns.{picture, summary, red, grey};

/// A window moved by its width between a clear and its swap: what was drawn goes along, and the frame has stood.
pub fn moved_by_its_width()
    ensures in_range { InRange moved_whole }
    ensures journal { journal_of (turns_and_rounds moved_whole 14) ≡ moved_journal }
    ensures run { HoldRun moved_whole moved_journal }
    ensures entries { length moved_journal ≡ 16 }
    ensures stamp { (after moved_whole moved_journal).stamps 1 ≡ 2 }
    ensures picture { picture moved_whole moved_journal ≡ (grey 0 ∷ grey 0 ∷ red ∷ red ∷ []) ∷ [] }
    ensures summary { summary moved_whole moved_journal ≡ (1, 1, true) }
{}

/// The same moved by one pixel, onto one of its own.
pub fn moved_by_a_pixel()
    ensures journal { journal_of (turns_and_rounds moved_over_itself 14) ≡ moved_journal }
    ensures picture { picture moved_over_itself moved_journal ≡ (grey 0 ∷ red ∷ red ∷ grey 0 ∷ []) ∷ [] }
    ensures summary { summary moved_over_itself moved_journal ≡ (1, 1, true) }
{}

/// The same moved partly off the screen: the pixel that stays on it goes along, but the frame hasn't stood, and doesn't
/// where the window comes back.
pub fn moved_partly_off()
    ensures journal { journal_of (turns_and_rounds moved_off 14) ≡ moved_journal }
    ensures run { HoldRun moved_off moved_journal }
    ensures picture { picture moved_off moved_journal ≡ (grey 0 ∷ grey 0 ∷ grey 0 ∷ red ∷ []) ∷ [] }
    ensures summary { summary moved_off moved_journal ≡ (1, 0, true) }
    ensures back { summary moved_off_and_back (journal_of (turns_and_rounds moved_off_and_back 14)) ≡ (1, 0, true) }
{}

/// A move to where the window is, and one that is refused: neither gives a new stamp.
pub fn moved_nowhere_at_all()
    ensures nowhere { journal_of (turns_and_rounds moved_nowhere 14) ≡ unmoved_journal }
    ensures entries { length unmoved_journal ≡ 12 }
    ensures nowhere_summary { summary moved_nowhere unmoved_journal ≡ (1, 1, true) }
    ensures refused { journal_of (turns_and_rounds not_moved 14) ≡ unmoved_journal }
    ensures refused_summary { summary not_moved unmoved_journal ≡ (1, 1, true) }
{}

/// A window that doesn't show is moved whole, and so is one half off the screen of which the same part shows afterwards.
pub fn moved_as_it_shows()
    ensures unmapped { summary moved_unmapped moved_journal ≡ (1, 1, false) }
    ensures mapped { summary moved_unmapped (journal_of (turns_and_rounds moved_unmapped 14)) ≡ (1, 0, true) }
    ensures half { journal_of (turns_and_rounds half_off 14) ≡ moved_journal }
    ensures half_run { HoldRun half_off moved_journal }
    ensures half_summary { summary half_off moved_journal ≡ (1, 1, true) }
{}

/// A window that another is moved onto isn't moved whole, nor is one that is moved under another and raised.
pub fn moved_under_another()
    ensures onto { summary moved_onto (journal_of (turns_and_rounds moved_onto 14)) ≡ (1, 0, true) }
    ensures onto_picture { picture moved_onto (journal_of (turns_and_rounds moved_onto 14)) ≡ (red ∷ grey 0x22 ∷ grey 0x22 ∷ grey 0 ∷ []) ∷ [] }
    ensures under { summary (moved_and_raised []) (journal_of (turns_and_rounds (moved_and_raised []) 14)) ≡ (1, 0, true) }
    ensures under_picture { picture (moved_and_raised []) (journal_of (turns_and_rounds (moved_and_raised []) 14)) ≡ (grey 0 ∷ grey 0 ∷ red ∷ grey 0x22 ∷ []) ∷ [] }
    ensures raised { summary (moved_and_raised (Raise 1 ∷ [])) (journal_of (turns_and_rounds (moved_and_raised (Raise 1 ∷ [])) 14)) ≡ (1, 0, true) }
{}

/// A resize behind a whole move: the frame has stood where it changes neither clips nor corner, and only there.
pub fn moved_and_then_resized()
    ensures past_the_edge { journal_of (turns_and_rounds (moved_and_resized 3) 14) ≡ moved_again_journal }
    ensures past_the_edge_summary { summary (moved_and_resized 3) moved_again_journal ≡ (1, 1, true) }
    ensures smaller { summary (moved_and_resized 1) moved_again_journal ≡ (1, 0, true) }
    ensures smaller_picture { picture (moved_and_resized 1) moved_again_journal ≡ (grey 0 ∷ grey 0 ∷ red ∷ grey 0 ∷ []) ∷ [] }
{}

/// What is shown goes along: whole, or partly off the screen and back, or under another window and raised, where the
/// background takes the place of what left the screen or was covered.
pub fn moved_after_its_swap()
    ensures journal { journal_of (turns_and_rounds shown_and_moved 14) ≡ until_change }
    ensures picture { picture shown_and_moved until_change ≡ (grey 0 ∷ red ∷ red ∷ grey 0 ∷ []) ∷ [] }
    ensures off { picture shown_off_and_back until_change ≡ (grey 0 ∷ grey 0 ∷ grey 0 ∷ red ∷ []) ∷ [] }
    ensures back { picture shown_off_and_back until_second ≡ (red ∷ grey 0x11 ∷ grey 0 ∷ grey 0 ∷ []) ∷ [] }
    ensures under { picture shown_and_raised until_change ≡ (grey 0 ∷ grey 0 ∷ red ∷ grey 0x22 ∷ []) ∷ [] }
    ensures raised { picture shown_and_raised until_second ≡ (grey 0 ∷ grey 0 ∷ red ∷ grey 0x11 ∷ []) ∷ [] }
{}

/// Depth goes along: no fragment of a triangle passes where it was cleared to 0.
pub fn moved_with_its_depth()
    ensures journal { journal_of (turns_and_rounds moved_with_depth 14) ≡ moved_with_depth_journal }
    ensures run { HoldRun moved_with_depth moved_with_depth_journal }
    ensures picture { picture moved_with_depth moved_with_depth_journal ≡ (grey 0 ∷ grey 0 ∷ red ∷ red ∷ []) ∷ [] }
    ensures summary { summary moved_with_depth moved_with_depth_journal ≡ (1, 1, true) }
{}
