//! Scenes that were worked by hand: the schedule and enough rounds give just the journal that was found by hand, which is
//! a hold-run, and it leaves the picture, the count of frames and the lock word that were found by hand.

ghost use Rattle.std.specs.Prelude.{◌≡◌, [], ◌∷◌, take, true, false, Some, None, pos};
ghost use Rattle.std.specs.Prelude.{◌++◌};
ghost use Rattle.dri_base.specs.declared.journal.Entry.TheVariants.{Gone, Kernel, Leave, Stale, Info, Change, Run, Light, Emit, Place};
ghost use Rattle.dri_base.specs.declared.command.Command.TheVariants.{Set};
ghost use Rattle.dri_base.specs.declared.state.Blend.TheVariants.{Alpha, Add};
ghost use Rattle.dri_base.specs.declared.state.Blend.TheVariants as Blend_is;
ghost use Rattle.dri_base.specs.declared.state.DepthFunc.TheVariants.{Never, Less, Equal, LessEqual, Greater, NotEqual, GreaterEqual, Always};
ghost use Rattle.dri_base.specs.declared.state.Setting.TheVariants.{Shade, DepthFunc, DepthWrite, Blend, TexMode, Wrap, Bind, Scissor};
ghost use Rattle.dri_base.specs.declared.state.Shade.TheVariants.{Flat, Smooth};
ghost use Rattle.dri_base.specs.declared.state.TexMode.TheVariants.{Replace, Modulate};
ghost use Rattle.dri_base.specs.declared.state.TexMode.TheVariants as Mode_is;
ghost use Rattle.dri_base.specs.declared.state.Wrap.TheVariants.{Clamp, Repeat};
ghost use Rattle.dri_core.specs.ExampleParts.{rgb};
ghost use Rattle.dri_core.specs.Decide.{is_hold_run};
ghost use Rattle.dri_core.specs.Cores.{journal_of};
ghost use Rattle.dri_meaning.specs.ExampleScenes.{one_triangle, two_frames, under_another, killed_first, dies, covered, beside, waiting_one, killed, one_region, cut_out, blended_twice, partly_covered, moved_about, refused_changes, allowed_changes, two_windows, shown_twice, taken_again, stopped_in_the_queue, in_depth, by_default, along_the_row, two_regions, probed, turned_probe, on_depth_24, then_less_deep, to_the_right, below, all_on, all_off};
ghost use Rattle.dri_meaning.specs.ExampleRuns.{picture, summary, word_after_all, red, green, blue, grey, one_triangle_journal, two_frames_journal, dies_journal, covered_journal, beside_journal, waiting_one_journal, killed_journal, one_region_journal, cut_out_journal, blended_twice_journal, partly_covered_journal, seven_changes, row, refusals_after, taken_again_journal, stopped_journal, first_hold, first_triangle, two_regions_journal, alone, ground, third, all_three, greys, where_drawn};
ghost use Rattle.dri_core.specs.Runs.{after, HoldRun};
ghost use Rattle.dri_base.specs.Ranges.{InRange};
ghost use Rattle.dri_model.specs.Stacks.{NoWindow, OutOfRange, AlreadyMapped, NotMapped};
ghost use Rattle.dri_base.specs.Scenes.{script_of};
ghost use Rattle.dri_core.specs.Solo.{solo_frame};
ghost use Rattle.dri_core.specs.Turns.{turns_and_rounds};

/// A triangle of six pixels, on a window of the whole screen.
pub fn a_triangle()
    ensures journal { journal_of (turns_and_rounds one_triangle 14) ≡ one_triangle_journal }
    ensures run { HoldRun one_triangle one_triangle_journal }
    ensures picture { picture one_triangle one_triangle_journal ≡
        (red ∷ red ∷ red ∷ grey 0 ∷ []) ∷ (red ∷ red ∷ grey 0 ∷ grey 0 ∷ []) ∷ (red ∷ grey 0 ∷ grey 0 ∷ grey 0 ∷ []) ∷ (grey 0 ∷ grey 0 ∷ grey 0 ∷ grey 0 ∷ []) ∷ [] }
    ensures alone { solo_frame (script_of one_triangle 1) 1 (pos 2) (pos 0) ≡ Some red }
    ensures no_second { solo_frame (script_of one_triangle 1) 2 (pos 2) (pos 0) ≡ None }
{}

/// Two frames by one client, whose second hold is light. Its first eight entries aren't whole.
pub fn two_holds()
    ensures in_range { InRange two_frames }
    ensures journal { journal_of (turns_and_rounds two_frames 16) ≡ two_frames_journal }
    ensures run { HoldRun two_frames two_frames_journal }
    ensures picture { picture two_frames two_frames_journal ≡ (blue ∷ blue ∷ []) ∷ [] }
    ensures summary { summary two_frames two_frames_journal ≡ (2, 2, true) }
    ensures part { summary two_frames (take 8 two_frames_journal) ≡ (1, 1, false) }
{}

/// The same under a window of the whole screen: nothing is drawn on front.
pub fn covered_whole()
    ensures picture { picture under_another (journal_of (turns_and_rounds under_another 16)) ≡ (grey 0x22 ∷ grey 0x22 ∷ []) ∷ [] }
{}

/// A client that is killed before its first hold.
pub fn killed_before()
    ensures journal { journal_of (turns_and_rounds killed_first 3) ≡ Gone 1 ∷ [] }
    ensures run { HoldRun killed_first (Gone 1 ∷ []) }
    ensures picture { picture killed_first (Gone 1 ∷ []) ≡ (grey 0 ∷ grey 0 ∷ []) ∷ [] }
{}

/// A client that dies by itself in its second hold.
pub fn death()
    ensures journal { journal_of (turns_and_rounds dies 14) ≡ dies_journal }
    ensures run { HoldRun dies dies_journal }
    ensures word { word_after_all dies (turns_and_rounds dies 14) ≡ 0 }
    ensures picture { picture dies dies_journal ≡ (grey 0 ∷ grey 0 ∷ []) ∷ [] }
    ensures summary { summary dies dies_journal ≡ (1, 1, true) }
{}

/// A window that is covered and uncovered between a clear and its swap: its stamp rises from 1 to 4, and the frame
/// hasn't stood.
pub fn covered_and_uncovered()
    ensures journal { journal_of (turns_and_rounds covered 14) ≡ covered_journal }
    ensures run { HoldRun covered covered_journal }
    ensures stamp { (after covered covered_journal).stamps 1 ≡ 4 }
    ensures picture { picture covered covered_journal ≡ (red ∷ red ∷ []) ∷ (red ∷ red ∷ []) ∷ [] }
    ensures summary { summary covered covered_journal ≡ (1, 0, true) }
{}

/// The same changes beside the client's window: its stamp and its frame stand.
pub fn changed_beside()
    ensures journal { journal_of (turns_and_rounds beside 14) ≡ beside_journal }
    ensures run { HoldRun beside beside_journal }
    ensures stamp { (after beside beside_journal).stamps 1 ≡ 1 }
    ensures picture { picture beside beside_journal ≡ (red ∷ red ∷ grey 0x22 ∷ grey 0x22 ∷ []) ∷ (red ∷ red ∷ grey 0x22 ∷ grey 0x22 ∷ []) ∷ [] }
    ensures summary { summary beside beside_journal ≡ (1, 1, true) }
{}

/// A client that waits at the queue's front marks the word, so the holder leaves by the kernel.
pub fn marked()
    ensures word { word_after_all waiting_one (turns_and_rounds waiting_one 0) ≡ 0xC0000002 }
    ensures journal { journal_of (turns_and_rounds waiting_one 14) ≡ waiting_one_journal }
    ensures run { HoldRun waiting_one waiting_one_journal }
    ensures picture { picture waiting_one waiting_one_journal ≡ (grey 0xff ∷ grey 0xff ∷ green ∷ green ∷ []) ∷ (grey 0xff ∷ grey 0xff ∷ green ∷ green ∷ []) ∷ [] }
{}

/// A client that is killed while it holds, with its triangles drawn but not shown.
pub fn killed_in_a_hold()
    ensures journal { journal_of (turns_and_rounds killed 16) ≡ killed_journal }
    ensures run { HoldRun killed killed_journal }
    ensures picture { picture killed killed_journal ≡ (grey 0 ∷ grey 0 ∷ green ∷ green ∷ []) ∷ (grey 0 ∷ grey 0 ∷ green ∷ green ∷ []) ∷ [] }
    ensures summary { summary killed killed_journal ≡ (1, 1, true) }
{}

/// Two clients whose textures take each other's only region; the ages show it.
pub fn two_textures()
    ensures in_range { InRange one_region }
    ensures journal { journal_of (turns_and_rounds one_region 14) ≡ one_region_journal }
    ensures run { HoldRun one_region one_region_journal }
    ensures ages { ((after one_region (take 13 one_region_journal)).heap.global ≡ 2) × ((after one_region (take 26 one_region_journal)).heap.global ≡ 5) × ((after one_region one_region_journal).heap.global ≡ 8) }
    ensures picture { picture one_region one_region_journal ≡ (grey 0x40 ∷ grey 0x80 ∷ []) ∷ [] }
    ensures summary { summary one_region one_region_journal ≡ (3, 3, true) }
{}

/// A scissor in a window that begins left of the screen.
pub fn a_scissor()
    ensures journal { journal_of (turns_and_rounds cut_out 16) ≡ cut_out_journal }
    ensures run { HoldRun cut_out cut_out_journal }
    ensures picture { picture cut_out cut_out_journal ≡ (green ∷ red ∷ red ∷ red ∷ red ∷ grey 0 ∷ grey 0 ∷ grey 0 ∷ []) ∷ [] }
{}

/// A sum and an alpha blend, under another window.
pub fn two_blends()
    ensures journal { journal_of (turns_and_rounds blended_twice 18) ≡ blended_twice_journal }
    ensures run { HoldRun blended_twice blended_twice_journal }
    ensures picture { picture blended_twice blended_twice_journal ≡ (grey 0xc0 ∷ grey 0x22 ∷ grey 0xc0 ∷ []) ∷ [] }
{}

/// A window that is covered in part and uncovered: only there front is painted, and not as it was.
pub fn covered_in_part()
    ensures journal { journal_of (turns_and_rounds partly_covered 8) ≡ partly_covered_journal }
    ensures covered { picture partly_covered (take 9 partly_covered_journal) ≡ (red ∷ grey 0x22 ∷ red ∷ []) ∷ [] }
    ensures uncovered { picture partly_covered partly_covered_journal ≡ (red ∷ grey 0x11 ∷ red ∷ []) ∷ [] }
{}

/// Each kind of change of a window whose corner isn't 0, and one that is refused.
pub fn changes_one_by_one()
    ensures moved { picture moved_about (take 1 seven_changes) ≡ row 0 0 0 0 ∷ row 0 0x22 0x11 0x33 ∷ row 0 0x22 0x22 0 ∷ [] }
    ensures resized { picture moved_about (take 2 seven_changes) ≡ row 0 0 0 0 ∷ row 0 0x22 0x11 0x11 ∷ row 0 0x22 0x22 0 ∷ [] }
    ensures raised { picture moved_about (take 3 seven_changes) ≡ row 0 0 0 0 ∷ row 0 0x22 0x22 0x11 ∷ row 0 0x22 0x22 0 ∷ [] }
    ensures unmapped { picture moved_about (take 4 seven_changes) ≡ row 0 0 0 0 ∷ row 0 0x22 0x22 0x33 ∷ row 0 0x22 0x22 0 ∷ [] }
    ensures mapped { picture moved_about (take 5 seven_changes) ≡ row 0 0 0 0 ∷ row 0 0x22 0x22 0x11 ∷ row 0 0x22 0x22 0 ∷ [] }
    ensures lowered { picture moved_about (take 6 seven_changes) ≡ row 0 0 0 0 ∷ row 0 0x33 0x11 0x11 ∷ row 0 0x22 0x22 0 ∷ [] }
    ensures refused { picture moved_about seven_changes ≡ picture moved_about (take 6 seven_changes) }
    ensures summary { summary moved_about seven_changes ≡ (0, 0, true) }
{}

/// Why a change is refused, and the outermost numbers that aren't.
pub fn why_refused()
    ensures refused { refusals_after 4 refused_changes ≡ Some NoWindow ∷ Some OutOfRange ∷ Some OutOfRange ∷ Some OutOfRange ∷ Some OutOfRange ∷ Some AlreadyMapped ∷ Some NotMapped ∷ [] }
    ensures allowed { refusals_after 4 allowed_changes ≡ None ∷ None ∷ None ∷ None ∷ None ∷ None ∷ [] }
{}

/// A death unmaps each window of its client.
pub fn death_of_two_windows()
    ensures picture { picture two_windows (Gone 1 ∷ []) ≡ (grey 0 ∷ grey 0 ∷ []) ∷ [] }
{}

/// A swap leaves back as it is, and a second frame without a clear isn't one that is drawn alone.
pub fn shown_again()
    ensures picture { picture shown_twice (journal_of (turns_and_rounds shown_twice 17)) ≡ (green ∷ red ∷ []) ∷ [] }
    ensures summary { summary shown_twice (journal_of (turns_and_rounds shown_twice 17)) ≡ (1, 1, true) }
    ensures alone { solo_frame (script_of shown_twice 1) 2 (pos 0) (pos 0) ≡ None }
{}

/// Who comes back while the card is its own emits nothing again.
pub fn own_card()
    ensures journal { journal_of (turns_and_rounds taken_again 8) ≡ taken_again_journal }
{}

/// A client that is stopped leaves the queue, and the mark stays.
pub fn stopped()
    ensures word { word_after_all stopped_in_the_queue (turns_and_rounds stopped_in_the_queue 0) ≡ 0xC0000002 }
    ensures journal { journal_of (turns_and_rounds stopped_in_the_queue 10) ≡ stopped_journal }
{}

/// Entries that no hold-run has: each journal breaks one condition of its last entry.
pub fn no_hold_runs()
    ensures asking_takes { is_hold_run two_frames (Kernel 1 1 ∷ Stale 1 ∷ Leave 1 ∷ Kernel 1 0 ∷ []) ≡ false }
    ensures held { is_hold_run waiting_one (Kernel 1 1 ∷ Kernel 2 1 ∷ []) ≡ false }
    ensures other_context { is_hold_run two_frames (Kernel 1 3 ∷ []) ≡ false }
    ensures own_context { is_hold_run two_frames (take 8 two_frames_journal ++ Kernel 1 2 ∷ []) ≡ false }
    ensures leaves_early { is_hold_run two_frames (first_hold 1 1 ++ Leave 1 ∷ []) ≡ false }
    ensures leaves_outside { is_hold_run two_frames (Leave 1 ∷ []) ≡ false }
    ensures leaves_untold { is_hold_run two_frames (Kernel 1 1 ∷ Leave 1 ∷ []) ≡ false }
    ensures not_asking { is_hold_run two_frames (Info 1 ∷ []) ≡ false }
    ensures informed_early { is_hold_run waiting_one (Kernel 2 1 ∷ Stale 2 ∷ Leave 2 ∷ Kernel 1 3 ∷ Info 2 ∷ []) ≡ false }
    ensures changed_in_a_hold { is_hold_run covered (Kernel 1 1 ∷ Change 1 ∷ []) ≡ false }
    ensures second_change { is_hold_run covered (Change 2 ∷ []) ≡ false }
    ensures no_change_left { is_hold_run two_frames (Change 1 ∷ []) ≡ false }
    ensures unnamed { is_hold_run two_frames (first_hold 1 1 ++ Gone 1 ∷ []) ≡ false }
    ensures dies_outside { is_hold_run dies (take 8 dies_journal ++ Gone 1 ∷ []) ≡ false }
    ensures dies_twice { is_hold_run killed (Gone 1 ∷ Gone 1 ∷ []) ≡ false }
    ensures dies_in_anothers_hold { is_hold_run killed (Kernel 2 1 ∷ Gone 1 ∷ []) ≡ false }
{}

/// The same for the entries of a client in its hold, and for its light lock.
pub fn no_holds()
    ensures light_of_another { is_hold_run two_frames (Light 1 ∷ []) ≡ false }
    ensures light_and_asking { is_hold_run two_frames (Kernel 1 1 ∷ Stale 1 ∷ Leave 1 ∷ Light 1 ∷ []) ≡ false }
    ensures light_while_held { is_hold_run one_region (take 13 one_region_journal ++ Kernel 2 2 ∷ Light 1 ∷ []) ≡ false }
    ensures stale_while_current { is_hold_run two_frames (first_hold 1 1 ++ Stale 1 ∷ []) ≡ false }
    ensures runs_another { is_hold_run two_frames (first_hold 1 1 ++ Run 1 2 ∷ []) ≡ false }
    ensures runs_on { is_hold_run two_frames (first_hold 1 1 ++ Run 1 1 ∷ Run 1 2 ∷ Run 1 3 ∷ []) ≡ false }
    ensures runs_its_death { is_hold_run dies (take 8 dies_journal ++ Light 1 ∷ Run 1 3 ∷ []) ≡ false }
    ensures draws_unemitted { is_hold_run waiting_one (first_hold 1 1 ++ Run 1 1 ∷ Run 1 2 ∷ []) ≡ false }
    ensures emits_for_a_clear { is_hold_run waiting_one (first_hold 1 1 ++ Emit 1 127 ∷ []) ≡ false }
    ensures emits_some { is_hold_run waiting_one (first_hold 1 1 ++ Run 1 1 ∷ Emit 1 63 ∷ []) ≡ false }
    ensures emits_nothing { is_hold_run waiting_one (first_triangle ++ Emit 1 0 ∷ []) ≡ false }
    ensures emits_unplaced { is_hold_run one_region (take 8 one_region_journal ++ Emit 1 127 ∷ []) ≡ false }
    ensures places_for_a_clear { is_hold_run two_regions (take 7 two_regions_journal ++ Place 1 1 0 1 ∷ []) ≡ false }
    ensures places_another { is_hold_run two_regions (take 8 two_regions_journal ++ Place 1 2 0 1 ∷ []) ≡ false }
    ensures places_too_many { is_hold_run two_regions (take 8 two_regions_journal ++ Place 1 1 0 2 ∷ []) ≡ false }
    ensures places_elsewhere { is_hold_run two_regions (take 8 two_regions_journal ++ Place 1 1 1 1 ∷ []) ≡ false }
    ensures places_again { is_hold_run two_regions (take 9 two_regions_journal ++ Place 1 1 1 1 ∷ []) ≡ false }
{}

/// Depths are compared and written where they are set, and neither in the default state, whose triangles are flat.
pub fn depths()
    ensures set { picture in_depth (journal_of (turns_and_rounds in_depth 20)) ≡ (red ∷ red ∷ green ∷ []) ∷ [] }
    ensures default { picture by_default (journal_of (turns_and_rounds by_default 20)) ≡ (blue ∷ []) ∷ [] }
{}

/// Columns of a texture run along the row.
pub fn columns()
    ensures picture { picture along_the_row (journal_of (turns_and_rounds along_the_row 20)) ≡ (grey 1 ∷ grey 2 ∷ []) ∷ [] }
{}

/// What a placing doesn't free stays placed.
pub fn two_places()
    ensures journal { journal_of (turns_and_rounds two_regions 22) ≡ two_regions_journal }
    ensures picture { picture two_regions two_regions_journal ≡ (grey 0x40 ∷ []) ∷ [] }
{}

/// A frame drawn alone in the default state, and with each shade, blend, texture mode, wrap, bound texture and scissor.
pub fn each_setting()
    ensures default { alone (probed []) 0 ≡ all_three third }
    ensures smooth { alone (probed (Shade Smooth ∷ [])) 0 ≡ Some (rgb 203 56 31) ∷ Some (rgb 140 120 31) ∷ Some (rgb 76 184 31) ∷ [] }
    ensures turned_smooth { alone (on_depth_24 (Set (Shade Smooth) ∷ turned_probe ∷ [])) 0 ≡ alone (probed (Shade Smooth ∷ [])) 0 }
    ensures turned_flat { alone (on_depth_24 (turned_probe ∷ [])) 0 ≡ all_three (Some green) }
    ensures alpha { alone (probed (Blend Alpha ∷ [])) 0 ≡ all_three (Some (rgb 59 116 149)) }
    ensures add { alone (probed (Blend Add ∷ [])) 0 ≡ all_three (Some (rgb 117 232 255)) }
    ensures mode_alone { alone (probed (TexMode Replace ∷ [])) 0 ≡ all_three third }
    ensures bound_alone { alone (probed (Bind (Some 1) ∷ [])) 0 ≡ all_three third }
    ensures unbound { alone (probed (TexMode Replace ∷ Bind (Some 1) ∷ Bind None ∷ [])) 0 ≡ all_three third }
    ensures replaced { alone (probed (TexMode Replace ∷ Bind (Some 1) ∷ [])) 0 ≡ greys 30 40 30 }
    ensures clamped { alone (probed (TexMode Replace ∷ Bind (Some 1) ∷ Wrap Clamp ∷ [])) 0 ≡ greys 30 40 40 }
    ensures modulated { alone (probed (TexMode Modulate ∷ Bind (Some 1) ∷ [])) 0 ≡ Some (rgb 12 24 29) ∷ Some (rgb 16 31 39) ∷ Some (rgb 12 24 29) ∷ [] }
    ensures own_alpha { alone (probed (TexMode Replace ∷ Bind (Some 1) ∷ Blend Alpha ∷ [])) 0 ≡ Some (rgb 23 31 39) ∷ Some (rgb 28 36 44) ∷ Some (rgb 23 31 39) ∷ [] }
    ensures sixteen_bits { alone (probed (TexMode Replace ∷ Bind (Some 2) ∷ [])) 0 ≡ all_three (Some (rgb 156 105 82)) }
    ensures right_of { (alone (probed (to_the_right ∷ [])) 0 ≡ ground ∷ third ∷ third ∷ []) × (alone (probed (to_the_right ∷ [])) 1 ≡ all_three ground) }
    ensures below { (alone (probed (below ∷ [])) 0 ≡ all_three ground) × (alone (probed (below ∷ [])) 1 ≡ third ∷ ground ∷ ground ∷ []) }
    ensures no_scissor { alone (probed (below ∷ Scissor None ∷ [])) 0 ≡ all_three third }
{}

/// Each setting set and turned off again: the frame is drawn as without it.
pub fn turned_off()
    ensures shade { alone (probed (Shade Smooth ∷ Shade Flat ∷ [])) 0 ≡ all_three third }
    ensures blend { alone (probed (Blend Alpha ∷ Blend Blend_is.Off ∷ [])) 0 ≡ all_three third }
    ensures mode { alone (probed (TexMode Replace ∷ Bind (Some 1) ∷ TexMode Mode_is.Off ∷ [])) 0 ≡ all_three third }
    ensures depth { alone (probed (DepthFunc Never ∷ DepthFunc Always ∷ [])) 0 ≡ all_three third }
    ensures wrap { alone (probed (TexMode Replace ∷ Bind (Some 1) ∷ Wrap Clamp ∷ Wrap Repeat ∷ [])) 0 ≡ greys 30 40 30 }
    ensures all { alone (then_less_deep (all_on ++ all_off)) 0 ≡ all_three third }
{}

/// Depths 8, 24 and 40 over depth 24 with each depth function, and which depths a triangle leaves.
pub fn each_depth()
    ensures never { where_drawn Never ≡ all_three ground }
    ensures less { where_drawn Less ≡ third ∷ ground ∷ ground ∷ [] }
    ensures equal { where_drawn Equal ≡ ground ∷ third ∷ ground ∷ [] }
    ensures less_equal { where_drawn LessEqual ≡ third ∷ third ∷ ground ∷ [] }
    ensures greater { where_drawn Greater ≡ ground ∷ ground ∷ third ∷ [] }
    ensures not_equal { where_drawn NotEqual ≡ third ∷ ground ∷ third ∷ [] }
    ensures greater_equal { where_drawn GreaterEqual ≡ ground ∷ third ∷ third ∷ [] }
    ensures always { where_drawn Always ≡ all_three third }
    ensures not_written { alone (then_less_deep []) 0 ≡ all_three third }
    ensures written { alone (then_less_deep (DepthWrite true ∷ [])) 0 ≡ third ∷ third ∷ Some (grey 0xff) ∷ [] }
    ensures no_longer { alone (then_less_deep (DepthWrite true ∷ DepthWrite false ∷ [])) 0 ≡ all_three third }
{}
