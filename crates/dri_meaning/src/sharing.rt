//! Worked scenes of small textures that share a region.

ghost use Rattle.std.specs.Prelude.{◌≡◌, [], ◌∷◌, Some, None, take, true};
ghost use Rattle.dri_base.specs.Ranges.{InRange};
ghost use Rattle.dri_core.specs.Cores.{journal_of};
ghost use Rattle.dri_core.specs.Runs.{after, HoldRun};
ghost use Rattle.dri_core.specs.Turns.{turns_and_rounds};
ghost use Rattle.dri_meaning.specs.ExampleRuns.{picture, grey, one_region_journal, two_small_journal, small_and_large_journal, three_halves_journal, five_small_journal};
ghost use Rattle.dri_meaning.specs.ExampleScenes.{two_small, small_and_large, three_halves, five_small, two_owners};
ghost use Rattle.dri_model.specs.Heaps.{use_of};

/// Two small textures of one client, which share a region: the second takes no age.
pub fn a_shared_region()
    ensures in_range { InRange two_small }
    ensures journal { journal_of (turns_and_rounds two_small 24) ≡ two_small_journal }
    ensures run { HoldRun two_small two_small_journal }
    ensures picture { picture two_small two_small_journal ≡ (grey 0x40 ∷ grey 0x40 ∷ []) ∷ [] }
    ensures ages { ((after two_small two_small_journal).heap.global ≡ 4) × ((after two_small two_small_journal).heap.age 0 ≡ 4) × (use_of (after two_small two_small_journal).heap 0 ≡ 2) }
    ensures level { ((after two_small two_small_journal).client 1).levels 0 ≡ Some 2 }
{}

/// A small texture and one that isn't, which take the only region from each other.
pub fn a_region_unshared()
    ensures in_range { InRange small_and_large }
    ensures journal { journal_of (turns_and_rounds small_and_large 24) ≡ small_and_large_journal }
    ensures run { HoldRun small_and_large small_and_large_journal }
    ensures picture { picture small_and_large small_and_large_journal ≡ (grey 0x40 ∷ grey 0x40 ∷ []) ∷ [] }
    ensures ages { ((after small_and_large small_and_large_journal).heap.global ≡ 8) × ((after small_and_large small_and_large_journal).heap.age 0 ≡ 8) × (use_of (after small_and_large small_and_large_journal).heap 0 ≡ 2) }
    ensures between { (use_of (after small_and_large (take 13 small_and_large_journal)).heap 0 ≡ 1) × (((after small_and_large (take 13 small_and_large_journal)).client 1).levels 0 ≡ None) }
{}

/// Three textures of half a region each, in one region: the third frees it with both that are there, and the client's
/// own shared region begins anew.
pub fn a_full_region()
    ensures journal { journal_of (turns_and_rounds three_halves 24) ≡ three_halves_journal }
    ensures run { HoldRun three_halves three_halves_journal }
    ensures picture { picture three_halves three_halves_journal ≡ (grey 0xc0 ∷ grey 0xc0 ∷ []) ∷ [] }
    ensures full { ((after three_halves (take 13 three_halves_journal)).client 1).levels 0 ≡ Some 4 }
    ensures anew { (((after three_halves (take 17 three_halves_journal)).client 1).levels 0 ≡ Some 2) × (((after three_halves (take 17 three_halves_journal)).client 1).placed 1 ≡ None) × (((after three_halves (take 17 three_halves_journal)).client 1).placed 2 ≡ None) }
{}

/// Three small textures share a region; a fourth, which doesn't fit there, begins another. Where both have room the lowest
/// gets the next.
pub fn a_second_region()
    ensures journal { journal_of (turns_and_rounds five_small 32) ≡ five_small_journal }
    ensures run { HoldRun five_small five_small_journal }
    ensures picture { picture five_small five_small_journal ≡ (grey 0x10 ∷ grey 0x10 ∷ []) ∷ [] }
    ensures begun { (((after five_small (take 21 five_small_journal)).client 1).levels 0 ≡ Some 3) × (((after five_small (take 21 five_small_journal)).client 1).levels 1 ≡ Some 2) }
    ensures lowest { (((after five_small five_small_journal).client 1).levels 0 ≡ Some 4) × (((after five_small five_small_journal).client 1).levels 1 ≡ Some 2) }
{}

/// Two clients whose small textures take the only region from each other. Until client 1 takes the lock again it keeps a
/// shared region that is another's by now; it isn't live, and is lost at the take.
pub fn a_region_taken_over()
    ensures journal { journal_of (turns_and_rounds two_owners 14) ≡ one_region_journal }
    ensures picture { picture two_owners one_region_journal ≡ (grey 0x40 ∷ grey 0x80 ∷ []) ∷ [] }
    ensures both { (((after two_owners (take 26 one_region_journal)).client 1).levels 0 ≡ Some 1) × (((after two_owners (take 26 one_region_journal)).client 2).levels 0 ≡ Some 1) }
    ensures newer { ((after two_owners (take 26 one_region_journal)).heap.age 0 ≡ 5) × (((after two_owners (take 26 one_region_journal)).client 1).local ≡ 2) }
    ensures lost { (((after two_owners (take 27 one_region_journal)).client 1).levels 0 ≡ None) × (((after two_owners (take 27 one_region_journal)).client 1).placed 1 ≡ None) × (((after two_owners (take 27 one_region_journal)).client 1).dirty.bound ≡ true) }
{}
