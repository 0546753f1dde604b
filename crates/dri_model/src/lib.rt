//! The parts of the core that its layers share, as definitions: the window stack, the texture heap, the register words
//! and the command words. The functions here do nothing; their contracts are what holds of the definitions.
#![tactic(auto)]

ghost use Rattle.std.specs.Prelude.{◌≡◌, ◌<◌, ◌≤◌, ℕ, List, [], ◌∷◌, true, false, Option, Some, None};
ghost use Rattle.dri_model.specs.Shares.{IsRoomFor, fits_above, room_for};
ghost use Rattle.dri_base.specs.declared.state.Registers.{Registers};
ghost use Rattle.dri_model.specs.Heaps.{Heap, Spot, is_place_for, lowest_place, classes_for, allocated, touched};
ghost use Rattle.dri_model.specs.Words.{Spelled, loaded};
ghost use Rattle.dri_model.specs.CommandWords.{Buffer};
ghost use Rattle.dri_model.specs.WordFaults.{HasOneFault};
ghost use Rattle.std.specs.Prelude.{pos};
ghost use Rattle.dri_base.specs.Fragments.{shaded};
ghost use Rattle.dri_base.specs.declared.state.Shade.TheVariants.{Flat, Smooth};
ghost use Rattle.dri_model.specs.Examples.{upper_left, lower_right, covered, eight, uses, ages, neighbours, three_corners, other_way, depths, opaque, on_row_two, row_two};

/// The heap's rule always finds a run, for as many regions as there are.
pub fn always_room()
    ensures { (n : ℕ) (h : Heap) (count : ℕ) → 0 < n → count ≤ n → is_place_for n h count (lowest_place n h count (classes_for n h count)) ≡ true }
{}

/// Room in shared regions is found exactly where it is: in the one with the lowest number.
pub fn shared_room()
    ensures found { (size : ℕ) (levels : ℕ → Option ℕ) (blocks : ℕ) (room : Spot) → room_for size levels blocks ≡ Some room → IsRoomFor size levels blocks room }
    ensures none { (size : ℕ) (levels : ℕ → Option ℕ) (blocks k : ℕ) → room_for size levels blocks ≡ None → k < 64 → fits_above size blocks (levels k) ≡ false }
{}

/// Register words that the card takes leave the same registers, whatever they are read as; and command words are one
/// list of triangles.
pub fn spelled()
    ensures triangles { (words : List ℕ) (a b : Buffer words) → a.triangles ≡ b.triangles }
    ensures registers { (words : List ℕ) (a b : Spelled words) (old : Registers) → loaded a.groups a.registers old ≡ loaded b.groups b.registers old }
{}

/// A list of register words or command words goes wrong at one place and one word at most, and nowhere where the card
/// takes it.
pub fn one_fault()
    ensures registers { (words : List ℕ) → HasOneFault Spelled words }
    ensures commands { (words : List ℕ) → HasOneFault Buffer words }
{}

/// The two halves of a square cover each of its pixels once: the common edge is the upper left half's left or top
/// edge nowhere, so its pixels are the other's.
pub fn halves_of_a_square()
    ensures upper { covered upper_left ≡ (0, 0) ∷ (1, 0) ∷ (2, 0) ∷ (0, 1) ∷ (1, 1) ∷ (0, 2) ∷ [] }
    ensures lower { covered lower_right ≡ (3, 0) ∷ (2, 1) ∷ (3, 1) ∷ (1, 2) ∷ (2, 2) ∷ (3, 2) ∷ (0, 3) ∷ (1, 3) ∷ (2, 3) ∷ (3, 3) ∷ [] }
{}

/// Runs for one to five regions of a heap of eight, and what their allocation and use leave.
pub fn worked_heap()
    ensures one { (classes_for 8 eight 1 ≡ 0) × (is_place_for 8 eight 1 2 ≡ true) }
    ensures two { (classes_for 8 eight 2 ≡ 2) × (is_place_for 8 eight 2 1 ≡ true) }
    ensures three { (classes_for 8 eight 3 ≡ 2) × (is_place_for 8 eight 3 1 ≡ true) }
    ensures four { (classes_for 8 eight 4 ≡ 3) × (is_place_for 8 eight 4 0 ≡ true) }
    ensures five { (classes_for 8 eight 5 ≡ 4) × (is_place_for 8 eight 5 0 ≡ true) }
    ensures free_taken { (ages (allocated 8 eight (neighbours 2 1)) ≡ 4 ∷ 2 ∷ 7 ∷ 2 ∷ 6 ∷ 4 ∷ 1 ∷ 6 ∷ []) × ((allocated 8 eight (neighbours 2 1)).global ≡ 7) }
    ensures classes_freed { uses (allocated 8 eight (neighbours 1 2)) ≡ true ∷ true ∷ true ∷ false ∷ true ∷ true ∷ false ∷ true ∷ [] }
    ensures ages_after { (ages (allocated 8 eight (neighbours 1 2)) ≡ 4 ∷ 8 ∷ 8 ∷ 7 ∷ 6 ∷ 4 ∷ 7 ∷ 6 ∷ []) × ((allocated 8 eight (neighbours 1 2)).global ≡ 8) }
    ensures used_again { (ages (touched (neighbours 4 2) eight) ≡ 4 ∷ 2 ∷ 0 ∷ 2 ∷ 7 ∷ 7 ∷ 1 ∷ 6 ∷ []) × ((touched (neighbours 4 2) eight).global ≡ 7) }
{}

/// Depths and colours between three different corners, whichever way they run, and centres on a horizontal edge.
pub fn worked_pixels()
    ensures depths { (depths three_corners ≡ 8 ∷ 24 ∷ 40 ∷ []) × (depths other_way ≡ 8 ∷ 24 ∷ 40 ∷ []) }
    ensures flat { (shaded Flat three_corners (pos 0) (pos 0) ≡ opaque 0 0 255) × (shaded Flat other_way (pos 0) (pos 0) ≡ opaque 0 0 255) }
    ensures smooth { shaded Smooth three_corners (pos 1) (pos 0) ≡ opaque 127 95 31 }
    ensures top { row_two (on_row_two 104) ≡ 0 ∷ 1 ∷ 2 ∷ 3 ∷ [] }
    ensures bottom { row_two (on_row_two 8) ≡ [] }
{}
