//! Each law once.

use dri_model::{always_room, halves_of_a_square, one_fault, spelled, worked_heap};

#[test]
fn laws() {
    always_room();
    spelled();
    one_fault();
    halves_of_a_square();
    worked_heap();
}
