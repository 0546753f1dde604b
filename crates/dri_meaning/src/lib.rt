//! What a run of the core means to whoever looks at it: frames drawn alone, pixel by pixel, as their definition does;
//! what the check of a journal counts; scenes that were worked by hand. The core itself and its laws are `dri_core`'s,
//! and are offered here too.
#![tactic(auto)]

mod bound;
mod canvas;
mod frame;
mod moved;
mod picture;
mod settings;
mod sharing;
mod solo;
mod tallies;
mod triangle;
mod worked;

pub use bound::texture_bound;
pub use canvas::{bytes_of, registers_alone};
pub use dri_core::{
    bounded, central, confined, core, decided, foreign, frames, judged, lasting, own,
    plain_in_range, rounds_end, solo_left, stamped, turns, whole_by_parts,
};
pub use moved::{
    moved_after_its_swap, moved_and_then_resized, moved_as_it_shows, moved_by_a_pixel,
    moved_by_its_width, moved_nowhere_at_all, moved_partly_off, moved_under_another,
    moved_with_its_depth,
};
pub use picture::{Picture, Pixels, SoloFault, solo_picture};
pub use sharing::{
    a_full_region, a_region_taken_over, a_region_unshared, a_second_region, a_shared_region,
};
pub use solo::solo_pixel;
pub use tallies::counted;
pub use worked::{
    a_scissor, a_triangle, changed_beside, changes_one_by_one, columns, covered_and_uncovered,
    covered_in_part, covered_whole, death, death_of_two_windows, depths, each_depth, each_setting,
    killed_before, killed_in_a_hold, marked, no_hold_runs, no_holds, own_card, shown_again,
    stopped, turned_off, two_blends, two_holds, two_places, two_textures, why_refused,
};
