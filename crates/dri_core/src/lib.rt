//! The core: worlds, the tables of entries and events, runs, and frames drawn alone. These stand in this crate's
//! specifications. The functions here do nothing, and their contracts are the laws that hold of every run; but for those
//! that look up what a script has of textures.
#![tactic(auto)]

mod core_runs;
mod hold_runs;
mod later;
mod lookups;

pub use core_runs::{core, rounds_end, turns};
pub use hold_runs::{
    bounded, central, confined, decided, foreign, frames, judged, own, solo_left, stamped,
};
pub use later::{lasting, plain_in_range, whole_by_parts};
pub use lookups::{regions_for, texture_in};
