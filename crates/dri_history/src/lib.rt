//! What the entries of a journal did at a place of the screen: what touched it, one touch after
//! the other.
#![tactic(auto)]

mod clips;
mod drawing;
mod following;
mod history;
mod law;
mod sampling;
mod showing;
mod touch;
mod touching;
mod worked;

pub use dri_replay::ReplayFault;
pub use history::pixel_history;
pub use law::untouched;
pub use touch::{Clip, Kind, Sample, Touch, Touches};
pub use worked::left_and_reached;
