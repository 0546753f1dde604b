//! A card that keeps colours in sixteen bits and draws lines; what it leaves of a run, and of a frame drawn alone; and the replay of
//! a journal on it. The laws of runs and frames stand in this crate's specifications, of which most are for any card's pixel rule;
//! they are the contracts of functions that do nothing.
#![tactic(auto)]

mod card;
mod clips;
mod drawing;
mod following;
mod format;
mod line;
mod line_drawing;
mod opening;
mod packing;
mod replay;
mod runs;
mod showing;
mod sixteen;
mod worked;

pub use card::Card16;
pub use dri_replay::ReplayFault;
pub use format::FiveSixFive;
pub use line::{is_line, worked_lines};
pub use line_drawing::{dot_is_the_line, draw_line};
pub use packing::{pack, words};
pub use replay::replay16;
pub use runs::{alone, as_ever, beside, confined, own};
pub use sixteen::{alone16, confined16, for_good16};
pub use worked::{colours, each_time, four_pixels, root};
