//! Texture memory in regions: which are in use or shared, by age; the run that an allocation takes, and what it frees; and
//! where the textures of a client are placed, with the levels of the regions that its small ones share.
#![tactic(auto)]

mod choice;
mod links;
mod marks;
mod placed;
mod regions;
mod run;

pub use placed::{BLOCK, Placed, small_blocks};
pub use regions::Regions;
pub use run::{Run, Spot, TooLarge};
