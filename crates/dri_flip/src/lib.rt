//! A card that flips. It keeps two planes of colours and exchanges them where a swap covers the whole screen. The back plane
//! then owes a copy of front, which is made only when something needs it.
#![tactic(auto)]

mod card;
mod clips;
mod counted;
mod following;
mod regions;
mod registers;
mod replay;
mod showing;
mod shown;
mod swapped;
mod worked;

pub use card::FlipCard;
pub use dri_replay::ReplayFault;
pub use replay::replay_flip;
pub use shown::Shown;
pub use swapped::Swapped;
pub use worked::flips_and_copies;
