//! A scene played by turns and kills that a caller gives, in place of its schedule, and no further: what the lock word, the screen
//! and the journal are then, and which of them were passed over.
#![tactic(auto)]

mod fault;
mod playing;

pub use fault::PlayFault;
pub use playing::{Played, play};
