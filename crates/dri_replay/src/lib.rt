//! What replays over a card share: what an entry's deed makes of the card's planes, that this is what the entry makes of the
//! world, the words that a client's triangle is drawn by, and the picture of what is left.
#![tactic(auto)]

mod fault;
mod picture;
mod words;

pub use fault::ReplayFault;
pub use picture::picture_of;
pub use words::state_words;
