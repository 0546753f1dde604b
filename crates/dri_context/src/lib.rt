//! A client's drawing state with the groups of it that the card has not seen yet, and the words that tell the card.
#![tactic(auto)]

mod apply;
mod context;
mod emit;
mod groups;
mod law;
mod reader;
mod values;

pub use apply::TakeWords;
pub use context::ContextState;
pub use emit::EmitWords;
pub use groups::Groups;
pub use law::emitted_words_are_taken;
