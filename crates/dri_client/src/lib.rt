//! What a client keeps of its own, whoever drives it: its place in its script, its phase, the stamp that it was told, its
//! drawing state with what of it is dirty, its placed textures, and the age up to which it knows the regions. Each entry
//! of a journal that is the client's own has one step here, which leaves what the table of entries says.
//!
//! A part holds no copy of its window's clips or origin: who draws keeps those beside it, and who only judges a journal
//! needs neither.
#![tactic(auto)]

mod activity;
mod part;
mod script;
mod spots;

pub use activity::Activity;
pub use part::ClientPart;
pub use script::{bytes_in, place_of};
pub use spots::stand;
