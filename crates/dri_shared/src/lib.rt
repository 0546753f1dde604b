//! The value under the lock: a scene, the journal of what happened under the lock, and the card, the windows and the
//! texture regions as that journal leaves them. A client's events are made through a side that shows it no board, the
//! server's through a side of its own.
#![tactic(auto)]

mod answers;
mod area;
mod client_events;
mod client_side;
mod guarding;
mod holdings;
mod painting;
mod running;
mod scripts;
mod server_events;
mod server_side;
mod serving;
mod shared;

pub use answers::{Taken, Told};
pub use client_events::place_entry;
pub use client_side::ClientSide;
pub use server_side::ServerSide;
pub use shared::Shared;
