//! What one client keeps and does: its private part of the world, and the calls that make its events.
//!
//! A client holds no lock by itself. Who drives it takes the lock, hands it its side of the shared value, and gives the
//! lock up; the client says what comes next, and keeps its part as the journal leaves it.
#![tactic(auto)]

mod ahead;
mod answers;
mod client;
mod opening;
mod phase;

pub use answers::{Acted, Checked};
pub use client::Client;
pub use opening::clients_of;
pub use phase::Phase;
