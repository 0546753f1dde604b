//! Which pixels a triangle covers, and what its quantities are there.
#![tactic(auto)]

mod amid;
mod channel;
mod edge;
mod edges;
mod frame;
mod grid;
mod neighbours;
mod runner;
mod setup;
mod span;
mod sums;
mod walk;

pub use amid::covered_is_amid;
pub use channel::Channel;
pub use frame::first;
pub use neighbours::common_edge;
pub use runner::Runner;
pub use setup::Setup;
pub use span::Span;
pub use sums::sums_stay_small;
pub use walk::Walk;
