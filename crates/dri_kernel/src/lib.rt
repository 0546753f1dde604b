//! The kernel's part of the lock: the queue of those that wait, first come first served, and the calls that wait.
#![tactic(auto)]

mod kernel;
mod queue;
mod waiter;

pub use kernel::Kernel;
pub use queue::Queue;
