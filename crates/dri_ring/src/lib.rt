//! Deferred execution in a ring. Drawing is put into a ring with its clips and its registers, and runs later, in order.
#![tactic(auto)]

mod counted;
mod engine;
mod following;
mod job;
mod jobs;
mod law;
mod replay;
mod ringed;
mod running;
mod showing;
mod worked;

pub use dri_replay::ReplayFault;
pub use engine::Engine;
pub use job::{Job, RingFull, Stepped};
pub use law::drawn_at_once;
pub use replay::replay_ring;
pub use ringed::Ringed;
pub use worked::puts_and_idles;
