//! All ends of a small scene: the journals and screens that its runs of at most so many events can end with, whatever turns
//! and kills they come by. They are found level by level: the runs of one number of events, without those that leave what
//! another leaves, and then the runs that go on from them by one event.
#![tactic(auto)]

mod choices;
mod ends;
mod exploring;
mod fault;
mod level;
mod node;
mod playing;
mod same;

pub use ends::{End, Ends, Screen};
pub use exploring::all_ends;
pub use fault::ExploreFault;
