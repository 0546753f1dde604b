//! A world on one thread: the shared value, the clients, the lock word and the queue. A turn of an actor makes its one
//! legal event, kills aside, or is passed over; so a world is played by a schedule of turns and kills and then by rounds,
//! and what it leaves is determined by its scene.
#![tactic(auto)]

mod client_events;
mod client_turns;
mod groups;
mod lock;
mod rounds;
mod schedule;
mod seat;
mod server_turns;
mod site;
mod turned;
mod turning;
mod world;

pub use groups::run_groups;
pub use turned::Turned;
pub use world::World;
