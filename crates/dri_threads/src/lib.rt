//! Clients in threads: each client of a scene and the server is an actor in a thread of its own, and they take turns by
//! the lock alone. An actor takes the lock, looks whether somebody holds, makes room for its whole hold, makes its
//! entries, and leaves. What it knows between two holds it knows by its pass.
#![tactic(auto)]

mod actor;
mod drivers;
mod events;
mod gate;
mod run;
mod session;
mod stage;
mod whole;

pub use drivers::{Drivers, drivers_of};
pub use gate::{AlwaysOpen, Gate, GatePoint};
pub use run::{Finished, run_actors};
pub use whole::{Closed, run_clients};
