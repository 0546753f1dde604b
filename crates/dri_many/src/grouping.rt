//! Groups of a scene's clients.

use dri_base::{Numbers, Sequence};

/// An application: the clients that belong to it, and which of them is made current, in turn.
#[derive(Drop)]
pub struct Grouping {
    pub members: Numbers,
    pub currents: Numbers,
}

/// The groups of a text, in its order.
pub type Groupings = Sequence<Grouping>;
