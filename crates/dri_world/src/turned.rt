//! What a turn or a kill answers.

use dri_base::Event;

/// What a turn or a kill did: it made one event, or was passed over.
#[derive(Clone, Copy)]
pub enum Turned {
    Did(Event),
    Passed,
}
