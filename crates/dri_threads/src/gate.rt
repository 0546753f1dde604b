//! Gates, at which a test may hold an actor up.

/// Where an actor is: about to take the lock, or in its hold and about to make its entries.
#[derive(Clone, Copy, Debug, PartialEq, Eq)]
pub enum GatePoint {
    BeforeLock,
    Holding,
}

/// Each actor calls it before each lock, and in each hold in which it makes entries. It goes on when the call returns.
/// A gate is handed nothing but the two values, so it can change nothing of the run but its pace.
pub trait Gate {
    /// The actor of this number, 0 for the server and else the client's, is at this point.
    fn at(&self, actor: u32, point: GatePoint);
}

/// The gate that returns at once.
#[derive(Clone, Copy, Debug, PartialEq, Eq)]
pub struct AlwaysOpen;

impl Gate for AlwaysOpen {
    fn at(&self, _actor: u32, _point: GatePoint) {}
}
