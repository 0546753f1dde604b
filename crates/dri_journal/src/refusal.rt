//! Why an entry isn't legal, or isn't taken.

use dri_base::OutOfMemory;

/// Why an entry isn't legal after those that were taken: the first of its conditions that isn't met, in the order in which
/// the definition `conditions` has them.
#[derive(Clone, Copy, Debug, PartialEq, Eq)]
pub enum Refusal {
    /// The scene has no such client.
    NoSuchClient,
    /// The client isn't in a phase from which the entry leads on.
    WrongPhase,
    /// Somebody holds.
    Held,
    /// A light take by a client that wasn't the last to leave.
    NotTheLast,
    /// The context found is neither 0 nor the one that was left, or it is the client's own.
    WrongContext,
    /// The client's next command isn't a triangle.
    NoTriangle,
    /// The texture isn't the one that the client's triangles need, or it is placed already.
    WrongTexture,
    /// The run of regions isn't the one that the rule gives.
    WrongRun,
    /// A texture that the triangle needs isn't placed.
    NotPlaced,
    /// The groups aren't the dirty ones, or none is dirty.
    WrongGroups,
    /// The place isn't that of the client's next command.
    WrongPlace,
    /// The client has no command left, or its next one is `die`.
    NoCommand,
    /// The card doesn't know all groups of the client's registers yet.
    NotEmitted,
    /// The change isn't the next one, or all were made.
    NoSuchChange,
    /// Nothing kills the client: it isn't at a `die`, and the schedule doesn't name it or it is done.
    NotKilled,
}

/// Why an entry wasn't taken.
#[derive(Clone, Copy, Debug, PartialEq, Eq)]
pub enum StepFault {
    /// It isn't legal after those that were taken.
    Refused(Refusal),
    /// A growth of memory was refused.
    OutOfMemory,
}
