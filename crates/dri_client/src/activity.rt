//! What a client is doing: the phases of the definitions.

ghost use Rattle.std.specs.Prelude.{◌≡◌, Some, if◌then◌else◌};
ghost use Rattle.dri_core.specs.Phases.{first_phase, phase_after, left_from, Old, In};
ghost use Rattle.dri_client.specs.Activities.{phase_in};

use dri_base::Command;

/// What a client is doing.
#[derive(Clone, Copy, PartialEq, Eq)]
pub enum Activity {
    /// It holds nothing, and a command is left.
    Out,
    /// It holds, and its stamp isn't its window's.
    Old,
    /// It holds, and may act.
    In,
    /// It holds, and must leave.
    Over,
    /// It holds, has said that its stamp is old, and must leave.
    Ask,
    /// It holds nothing, and wants information.
    Asking,
    /// It has run its last command.
    Ended,
    /// It has died.
    Dead,
}

impl Activity {
    // That of a client which hasn't begun: out, or ended where its script is empty.
    pub(crate) fn first(commands: &[Command]) -> Activity
        ensures { phase_in result ≡ first_phase commands.now }
    {
        if commands.is_empty() {
            Activity::Ended
        } else {
            Activity::Out
        }
    }

    // That of a client which the kernel let in.
    pub(crate) fn taken(is_stale: bool) -> Activity
        ensures { phase_in result ≡ (if is_stale then Old else In) }
    {
        if is_stale {
            Activity::Old
        } else {
            Activity::In
        }
    }

    // That of a client which ran a command, the last one or not.
    pub(crate) fn ran(command: &Command, is_last: bool) -> Activity
        ensures { phase_in result ≡ phase_after (Some command.now) is_last }
    {
        match command {
            Command::Swap | Command::Yield => Activity::Over,
            _ => {
                if is_last {
                    Activity::Over
                } else {
                    Activity::In
                }
            }
        }
    }

    // That of a client which leaves, with no command left or some.
    pub(crate) fn left(self, is_last: bool) -> Activity
        ensures { phase_in result ≡ left_from (phase_in self) is_last }
    {
        match self {
            Activity::Ask => Activity::Asking,
            _ => {
                if is_last {
                    Activity::Ended
                } else {
                    Activity::Out
                }
            }
        }
    }
}
