//! The nine phases that a client shows. A client that was stopped shows that it is dying, and keeps what it was doing,
//! since its part of the world stays as it was until its death.

ghost use Rattle.std.specs.Prelude.{◌≡◌};
ghost use Rattle.dri_client.specs.Activities.{phase_in};
ghost use Rattle.dri_driver.specs.Shown.{shown_phase};

use dri_client::Activity;

/// What a client shows that it is doing.
#[derive(Clone, Copy, Debug, PartialEq, Eq)]
pub enum Phase {
    /// It holds nothing, and a command is left.
    Out,
    /// It holds, and its stamp isn't its window's.
    Old,
    /// It holds, and may act.
    In,
    /// It holds, and must leave.
    Over,
    /// It holds, has said that its stamp is old, and must leave.
    Ask,
    /// It holds nothing, and wants information.
    Asking,
    /// It was stopped, and only its death is left.
    Dying,
    /// It has run its last command.
    Ended,
    /// It has died.
    Dead,
}

/// The phase that a client shows, which is doing this and is dying or not.
pub(crate) fn shown(activity: Activity, is_dying: bool) -> Phase
    ensures { result ≡ shown_phase is_dying (phase_in activity) }
{
    if is_dying {
        return Phase::Dying;
    }
    match activity {
        Activity::Out => Phase::Out,
        Activity::Old => Phase::Old,
        Activity::In => Phase::In,
        Activity::Over => Phase::Over,
        Activity::Ask => Phase::Ask,
        Activity::Asking => Phase::Asking,
        Activity::Ended => Phase::Ended,
        Activity::Dead => Phase::Dead,
    }
}
