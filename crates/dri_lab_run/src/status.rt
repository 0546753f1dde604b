//! How the laboratory's top call ended.

ghost use Rattle.std.specs.Prelude.{◌≡◌};
ghost use Rattle.dri_lab_run.specs.Notices.{code_of};

use dri_base::OutOfMemory;
use dri_replay::ReplayFault;
use dri_run::Status;

/// The number for a journal that has too few entries.
const NO_ENTRY: u8 = 8;

/// The number for a place outside the screen.
const NO_PLACE: u8 = 9;

/// The number for a scene with too many runs.
const TOO_MANY: u8 = 10;

/// How the laboratory's top call ended.
#[derive(Clone, Copy, Debug, PartialEq, Eq)]
pub enum LabStatus {
    /// As the program's top calls end too.
    Common(Status),
    /// The journal has fewer entries than the words ask for: so many.
    NoEntry { entries: u32 },
    /// The place that the words name isn't on the screen, which has these sides.
    NoPlace { width: u32, height: u32 },
    /// More runs of one number of events would have to be kept than the limit lets.
    TooMany,
}

impl LabStatus {
    /// The number that the program ends with: that of the program's status, 0 to 7, or 8 to 10 in the order of the variants.
    pub fn code(&self) -> u8
        ensures { result ≡ code_of self.now }
    {
        match self {
            LabStatus::Common(status) => status.code(),
            LabStatus::NoEntry { .. } => NO_ENTRY,
            LabStatus::NoPlace { .. } => NO_PLACE,
            LabStatus::TooMany => TOO_MANY,
        }
    }
}

impl From<OutOfMemory> for LabStatus {
    ghost use Rattle.dri_lab_run.specs.declared.status.LabStatus.TheVariants as lab;
    ghost use Rattle.dri_run.specs.declared.status.Status.TheVariants as answers;

    ghost from_gives = { λ _ status. status ≡ lab.Common answers.OutOfMemory };

    fn from(_error: OutOfMemory) -> LabStatus {
        LabStatus::Common(Status::OutOfMemory)
    }
}

impl From<ReplayFault> for LabStatus {
    ghost use Rattle.dri_lab_run.specs.declared.status.LabStatus.TheVariants as lab;
    ghost use Rattle.dri_run.specs.Replays.{unreplayed};

    ghost from_gives = { λ fault status. status ≡ lab.Common (unreplayed fault) };

    fn from(fault: ReplayFault) -> LabStatus {
        LabStatus::Common(Status::from(fault))
    }
}
