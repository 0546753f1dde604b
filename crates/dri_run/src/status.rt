ghost use Rattle.std.specs.Prelude.{◌≡◌};
ghost use Rattle.dri_run.specs.Notices.{code_of};

use dri_base::OutOfMemory;
use dri_replay::ReplayFault;
use dri_words::Reason;

/// How a top call ended.
#[derive(Clone, Copy, Debug, PartialEq, Eq)]
pub enum Status {
    /// Picture and notes were written whole.
    Done,
    /// The words are of no form.
    Usage,
    /// A text isn't allowed: its first refused line, counted from 1, and the reason. Line 0 is no line of a text.
    Refused { line: u32, reason: Reason },
    /// The input has more bytes than the limit.
    TooLong,
    /// The source failed.
    ReadFault,
    /// A sink failed: the picture's before it took all, or the notes' once the picture was whole.
    WriteFault,
    /// A journal is no run of its scene: its first entry, counted from 1, that isn't legal.
    NotARun { entry: u32 },
    /// A growth of memory was refused.
    OutOfMemory,
}

impl Status {
    /// The number that the program ends with: 0 for `Done` to 7 for `OutOfMemory`, in the order of the variants.
    pub fn code(&self) -> u8
        ensures { result ≡ code_of self.now }
    {
        match self {
            Status::Done => 0,
            Status::Usage => 1,
            Status::Refused { .. } => 2,
            Status::TooLong => 3,
            Status::ReadFault => 4,
            Status::WriteFault => 5,
            Status::NotARun { .. } => 6,
            Status::OutOfMemory => 7,
        }
    }
}

impl From<OutOfMemory> for Status {
    ghost use Rattle.dri_run.specs.declared.status.Status.TheVariants as answers;

    ghost from_gives = { λ _ status. status ≡ answers.OutOfMemory };

    fn from(_error: OutOfMemory) -> Status {
        Status::OutOfMemory
    }
}

impl From<ReplayFault> for Status {
    ghost use Rattle.dri_run.specs.Replays.{unreplayed};

    ghost from_gives = { λ fault status. status ≡ unreplayed fault };

    fn from(fault: ReplayFault) -> Status {
        match fault {
            ReplayFault::NotARun { entry } => Status::NotARun { entry },
            ReplayFault::OutOfMemory => Status::OutOfMemory,
        }
    }
}
