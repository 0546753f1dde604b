//! A recording: a scene's text, and behind its `done` line a journal's. Each word that reads a journal of a scene reads it
//! so. Bytes and lines count over both texts.

ghost use Rattle.std.specs.Prelude.{◌≡◌, ◌<◌, ◌+◌, ℕ, length};
ghost use Rattle.dri_base.specs.Limits.{word_end};
ghost use Rattle.dri_journal.specs.declared.fault.JournalFault.{JournalFault};
ghost use Rattle.dri_words.specs.declared.reason.Reason.{Reason};
ghost use Rattle.dri_run.specs.Recordings.{recordings, refusal_behind};

use crate::Status;
use crate::reading::{MOST_BEHIND, Text, refusal};
use dri_base::{Entries, Scene};
use dri_journal::{JournalFault, read_journal};
use dri_scene::read_scene_part;
use std::alloc::Global;

/// A scene, and a journal.
#[derive(Drop)]
pub struct Recording {
    pub scene: Scene,
    pub journal: Entries,
}

/// The status for a text that has no journal and stands behind so many lines.
fn refusal_behind(lines: u32, fault: JournalFault) -> Status
    requires { (line : ℕ) (reason : Reason) → fault ≡ JournalFault.Refused line reason → lines + line < word_end }
    ensures { result ≡ refusal_behind lines fault }
{
    match fault {
        JournalFault::Refused { line, reason } => Status::Refused {
            line: lines + line,
            reason,
        },
        JournalFault::OutOfMemory => Status::OutOfMemory,
    }
}

impl Text for Recording {
    ghost kind = { recordings };

    ghost is_known = { λ recording. length recording.journal < word_end };

    fn most() -> usize {
        MOST_BEHIND
    }

    fn spelled(alloc: Global, bytes: &[u8]) -> Result<Recording, Status> {
        let (scene, part) = match read_scene_part(alloc, bytes) {
            Ok(begun) => begun,
            Err(fault) => return Err(refusal(fault)),
        };
        let (_, rest) = bytes.split_at(part.bytes as usize);
        match read_journal(alloc, rest) {
            Ok(journal) => Ok(Recording { scene, journal }),
            Err(fault) => Err(refusal_behind(part.lines, fault)),
        }
    }
}
