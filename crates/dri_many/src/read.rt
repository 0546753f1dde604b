//! The reader of a whole text: one pass over the lines, up to `done`, and to the end.

ghost use Rattle.std.specs.Prelude.{◌≡◌, ◌≤◌, ◌+◌, length, IfOk};
ghost use Rattle.dri_many.specs.Groupings.{AreGroupings};
ghost use Rattle.dri_many.specs.Readings.{Gives, fault_at, groups_of_text};

use crate::fault::{GroupFault, Stop};
use crate::grouping::Groupings;
use crate::reading::{after_bytes, is_end, opening};
use dri_base::Scene;
use dri_words::{Parts, Reason, to_end};
use std::alloc::Global;

/// Why a line leads no further, with its number.
fn fault_at(line: u32, stop: Stop) -> GroupFault
    ensures { result ≡ fault_at line stop }
{
    match stop {
        Stop::Refused(reason) => GroupFault::Refused { line, reason },
        Stop::OutOfMemory => GroupFault::OutOfMemory,
    }
}

/// The groups that the bytes spell, whose first line has the number `first_line`. Nothing but lines that are passed over may
/// follow their `done` line. They are refused exactly where the grammar has no such text, with the first line that is refused
/// and the first reason for it. What is read are groups of the scene.
#[tactic(auto, unfolding(crate::specs::Readings::groups_of_text), using(dri_words::proofs::TextSizes::text_size_split, crate::proofs::SoundSteps::whole, crate::proofs::SoundSteps::opens_at))]
pub fn read_groups(
    alloc: Global,
    bytes: &[u8],
    scene: &Scene,
    first_line: u32,
) -> Result<Groupings, GroupFault>
    requires { first_line + length bytes.now ≤ 4294967295 }
    ensures gives { Gives result (groups_of_text scene.now first_line bytes.now) }
    ensures good { IfOk result (AreGroupings scene.now) }
{
    let mut reading = opening(alloc);
    let mut lines = Parts::new(bytes, b'\n');
    let mut number = first_line;
    while let Some(line) = lines.next() {
        if lines.is_empty() {
            break;
        }
        if let Err(stop) = after_bytes(&mut reading, alloc, scene, line) {
            return Err(fault_at(number, stop));
        }
        if is_end(reading.place) {
            to_end(lines, number + 1)?;
            return Ok(reading.groups);
        }
        number += 1;
    }
    Err(GroupFault::Refused {
        line: number,
        reason: Reason::Ended,
    })
}
