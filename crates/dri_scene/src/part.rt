//! The reader of a whole text, and of a text that begins with a scene: one pass over the lines.

ghost use Rattle.std.specs.Prelude.{◌≡◌, ◌≤◌, ◌+◌, length, IfOk};
ghost use Rattle.dri_base.specs.Ranges.{InRange};
ghost use Rattle.dri_words.specs.Parts.{parts_at};
ghost use Rattle.dri_scene.specs.Readings.{Gives, begun, fault_at, part_of, scene_of};
ghost use Rattle.dri_words.specs.Lines.{text_size};

use crate::fault::{SceneFault, Stop};
use crate::place::is_end;
use crate::reading::{after_bytes, opening};
use dri_base::Scene;
use dri_words::{Parts, Reason, Refusal, to_end};
use std::alloc::Global;

/// How much of a text its scene takes: the bytes and the lines up to the `done` line and with it.
#[derive(Clone, Copy)]
pub struct Part {
    pub bytes: u32,
    pub lines: u32,
}

/// A scene whose `done` line was read, how much of the text it takes, and the lines that follow.
#[derive(Drop)]
pub struct Begun<'a> {
    pub scene: Scene,
    pub part: Part,
    pub rest: Parts<'a>,
}

/// Why a line leads no further, with its number.
fn fault_at(line: u32, stop: Stop) -> SceneFault
    ensures { result ≡ fault_at line stop }
{
    match stop {
        Stop::Refused(reason) => SceneFault::Refused { line, reason },
        Stop::OutOfMemory => SceneFault::OutOfMemory,
    }
}

/// Reads the lines up to the `done` line and with it.
#[tactic(auto, using(dri_words::proofs::TextSizes::text_size_split, crate::proofs::SoundSteps::whole))]
fn up_to_done<'a>(alloc: Global, bytes: &'a [u8]) -> Result<Begun<'a>, SceneFault>
    requires { length bytes.now ≤ 4294967294 }
    ensures value { Gives result (begun bytes.now) }
    ensures range { IfOk result (λ b. InRange b.scene) }
    ensures room { IfOk result (λ b. b.part.lines + text_size b.rest ≤ length bytes.now + 1) }
    ensures short { IfOk result (λ b. b.part.lines ≤ 4294967294) }
{
    let mut reading = opening(alloc);
    let mut lines = Parts::new(bytes, b'\n');
    let mut number: u32 = 1;
    let mut taken: u32 = 0;
    while let Some(line) = lines.next() {
        if lines.is_empty() {
            break;
        }
        if let Err(stop) = after_bytes(&mut reading, alloc, line) {
            return Err(fault_at(number, stop));
        }
        taken += line.len() as u32 + 1;
        if is_end(reading.place) {
            return Ok(Begun {
                scene: reading.scene,
                part: Part {
                    bytes: taken,
                    lines: number,
                },
                rest: lines,
            });
        }
        number += 1;
    }
    Err(SceneFault::Refused {
        line: number,
        reason: Reason::Ended,
    })
}

/// The scene that the bytes spell, at most 4,294,967,294 of them. Nothing but lines that are passed over may follow its
/// `done` line. It is refused exactly where the grammar has no such text, with the first line that is refused and the
/// first reason for it.
#[tactic(auto, unfolding(crate::specs::Readings::scene_of))]
pub fn read_scene(alloc: Global, bytes: &[u8]) -> Result<Scene, SceneFault>
    requires { length bytes.now ≤ 4294967294 }
    ensures value { Gives result (scene_of bytes.now) }
    ensures range { IfOk result InRange }
{
    let begun = up_to_done(alloc, bytes)?;
    match to_end(begun.rest, begun.part.lines + 1) {
        Ok(()) => Ok(begun.scene),
        Err(Refusal { line, reason }) => Err(SceneFault::Refused { line, reason }),
    }
}

/// The scene that begins the bytes, at most 4,294,967,294 of them, and how much of them it takes. What follows its `done`
/// line isn't looked at. It is refused as `read_scene` refuses.
#[tactic(auto, unfolding(crate::specs::Readings::part_of))]
pub fn read_scene_part(alloc: Global, bytes: &[u8]) -> Result<(Scene, Part), SceneFault>
    requires { length bytes.now ≤ 4294967294 }
    ensures value { Gives result (part_of bytes.now) }
    ensures range { IfOk result (λ read. InRange read.0) }
{
    let begun = up_to_done(alloc, bytes)?;
    Ok((begun.scene, begun.part))
}
