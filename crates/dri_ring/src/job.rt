//! Jobs for the card, each with all that it is drawn with.

use dri_base::{Point, Rgb, Triangle};
use dri_context::EmitWords;
use dri_rect::Region;

/// What is drawn later, in the clips of the moment at which it was put: a clear of back and depth; a triangle, with its
/// window's corner, the register words of its client's state, its client, and the client's texture that is bound; or a copy of
/// back to front.
#[derive(Drop)]
pub enum Job {
    Clear {
        clips: Region,
        colour: Rgb,
        depth: u16,
    },
    Draw {
        clips: Region,
        origin: Point,
        words: EmitWords,
        client: u32,
        texture: Option<u32>,
        triangle: Triangle,
    },
    Swap {
        clips: Region,
    },
}

/// A ring in which as many jobs wait as there is room for. The job is handed back.
#[derive(Drop)]
pub struct RingFull {
    pub job: Job,
    pub room: u32,
}

/// Whether a step ran a job.
#[derive(Clone, Copy, PartialEq, Eq)]
pub enum Stepped {
    Ran,
    Empty,
}
