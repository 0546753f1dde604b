//! Pixels that were read out of a plane, in a list whose memory is taken once.

ghost use Rattle.std.specs.Prelude.{◌≡◌, ◌≤◌, [], IfOk};

use dri_base::OutOfMemory;
use std::alloc::Global;
use std::marker::Model;

/// A list of pixels with room for more. Contracts see the pixels and a number, spare: how many more there is room for.
#[derive(Drop)]
pub struct Lifted<T> {
    pub(crate) pixels: Vec<T>,
    room: u32,
}

impl<T> Model for Lifted<T> {
    ghost use Rattle.std.specs.Prelude.{◌-◌, ◌≤◌};
    ghost use Rattle.std.specs.Vec.{vec_len, vec_capacity};
    ghost use Rattle.dri_plane.specs.Moves.{Pixels, pixels_code};

    ghost Value = { Pixels T };

    ghost coded = { pixels_code T.code };

    ghost view = { λ l. record { pixels = l.pixels.items; spare = l.room - vec_len l.pixels } };

    ghost invariant = { λ l. (vec_len l.pixels ≤ l.room) × (l.room ≤ vec_capacity l.pixels) };
}

impl<T> Lifted<T> {
    /// A list of no pixels with room for so many. It takes its memory at once.
    pub fn new(alloc: Global, room: u32) -> Result<Lifted<T>, OutOfMemory>
        ensures empty { IfOk result (λ lifted. lifted.pixels ≡ []) }
        ensures spare { IfOk result (λ lifted. room ≤ lifted.spare) }
    {
        let pixels = Vec::with_capacity(alloc, room as usize)?;
        Ok(Lifted { pixels, room })
    }
}
