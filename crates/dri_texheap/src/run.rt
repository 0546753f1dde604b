//! Neighbouring regions of texture memory, and where a texture stands in them.

ghost use Rattle.std.specs.Prelude.{◌≡◌, ◌≤◌};
ghost use Rattle.dri_model.specs.Heaps.{base_of};

use crate::placed::BLOCK;
use std::marker::Model;

/// Neighbouring regions: the first one's number, and how many they are. Contracts see the run of the definitions.
#[derive(Clone, Copy, PartialEq, Eq)]
pub struct Run {
    pub first: u32,
    pub count: u32,
}

impl Model for Run {
    ghost use Rattle.dri_model.specs.Heaps as Heaps;

    ghost Value = { Heaps.Run };

    ghost view = { λ run. record { first = run.first; count = run.count } };

    ghost inverse = { λ run. record { first = run.first; count = run.count } };
}

/// Where a texture stands: in the regions of a run, from a block of 64 bytes of its first region on. Contracts see the spot
/// of the definitions.
#[derive(Clone, Copy, PartialEq, Eq)]
pub struct Spot {
    pub run: Run,
    pub block: u32,
}

impl Model for Spot {
    ghost use Rattle.dri_model.specs.Heaps as Heaps;

    ghost Value = { Heaps.Spot };

    ghost view = { λ spot. record { run = spot.run; block = spot.block } };

    ghost inverse = { λ spot. record { run = spot.run; block = spot.block } };
}

impl Spot {
    /// The first byte of a texture that stands there, with regions of so many bytes, at most 65,536. The run begins at one of
    /// 64 regions, and the block is one of a region's.
    pub fn base(self, region_size: u32) -> u32
        requires size { region_size ≤ 65536 }
        requires first { self.run.first ≤ 64 }
        requires block { self.block ≤ 1024 }
        ensures { result ≡ base_of region_size self }
    {
        let region = self.run.first;
        region * region_size + BLOCK * self.block
    }
}

/// An allocation wanted more regions than there are: how many it needs, and how many there are.
#[derive(Clone, Copy, Debug, PartialEq, Eq)]
pub struct TooLarge {
    pub need: u32,
    pub have: u32,
}
