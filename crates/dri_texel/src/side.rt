//! A side of an image. What lies beyond it comes again or is the last column or row. Its reciprocal is worked out once, so that
//! no column is divided by it: the quotient of a number below 4,096 is the product's part above 2^32.

ghost use Rattle.std.specs.Prelude.{◌≡◌, ◌≤◌, ◌<◌, ◌+◌, ◌*◌, ◌%◌};
ghost use Rattle.dri_base.specs.Ranges.{IsWithin};
ghost use Rattle.dri_base.specs.Texels.{wrapped};
ghost use Rattle.dri_texel.specs.Sides.{Wrapping};

use dri_base::Wrap;
use std::marker::Model;

/// The bits of a reciprocal.
const ONE: u64 = 4_294_967_296;

/// A side of an image, 1 to 256, ready for columns or rows. Contracts see how long it is, and the wrapping.
#[derive(Drop)]
pub struct Side {
    wrap: Wrap,
    side: u32,
    reciprocal: u64,
}

impl Model for Side {
    ghost use Rattle.dri_texel.specs.Sides.{IsSide, Wrapping, wrapping};

    ghost Value = { Wrapping };

    ghost view = { wrapping };

    ghost invariant = { IsSide };
}

impl Side {
    /// A side of 1 to 256.
    pub fn new(wrap: Wrap, side: u32) -> Side
        requires { IsWithin 1 256 side }
        ensures { result ≡ record { wrap = wrap; side = side } }
    {
        let reciprocal = (ONE + u64::from(side) - 1) / u64::from(side);
        Side {
            wrap,
            side,
            reciprocal,
        }
    }

    /// A column or row below 4,096, brought within the side.
    #[inline(always)]
    pub fn wrapped(&self, n: u32) -> u32
        requires { n < 4096 }
        ensures value { result ≡ wrapped self.now.wrap n self.now.side }
        ensures within { result < self.now.side }
    {
        match self.wrap {
            Wrap::Repeat => self.rest(n),
            Wrap::Clamp => n.min(self.side - 1),
        }
    }

    /// What is left of a number below 4,096 by the side.
    #[inline(always)]
    fn rest(&self, n: u32) -> u32
        requires { n < 4096 }
        ensures value { result ≡ n % self.now.side }
        ensures within { result < self.now.side }
    {
        let quotient = u64::from(n) * self.reciprocal / ONE;
        (u64::from(n) - quotient * u64::from(self.side)) as u32
    }
}
