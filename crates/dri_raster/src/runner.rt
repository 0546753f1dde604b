//! A quantity along a row. Its weighed sum grows by the same slope from each column to the next. The runner keeps the
//! quotient and the remainder of the sum by twice the area, and those of the slope, so that a step divides nothing: it adds
//! both parts, and carries one area to the quotient where the remainder has reached it.

ghost use Rattle.std.specs.Prelude.{◌≡◌, ◌≤◌, IsTrue, pos, ◌+ℤ◌};
ghost use Rattle.dri_base.specs.Coverage.{covers, quantity};
ghost use Rattle.dri_raster.specs.Channels.{most, value_of};
ghost use Rattle.dri_raster.specs.Standing.{Standing};

use crate::channel::Channel;
use crate::setup::Setup;
use std::marker::Model;

/// A channel's quantity at a pixel that a triangle covers. Contracts see the triangle, the channel and the pixel.
#[derive(Drop)]
pub struct Runner<'a> {
    setup: &'a Setup,
    channel: Channel,
    x: i32,
    y: i32,
    area: u64,
    quotient: i64,
    remainder: u64,
    quotient_slope: i64,
    remainder_slope: u64,
}

impl<'a> Model for Runner<'a> {
    ghost use Rattle.dri_raster.specs.Standing.{Standing};
    ghost use Rattle.dri_raster.specs.Runners.{IsRunner, standing};

    ghost Value = { Standing };

    ghost view = { standing };

    ghost invariant = { IsRunner };
}

impl<'a> Runner<'a> {
    /// A runner that stands at pixel (x, y), whose centre the triangle covers.
    #[inline(always)]
    pub(crate) fn new(setup: &'a Setup, channel: Channel, x: i32, y: i32) -> Runner<'a>
        requires { IsTrue (covers setup.now x y) }
        ensures { result ≡ record { triangle = setup.now; channel = channel; x = x; y = y } }
    {
        let area = setup.twice_area();
        let sum = setup.sum_at(channel, x, y);
        let slope = setup.slope(channel);
        let divisor = area as i64;
        Runner {
            setup,
            channel,
            x,
            y,
            area,
            quotient: (sum / area) as i64,
            remainder: sum % area,
            quotient_slope: slope.div_euclid(divisor),
            remainder_slope: slope.rem_euclid(divisor) as u64,
        }
    }

    /// The quantity at the pixel at which the runner stands.
    #[inline(always)]
    pub fn value(&self) -> u32
        ensures value { result ≡ quantity self.now.triangle (value_of self.now.channel) self.now.x self.now.y }
        ensures bounded { result ≤ most self.now.channel }
    {
        self.quotient as u32
    }

    /// Steps to the next pixel to the right, whose centre the triangle covers.
    #[inline(always)]
    pub fn step(&mut self)
        requires { IsTrue (covers self.old.triangle (self.old.x +ℤ pos 1) self.old.y) }
        ensures { self.new ≡ record self.old { x = self.old.x +ℤ pos 1 } }
    {
        self.x += 1;
        self.quotient += self.quotient_slope;
        self.remainder += self.remainder_slope;
        if self.area <= self.remainder {
            self.quotient += 1;
            self.remainder -= self.area;
        }
    }
}
