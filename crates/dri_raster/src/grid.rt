//! The grid that corners lie on: sixteenths of a pixel.

/// How many sixteenths a pixel has along a side.
pub const UNITS: i32 = 16;

/// How far a pixel's centre lies from its sides, in sixteenths.
pub const HALF: i32 = 8;

/// What a place is made greater by, so that its quotient by `UNITS` is the first pixel whose centre is not before it.
pub const ROUNDED_UP: i32 = UNITS - HALF - 1;
