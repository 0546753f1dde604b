//! The windows of a screen: their stack, the pixels at which each of them shows, and the stamps that tell a client that
//! the pixels at which its window shows, or its corner, changed.
//!
//! The stack is an index map by window number, from top to bottom. With it stand a region for each window number, the
//! screen's pixels at which that window shows, and the region that no window covers. A change makes the new stack beside
//! the old one, and mends the regions within its area, which is the union of the old and new rectangles of the windows that
//! it names: one walk over the area from top to bottom gives each window that it meets its part. What each window gained,
//! the stamps and the paints come by that walk. A window that is moved takes along what shows of it before and after; only
//! the rest of it is painted. All is put in place last, so where memory is wanting nothing has changed.
#![tactic(auto)]

mod area;
mod board;
mod cause;
mod change;
mod layout;
mod mending;
mod moving;
mod paints;
mod regions;
mod stack;
mod stamps;
mod touched;

pub use board::Board;
pub use change::ChangeFault;
pub use paints::clip_rect;
pub use touched::{Carry, ClipRects, Paint, Paints, Touched};
