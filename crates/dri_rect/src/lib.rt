//! Sets of pixels, and the set operations on them.
//!
//! A region is kept as the X server and pixman keep it, in y-x bands. Its rectangles stand in one list, in bands from
//! top to bottom. The rectangles of a band have the same first and last line, and stand from left to right; they
//! neither overlap nor touch. Two bands that touch are never equal in columns: they would be one band. So each set of
//! pixels has exactly one list. With the list stands a rectangle that holds its pixels; a region of one rectangle is that
//! rectangle alone and takes no memory. So where two regions lie apart, or one rectangle holds the other region, nothing is
//! walked.
//!
//! Unite, subtract and intersect share one walk down the bands of both lists, which is linear in them. Where it comes to
//! a line at which one of the two may change, it combines the rows of columns there, by the operation's walk to the right. A
//! band that turns out equal to the one above is taken back, and that one made longer. Where one of the two is over, what is
//! left of the other is copied whole.
#![tactic(auto)]

mod bands;
mod extents;
mod operation;
mod region;
mod rows;

pub use extents::shared;
pub use region::Region;
