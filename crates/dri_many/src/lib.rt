//! The text of groups: which clients of a scene belong to one application, and which of them is made current in turn.
//!
//! A line passes three stages. Its words make a form, with the numbers as they are written, of any size; then come the
//! numbers in their range; and the groups that were read so far take the line on, or refuse it. So the reasons come in their
//! order: shape, range, and then unknown, twice and limit.
#![tactic(auto)]

mod fault;
mod grouping;
mod line;
mod read;
mod reading;

pub use fault::GroupFault;
pub use grouping::{Grouping, Groupings};
pub use read::read_groups;
