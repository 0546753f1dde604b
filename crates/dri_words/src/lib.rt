//! What the texts of the product have in common: their lines and words, numbers, colours, ranges, and the reasons for
//! which a line is refused.
#![tactic(auto)]

mod lines;
mod parts;
mod ranges;
mod reason;
mod words;

pub use lines::{Refusal, is_passed_over, to_end};
pub use parts::Parts;
pub use ranges::{signed_within, within};
pub use reason::Reason;
pub use words::{alone, colour, colour_alpha, number, numbers_are_decimal, word};
