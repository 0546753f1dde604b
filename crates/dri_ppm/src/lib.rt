//! Pictures in the P6 form: a header of three lines, `P6`, the sides, and `255`, and then three bytes a pixel, row by row.
#![tactic(auto)]

mod header;
mod whole;
mod write;

pub use whole::{picture_bytes, ppm_bytes};
pub use write::write_ppm;
