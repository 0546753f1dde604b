//! The card's command buffers: triangles of thirteen words each, put into a buffer of fixed size and read back.
#![tactic(auto)]

mod buffer;
mod decoded;
mod spelling;

pub use buffer::{Buffer, BufferFull};
pub use decoded::{Decoded, decode};
