//! Drawing on the card in a window's clips: a clear, a swap and a triangle, each once at each pixel of the clips. And what
//! drawing looks up in a scene of a client.
#![tactic(auto)]

mod drawing;
mod scripts;

pub use drawing::{clear_clips, draw_clips, swap_clips};
pub use scripts::{script_in, texture_bytes};
