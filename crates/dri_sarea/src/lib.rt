//! The shared area of a screen as bytes: the lock word, the drawables, the frame, and the texture regions, in a fixed
//! layout of 8,192 bytes.
#![tactic(auto)]

mod check;
mod drawable;
mod fault;
mod layout;
mod read;
mod sarea;
mod write;

pub use drawable::Drawable;
pub use fault::{BadSarea, SareaFault};
pub use layout::DRAWABLE_COUNT;
pub use sarea::{Sarea, rows_follow_on};
