//! How a swap was made.

/// The planes were exchanged, or the pixels were copied.
#[derive(Drop)]
pub enum Swapped {
    Flipped,
    Copied,
}
