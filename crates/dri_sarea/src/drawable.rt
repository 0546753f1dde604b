//! What the shared area shows of a window.

/// A window as the shared area shows it: its stamp, and flags, which are 1 where it is mapped and else 0. A drawable
/// without a window is 0, 0.
#[derive(Clone, Copy)]
pub struct Drawable {
    pub stamp: u32,
    pub flags: u32,
}
