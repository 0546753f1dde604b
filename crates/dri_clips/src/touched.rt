//! What a new stack touches.

use dri_base::{ClipRect, Numbers, Rgb, Sequence};

/// A rectangle of the screen that is to be painted in front, and its colour.
#[derive(Clone, Copy, PartialEq, Eq)]
pub struct Paint {
    pub rect: ClipRect,
    pub colour: Rgb,
}

/// Paints, in the order in which they may be made.
pub type Paints = Sequence<Paint>;

/// Rectangles of the screen.
pub type ClipRects = Sequence<ClipRect>;

/// What a moved window carries along: the pixels as they lie before the move, as rectangles none of which share a pixel,
/// and how far they go to the right and down.
#[derive(Drop)]
pub struct Carry {
    pub rects: ClipRects,
    pub dx: i32,
    pub dy: i32,
}

/// What a new stack touches: the windows whose clip set or origin changed, by rising number; what a moved window carries
/// along, if there is something; and what is to be painted once that is carried. No two of the paints share a pixel.
#[derive(Drop)]
pub struct Touched {
    pub windows: Numbers,
    pub carry: Option<Carry>,
    pub paints: Paints,
    pub(crate) whole: bool,
}

impl Touched {
    ghost use Rattle.std.specs.Prelude.{◌≡◌};
    ghost use Rattle.dri_clips.specs.Paints.{is_whole};

    /// Whether the change moved its window whole: where the window shows afterwards is where it showed before, moved as the
    /// window is. So it is where a window that shows nowhere is moved.
    pub fn whole(&self) -> bool
        ensures { result ≡ is_whole self.now }
    {
        self.whole
    }
}
