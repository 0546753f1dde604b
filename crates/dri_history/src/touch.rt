//! What is told of an entry that touches a place of the screen.

use dri_base::{Pixel, Rect, Rgb, Sequence};

/// What is done to a place: a command of a client draws there or shows it, or a new stack of windows carries a pixel there in
/// all planes, or paints it in front.
#[derive(Clone, Copy)]
pub enum Kind {
    Clear,
    Triangle,
    Swap,
    Carry,
    Paint,
}

/// A rectangle of the clip list of a client's window, and the window's stamp.
#[derive(Clone, Copy)]
pub struct Clip {
    pub stamp: u32,
    pub rect: Rect,
}

/// What stands at a place: the colour that is shown, and the colour and the depth that are drawn behind it.
#[derive(Clone, Copy)]
pub struct Sample {
    pub front: Rgb,
    pub back: Pixel,
}

/// An entry that touches a place: its number, counted from 1; what it does there; the client whose entry it is, or 0 for the
/// server; for a command the clip that the place lies in; and what stands there before and after it.
#[derive(Clone, Copy)]
pub struct Touch {
    pub entry: u32,
    pub kind: Kind,
    pub client: u32,
    pub clip: Option<Clip>,
    pub before: Sample,
    pub after: Sample,
}

/// Touches, in the order of their entries.
pub type Touches = Sequence<Touch>;
