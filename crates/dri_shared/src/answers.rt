//! What the events give back.

use dri_base::Point;
use dri_rect::Region;

/// What a client learns when the kernel lets it in: whether another owned the card, the shared stamp of its window, and
/// the global age of the texture regions.
#[derive(Clone, Copy, Debug, PartialEq, Eq)]
pub struct Taken {
    pub new_owner: bool,
    pub stamp: u32,
    pub age: u32,
}

/// What a client is told of its window: its stamp, its upper left corner on the screen, and the screen's pixels at which
/// it shows.
#[derive(Drop)]
pub struct Told {
    pub stamp: u32,
    pub origin: Point,
    pub clips: Region,
}
