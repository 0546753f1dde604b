//! What the lock guards beside the journal, as the journal leaves it.

use dri_card::Card;
use dri_clips::Board;
use dri_texheap::Regions;

/// The places of a list by client number: the numbers are 1 to 32, and place 0 is no client's.
pub(crate) const PLACES: usize = 33;

/// The card, the board of windows, the texture regions, the place of each client's next command by client number (1 to
/// 32; there is no client 0), the context that owns the card, the client that holds, the context that the last hold left,
/// and the number of changes made.
#[derive(Drop)]
pub(crate) struct Holdings {
    pub(crate) card: Card,
    pub(crate) board: Board,
    pub(crate) regions: Regions,
    pub(crate) places: [u32; PLACES],
    pub(crate) owner: u32,
    pub(crate) holder: Option<u32>,
    pub(crate) left: u32,
    pub(crate) made: u32,
}
