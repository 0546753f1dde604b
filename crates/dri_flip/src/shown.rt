//! What a replay by a card that flips shows.

use dri_meaning::Picture;

/// The screen's front after a journal, with how many flips and copies were made.
#[derive(Drop)]
pub struct Shown {
    pub picture: Picture,
    pub flips: u32,
    pub copies: u32,
}
