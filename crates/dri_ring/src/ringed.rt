//! What a replay through a ring leaves.

use dri_meaning::Picture;

/// The screen's front after a journal, with how many jobs were put, how often a ring that wasn't empty was made idle, and the
/// most jobs that waited after a put.
#[derive(Drop)]
pub struct Ringed {
    pub picture: Picture,
    pub puts: u32,
    pub idles: u32,
    pub most: u32,
}
