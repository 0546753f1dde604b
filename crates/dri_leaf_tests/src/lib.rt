//! The tests of the lists, the regions of the screen and their board, texture memory, the shared area, and the laws of the
//! model.
#![tactic(auto)]

#[cfg(test)]
mod base;
#[cfg(test)]
mod clips;
#[cfg(test)]
mod model;
#[cfg(test)]
mod rect;
#[cfg(test)]
mod sarea;
#[cfg(test)]
mod texheap;
