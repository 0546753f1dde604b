//! The tests of the texts of a scene, of its groups and of a journal, of pictures, and of a ring of jobs.
#![tactic(auto)]

#[cfg(test)]
mod groups;
#[cfg(test)]
mod picture;
#[cfg(test)]
mod replayed;
#[cfg(test)]
mod ring;
#[cfg(test)]
mod texts;
