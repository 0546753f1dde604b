//! The tests of the laws, and of the world with all that it stands on: its cases make each call of the shared value, of its
//! sides and of a client.
#![tactic(auto)]

#[cfg(test)]
mod meaning;
#[cfg(test)]
mod world;
