//! The tests of the lock, of the queue and of the calls that wait.
#![tactic(auto)]

#[cfg(test)]
mod hwlock;
#[cfg(test)]
mod kernel;
#[cfg(test)]
mod notes;
#[cfg(test)]
mod stress;
#[cfg(test)]
mod waiting;
