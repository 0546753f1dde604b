//! The tests of the top calls.
#![tactic(auto)]

#[cfg(test)]
mod beside;
#[cfg(test)]
mod between;
#[cfg(test)]
mod ends;
#[cfg(test)]
mod run;
#[cfg(test)]
mod threads;
