//! The core called from C: the program's words over buffers. Each call takes all that it needs and keeps nothing, so any thread
//! may make any call at any time.
#![tactic(auto)]

mod answer;
mod buffer;
mod exports;
mod playing;
mod saying;
mod sink;
mod source;
