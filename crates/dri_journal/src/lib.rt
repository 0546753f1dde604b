//! The text of a journal: a reader and a printer that are each other's inverse. And its check: whether the entries are a
//! run of a scene.
//!
//! A line passes two stages. Its words make a `Form`, which has the numbers as they are written, of any size; and the form
//! with its numbers in range is an entry. So the reasons come in their order: shape, and then range. Whether the entries
//! are a run of a scene isn't asked there.
#![tactic(auto)]

mod acting;
mod answer;
mod checking;
mod current;
mod deed;
mod entry;
mod fault;
mod form;
mod judging;
mod marks;
mod print;
mod read;
mod refusal;
mod replay;
mod tally;
mod windows;
mod written;

pub use answer::{CheckFault, Report};
pub use checking::check;
pub use deed::Deed;
pub use fault::JournalFault;
pub use print::print_journal;
pub use read::read_journal;
pub use refusal::{Refusal, StepFault};
pub use replay::{Replay, client_of};
pub use written::{plain_runs_stay, runs_read_back};
