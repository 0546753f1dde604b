//! The top call of the laboratory: from the words of the command line and what they read, to what is seen in a run. Of a scene
//! with a journal behind it that is the screen after some entries, or what touched a place of the screen; of a scene alone it is
//! what each item of its schedule brings, or all that its runs can end with.
#![tactic(auto)]

mod after;
mod all;
mod event_line;
mod events;
mod form;
mod history;
mod looking;
mod notice;
mod status;
mod top;
mod touch_line;

pub use notice::{line_of, tell};
pub use status::LabStatus;
pub use top::drive;
