//! The top calls: from the words of the command line and what they read, the text of a scene, alone or with a journal or groups
//! behind it, or nothing, to the picture, the notes and a status. What reads such a text, what spells a number or a line, and
//! what writes an answer is there for other top calls too.
#![tactic(auto)]

mod alone;
mod checked;
mod flipped;
mod form;
mod grouped;
mod made;
mod notice;
mod obeying;
mod output;
mod pictured;
mod reading;
mod recording;
mod replayed;
mod report;
mod ringed;
mod sixteen;
mod status;
mod threaded;
mod top;
mod top_threads;
mod writing;

pub use alone::solo_is_shown;
pub use checked::turns_are_accepted;
pub use form::{is_run, number_in};
pub use notice::{Notice, line_of, push_number};
pub use reading::{Text, read};
pub use recording::Recording;
pub use report::{ReportLine, bytes_of};
pub use status::Status;
pub use top::drive;
pub use top_threads::drive_run;
pub use writing::{Output, tell, write_output};
