//! The text of a scene: a reader and a printer that are each other's inverse.
//!
//! A line passes three stages. Its words make a `Form`, which has the numbers as they are written, of any size. The
//! place in the text says which forms may stand there, and the form with its numbers in range is a `Line`. The
//! scene that was read so far takes the line on, or refuses it. So the reasons come in their order: shape, range, and
//! then unknown, twice, order, limit and heap. The printer writes a scene's lines, word by word. What
//! puts words is there for other lines too.
#![tactic(auto)]

mod change_form;
mod command_form;
mod fault;
mod form;
mod generator;
mod head_form;
mod line;
mod part;
mod place;
mod print;
mod print_command;
mod reading;
mod words;

pub use fault::SceneFault;
pub use generator::make_scene;
pub use part::{Part, read_scene, read_scene_part};
pub use print::print_scene;
pub use words::{Word, end_line, push_bytes, push_word, push_words};
