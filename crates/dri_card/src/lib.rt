//! The card: three planes of pixels, registers, texture memory and a clip. It takes register words and command words,
//! and draws each triangle of them by the pixel rule.
#![tactic(auto)]

mod card;
mod faults;
mod lifts;
pub mod memory;
mod opening;
pub mod screen;
mod target;

pub use card::Card;
pub use faults::{DispatchFault, LoadFault, OutsideCard};
pub use lifts::Lifts;
pub use opening::{opening_front, opening_registers};
pub use target::Target;
