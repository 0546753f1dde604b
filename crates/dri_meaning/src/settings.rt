//! What a script's settings make of its state. The state is one value, and each command gives the next.

ghost use Rattle.std.specs.Prelude.{◌≡◌, ◌≤◌, ◌<◌, length};
ghost use Rattle.dri_base.specs.States.{state_after, state_at};

use dri_base::{Command, State};

/// The state after one command.
pub fn state_after(command: &Command, state: State) -> State
    ensures { result ≡ state_after command.now state }
{
    let mut after = state;
    if let Command::Set(setting) = command {
        after.set(setting);
    }
    after
}

/// The state before the command at a place, counted from 1.
pub fn state_at(commands: &[Command], place: usize) -> State
    requires first { 0 < place }
    requires within { place ≤ length commands.now }
    ensures { result ≡ state_at commands.now place }
{
    let (before, _) = commands.split_at(place - 1);
    let mut state = State::initial();
    for command in before {
        state = state_after(command, state);
    }
    state
}
