//! What the shared value reads in the scene of a client: its commands and its window.

ghost use Rattle.std.specs.Prelude.{◌≡◌, ◌<◌, true, Some};
ghost use Rattle.dri_base.specs.Scenes.{command_at, window_of};
ghost use Rattle.dri_base.specs.declared.command.Command.TheVariants as Command;
ghost use Rattle.dri_core.specs.Privates.{is_triangle};
ghost use Rattle.dri_core.specs.Solo.{is_clear};

use dri_base::{Command, Rgb, Scene, Triangle};
use dri_draw::script_in;

/// The command at a place, counted from 1, of a client.
pub(crate) fn command(scene: &Scene, client: u32, place: u32) -> Option<Command>
    requires { 0 < place }
    ensures { result ≡ command_at scene.now client place }
{
    let script = script_in(scene.clients.as_slice(), client)?;
    let before = place as usize - 1;
    if before < script.commands.len() {
        Some(*script.commands.get(before))
    } else {
        None
    }
}

/// What a clear writes: its colour and its depth.
pub(crate) fn clear_of(command: Option<Command>) -> (Rgb, u16)
    requires { is_clear command ≡ true }
    ensures { command ≡ Some (Command.Clear result.0 result.1) }
{
    match command {
        Some(Command::Clear { colour, depth }) => (colour, depth),
        _ => unreachable!(),
    }
}

/// The triangle that a command draws.
pub(crate) fn triangle_of(command: Option<Command>) -> Triangle
    requires { is_triangle command ≡ true }
    ensures { command ≡ Some (Command.Triangle result) }
{
    match command {
        Some(Command::Triangle(triangle)) => triangle,
        _ => unreachable!(),
    }
}

/// The window that a client draws on; 0 where the client isn't there.
pub(crate) fn window_of(scene: &Scene, client: u32) -> u32
    ensures { result ≡ window_of scene.now client }
{
    match script_in(scene.clients.as_slice(), client) {
        Some(script) => script.window,
        None => 0,
    }
}
