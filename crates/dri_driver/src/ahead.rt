//! How many commands come up to the next end of a hold.

ghost use Rattle.std.specs.Prelude.{◌≡◌, ◌≤◌, length};
ghost use Rattle.dri_driver.specs.Needs.{count_ahead};

use dri_base::Command;

/// How many commands come up to the first swap or yield and with it, or up to the end.
pub(crate) fn commands_ahead(commands: &[Command]) -> u32
    requires { length commands.now ≤ 100000 }
    ensures count { result ≡ count_ahead commands.now }
    ensures few { result ≤ 100000 }
{
    let mut count = 0;
    for command in commands {
        count += 1;
        if let Command::Swap | Command::Yield = command {
            return count;
        }
    }
    count
}
