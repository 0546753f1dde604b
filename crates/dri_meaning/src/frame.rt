//! Where a frame stands in a script. One walk over the commands finds it: it counts the swaps, and keeps the place of
//! the last clear since the last swap.

ghost use Rattle.std.specs.Prelude.{◌≡◌, ◌≤◌, ◌<◌, length, IfSome};
ghost use Rattle.std.specs.Option.{option_map};
ghost use Rattle.dri_core.specs.Solo.{frame, with_swap};

use dri_base::Command;

/// Where a frame stands in a script: the places of its last clear and of its swap, counted from 1.
#[derive(Clone, Copy)]
pub struct Frame {
    pub clear: usize,
    pub swap: usize,
}

/// The frame that ends with the swap at this place, where a clear was seen.
fn with_swap(clear: Option<usize>, swap: usize) -> Option<Frame>
    ensures { option_map (λ f. (f.clear, f.swap)) result ≡ with_swap clear swap }
{
    match clear {
        None => None,
        Some(clear) => Some(Frame { clear, swap }),
    }
}

/// The frame that so many swaps end, where it is there and has a clear.
pub fn frame_of(commands: &[Command], number: u32) -> Option<Frame>
    ensures found { option_map (λ f. (f.clear, f.swap)) result ≡ frame commands.now number }
    ensures first { IfSome result (λ f. 0 < f.clear) }
    ensures order { IfSome result (λ f. f.clear < f.swap) }
    ensures within { IfSome result (λ f. f.swap ≤ length commands.now) }
{
    let mut clear = None;
    let mut ahead = number;
    for (i, command) in commands.iter().enumerate() {
        match command {
            Command::Clear { .. } => clear = Some(i + 1),
            Command::Swap => {
                if ahead == 1 {
                    return with_swap(clear, i + 1);
                }
                ahead = ahead.saturating_sub(1);
                clear = None;
            }
            _ => {}
        }
    }
    None
}
