//! The registers that a state and its image are drawn by.

ghost use Rattle.std.specs.Prelude.{◌≡◌, option_copied, length};
ghost use Rattle.dri_base.specs.Fragments.{rules_of};
ghost use Rattle.dri_base.specs.Scenes.{bytes_of};
ghost use Rattle.dri_model.specs.Words.{IsBoundInRange, IsScissorInRange, rules_in};
ghost use Rattle.dri_walk.specs.Samplings.{IsImageWithin};
ghost use Rattle.dri_meaning.specs.Canvases.{bound_first};
ghost use Rattle.dri_flip.specs.Calls.{IsImage};
ghost use Rattle.dri_flip.specs.Scissors.{DrawAlike, HoldSame};

use dri_base::{ClipRect, MOST_SCISSOR, Registers, State, Texture};
use dri_meaning::registers_alone;

/// The registers of a state and its image, which begins a memory that is its own bytes. A scissor that reaches beyond what a
/// screen can show of a window ends there.
pub fn registers_of(state: &State, image: Option<&Texture>) -> Registers
    requires { IsImage (option_copied image) }
    ensures bound { IsBoundInRange result.bound }
    ensures image { result.bound ≡ bound_first (option_copied image.entry) }
    ensures within { IsImageWithin (length (bytes_of (option_copied image.entry))) result.bound }
    ensures scissor { IsScissorInRange result.scissor }
    ensures alike { DrawAlike (rules_in result) (rules_of state.now) }
{
    let mut registers = registers_alone(state, image);
    registers.scissor = reachable(state.scissor);
    registers
}

// The scissor, as far as a screen can show it: its numbers are at most 2,048.
fn reachable(scissor: Option<ClipRect>) -> Option<ClipRect>
    ensures range { IsScissorInRange result }
    ensures same { HoldSame result scissor }
{
    let rect = scissor?;
    Some(ClipRect {
        x1: rect.x1.min(MOST_SCISSOR),
        y1: rect.y1.min(MOST_SCISSOR),
        x2: rect.x2.min(MOST_SCISSOR),
        y2: rect.y2.min(MOST_SCISSOR),
    })
}
