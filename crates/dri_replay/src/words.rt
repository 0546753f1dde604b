//! The words that a client's triangle is drawn by: all groups of its state, which a replay loads before each triangle.

ghost use Rattle.std.specs.Prelude.{◌≡◌};
ghost use Rattle.dri_model.specs.Groups.{all_groups};
ghost use Rattle.dri_model.specs.Words.{IsBoundInRange, IsScissorInRange, emitted_words};

use dri_base::{BoundTexture, Setting, State};
use dri_context::{ContextState, EmitWords, Groups};

/// The words of all seven groups of a state, with the texture that is bound where it's placed. The scissor's numbers are at most
/// 2,048, and the texture's sides are in range.
pub fn state_words(state: &State, bound: Option<BoundTexture>) -> EmitWords
    requires scissor { IsScissorInRange state.now.scissor }
    requires bound { IsBoundInRange bound }
    ensures { result ≡ emitted_words all_groups state.now bound }
{
    let mut context = ContextState::new();
    context.set(&Setting::Shade(state.shade));
    context.set(&Setting::DepthFunc(state.depth_func));
    context.set(&Setting::DepthWrite(state.depth_write));
    context.set(&Setting::Blend(state.blend));
    context.set(&Setting::TexMode(state.tex_mode));
    context.set(&Setting::Wrap(state.wrap));
    context.set(&Setting::Scissor(state.scissor));
    context.emit_words(Groups::all(), bound)
}
