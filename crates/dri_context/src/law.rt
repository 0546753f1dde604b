//! What holds between the words of a state and the words that registers take.

ghost use Rattle.std.specs.Prelude.{◌≡◌, Option};
ghost use Rattle.dri_base.specs.declared.state.State.{State};
ghost use Rattle.dri_base.specs.declared.texture.BoundTexture.{BoundTexture};
ghost use Rattle.dri_model.specs.Groups.{Groups};
ghost use Rattle.dri_model.specs.Words.{emitted_words, registers_for, Spelled, IsBoundInRange, IsScissorInRange};

/// The words of some groups of a state spell these groups and the state's values: registers take them, and have then
/// these values in these groups, and their own in the others.
pub fn emitted_words_are_taken()
    ensures { (groups : Groups) (state : State) (bound : Option BoundTexture) → IsBoundInRange bound → IsScissorInRange state.scissor → (spelled : Spelled (emitted_words groups state bound)) × (spelled.groups ≡ groups) × (spelled.registers ≡ registers_for state bound) }
{}
