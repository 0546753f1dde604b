//! What touches two places of a scene that was worked by hand.

ghost use Rattle.std.specs.Prelude.{◌≡◌, ◌∷◌, [], take};
ghost use Rattle.dri_core.specs.ExampleParts.{rgb};
ghost use Rattle.dri_core.specs.Runs.{after};
ghost use Rattle.dri_core.specs.Worlds.{opening};
ghost use Rattle.dri_history.specs.Examples.{kinds_by};
ghost use Rattle.dri_history.specs.Touches.{sample};
ghost use Rattle.dri_history.specs.declared.touch.Kind.TheVariants.{Carry, Clear, Paint, Swap, Triangle};
ghost use Rattle.dri_meaning.specs.ExampleMoves.{moved_with_depth, moved_with_depth_journal};

/// A window is cleared red at depth 0 and then moved by its width, and a triangle that this depth doesn't let through and a swap
/// follow. Where it stood it is cleared, and painted once it is gone; where it comes to its pixel is carried there in all planes,
/// the triangle touches it without a change, and the swap shows it. Settings, yields and what is done at the lock touch nothing.
pub fn left_and_reached()
    ensures left { kinds_by moved_with_depth (opening moved_with_depth) 1 moved_with_depth_journal 0 0 ≡ (6, Clear) ∷ (10, Paint) ∷ [] }
    ensures reached { kinds_by moved_with_depth (opening moved_with_depth) 1 moved_with_depth_journal 2 0 ≡ (10, Carry) ∷ (17, Triangle) ∷ (18, Swap) ∷ [] }
    ensures beyond { kinds_by moved_with_depth (opening moved_with_depth) 1 moved_with_depth_journal 0 1 ≡ [] }
    ensures carried { sample (after moved_with_depth (take 10 moved_with_depth_journal)) 2 0 ≡ record { front = rgb 0x11 0x11 0x11; back = record { colour = rgb 0xff 0 0; depth = 0 } } }
    ensures kept { sample (after moved_with_depth (take 17 moved_with_depth_journal)) 2 0 ≡ sample (after moved_with_depth (take 16 moved_with_depth_journal)) 2 0 }
    ensures shown { sample (after moved_with_depth (take 18 moved_with_depth_journal)) 2 0 ≡ record { front = rgb 0xff 0 0; back = record { colour = rgb 0xff 0 0; depth = 0 } } }
{}
