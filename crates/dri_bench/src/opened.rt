//! The passes of a lock, one by one.

ghost use Rattle.std.specs.Prelude.{◌≡◌, ◌+◌, ◌<◌, length};
ghost use Rattle.dri_hwlock.specs.Tokens.{id_of, pass_token, opening_value, passes_in, AreNew};

use dri_hwlock::{Guarded, HwLock, Pass, Passes};

/// The last of some new passes, whose context is their number.
pub fn last_pass<G: Guarded>(lock: &HwLock<G>, passes: &mut Passes<G>, context: u32) -> Pass<G>
    requires new { AreNew (id_of lock.now) (G.base_of (opening_value lock.now)) 1 (passes_in passes.old) }
    requires count { (0 < context) × (length (passes_in passes.old) ≡ context) }
    ensures own { (pass_token result).lock ≡ id_of lock.now }
    ensures context { (pass_token result).context ≡ context }
    ensures new { AreNew (id_of lock.now) (G.base_of (opening_value lock.now)) 1 (passes_in passes.new) }
    ensures count { length (passes_in passes.new) + 1 ≡ context }
{
    let _ = lock;
    let _ = context;
    let Some(pass) = passes.pop() else {
        unreachable!()
    };
    pass
}
