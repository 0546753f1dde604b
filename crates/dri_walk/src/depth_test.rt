//! The depth function of a triangle, decided once: whether it draws nearer, equal and farther depths.

ghost use Rattle.std.specs.Prelude.{◌≡◌, ℕ};
ghost use Rattle.dri_base.specs.Fragments.{passes};
ghost use Rattle.dri_walk.specs.Drawings.{draws_all, is_drawn};

use dri_base::DepthFunc;

/// Whether a depth is drawn that is below the one under it, equal to it, or above it.
#[derive(Clone, Copy)]
pub struct DepthTest {
    below: bool,
    equal: bool,
    above: bool,
}

impl DepthTest {
    /// The test of a depth function.
    pub fn new(func: DepthFunc) -> DepthTest
        ensures { (z depth : ℕ) → is_drawn result z depth ≡ passes func z depth }
    {
        let (below, equal, above) = match func {
            DepthFunc::Never => (false, false, false),
            DepthFunc::Less => (true, false, false),
            DepthFunc::Equal => (false, true, false),
            DepthFunc::LessEqual => (true, true, false),
            DepthFunc::Greater => (false, false, true),
            DepthFunc::NotEqual => (true, false, true),
            DepthFunc::GreaterEqual => (false, true, true),
            DepthFunc::Always => (true, true, true),
        };
        DepthTest {
            below,
            equal,
            above,
        }
    }

    /// Whether every depth is drawn over any.
    pub fn is_always(self) -> bool
        ensures { result ≡ draws_all self }
    {
        self.below && self.equal && self.above
    }

    /// Whether `z` is drawn over a depth.
    pub fn passes(self, z: u16, depth: u16) -> bool
        ensures { result ≡ is_drawn self z depth }
    {
        if z < depth {
            self.below
        } else if depth < z {
            self.above
        } else {
            self.equal
        }
    }
}
