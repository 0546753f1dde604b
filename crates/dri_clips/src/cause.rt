//! Which windows a new stack names: those at whose old and new rectangles something may change.

ghost use Rattle.std.specs.Prelude.{◌≡◌};
ghost use Rattle.dri_clips.specs.Areas.{names};

use dri_base::Window;

/// Why there is a new stack: a change of one window, the death of an owner, or the opening of the board.
#[derive(Drop)]
pub enum Cause {
    Window(u32),
    Owner(u32),
    Opening,
}

impl Cause {
    /// Whether it names the window.
    pub fn names(&self, window: &Window) -> bool
        ensures { result ≡ names self.now window.now }
    {
        match *self {
            Cause::Window(number) => window.number == number,
            Cause::Owner(owner) => window.owner == owner,
            Cause::Opening => true,
        }
    }
}
