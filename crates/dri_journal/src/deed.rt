//! What an entry does to the planes.

ghost use Rattle.std.specs.Prelude.{◌≡◌};
ghost use Rattle.dri_journal.specs.Deeds.{deed_by, deed_told, whole_window, windows_in};

use dri_base::{Change, Command, Rgb, Triangle};
use dri_clips::Touched;

/// What an entry does to what is drawn and shown.
#[derive(Drop)]
pub enum Deed {
    /// Nothing. So does a change that the board refuses.
    Nothing,
    /// The client's clips are cleared in back, to this colour and this depth.
    Clear { colour: Rgb, depth: u16 },
    /// A triangle is drawn in back, in the client's clips.
    Triangle(Triangle),
    /// Back is copied to front in the client's clips.
    Swap,
    /// The windows have changed: those that were touched got new stamps, a moved one carries its pixels along in front and in
    /// back with depth, and then front is painted.
    Touched(Touched),
}

/// What the run of a command does, where there is one.
pub fn deed_by(command: Option<Command>) -> Deed
    ensures { result ≡ deed_by command }
{
    match command {
        Some(Command::Clear { colour, depth }) => Deed::Clear { colour, depth },
        Some(Command::Triangle(triangle)) => Deed::Triangle(triangle),
        Some(Command::Swap) => Deed::Swap,
        _ => Deed::Nothing,
    }
}

/// The windows that were touched; none where nothing was.
pub fn windows_of(told: &Option<Touched>) -> &[u32]
    ensures { result.now ≡ windows_in told.now }
{
    match told {
        Some(touched) => touched.windows.as_slice(),
        None => &[],
    }
}

/// The window that a change moved whole, if it did: the one that it names.
pub fn whole_window(change: &Change, told: &Option<Touched>) -> Option<u32>
    ensures { result ≡ whole_window change.now told.now }
{
    match told {
        Some(touched) => {
            if touched.whole() {
                Some(change.window())
            } else {
                None
            }
        }
        None => None,
    }
}

/// What was touched, as a deed.
pub fn deed_told(told: Option<Touched>) -> Deed
    ensures { result ≡ deed_told told }
{
    match told {
        Some(touched) => Deed::Touched(touched),
        None => Deed::Nothing,
    }
}
