//! The shared area: a snapshot of the lock word, the windows, the owner and the texture regions, as it stands in memory
//! that each process maps.

ghost use Rattle.std.specs.Prelude.{◌≡◌, IfOk};
ghost use Rattle.dri_clips.specs.Boards.{stamps_of};
ghost use Rattle.dri_shared.specs.Areas.{HaveSameNumbers, area_of, drawable_of, drawables_of, has_number};
ghost use Rattle.dri_shared.specs.States.{world_of};

use crate::shared::Shared;
use dri_base::{OutOfMemory, Scene, Window};
use dri_clips::Board;
use dri_sarea::{DRAWABLE_COUNT, Drawable, Sarea};
use std::alloc::Global;

/// Whether a window has the number.
fn has_number(windows: &[Window], number: u32) -> bool
    ensures { result ≡ has_number windows.now number }
{
    for window in windows {
        if window.number == number {
            return true;
        }
    }
    false
}

/// What a number shows: a window, or none. The board has the windows of the scene.
fn drawable(windows: &[Window], board: &Board, number: u32) -> Drawable
    requires { HaveSameNumbers windows.now board.now.stack }
    ensures { result ≡ drawable_of board.now.stack (stamps_of board.now) number }
{
    if has_number(windows, number) {
        Drawable {
            stamp: board.stamp(number),
            flags: u32::from(board.mapped(number)),
        }
    } else {
        Drawable { stamp: 0, flags: 0 }
    }
}

/// What each number shows.
fn drawables(alloc: Global, windows: &[Window], board: &Board) -> Result<Vec<Drawable>, OutOfMemory>
    requires { HaveSameNumbers windows.now board.now.stack }
    ensures { IfOk result (λ list. list.items ≡ drawables_of board.now.stack (stamps_of board.now)) }
{
    let mut list = Vec::with_capacity(alloc, DRAWABLE_COUNT)?;
    for number in 0..DRAWABLE_COUNT as u32 {
        list.push(drawable(windows, board, number))?;
    }
    Ok(list)
}

impl Shared {
    /// The shared area as it stands after the journal's entries, where the lock word is this number. Drawable n is window
    /// n of the scene: its shared stamp, and flags, which are 1 where it is mapped. A number without a window has 0, 0.
    pub fn sarea(&self, alloc: Global, word: u32) -> Result<Sarea, OutOfMemory>
        ensures { IfOk result (λ area. area ≡ area_of self.now.scene (world_of self.now) word) }
    {
        let scene: &Scene = &self.scene;
        let holdings = &self.holdings;
        let drawables = drawables(alloc, scene.windows.as_slice(), &holdings.board)?;
        Sarea::new(
            alloc,
            word,
            drawables.as_slice(),
            scene.width,
            scene.height,
            holdings.owner,
            holdings.regions.age(),
            scene.region_size,
            &holdings.regions,
        )
    }
}
