//! Changes of a board, again and again: the first windows are raised in turn.

ghost use Rattle.std.specs.Prelude.{◌≡◌, ◌≤◌, ◌+◌};
ghost use Rattle.std.specs.Option.{IfSome};

use dri_base::{Change, OutOfMemory, Rgb, Scene, Sequence, Steps, Window, Windows};
use dri_clips::Board;
use std::alloc::Global;
use std::marker::Brand;
use std::sync::ledger::{Blank, Ledger};

/// The sides of the screen.
const SCREEN: (u32, u32) = (640, 480);

/// The most windows of a board.
const MOST_WINDOWS: u32 = 64;

/// The most changes, so that stamps suffice.
const MOST_CHANGES: u32 = 10_000_000;

/// How the windows stand.
#[derive(Clone, Copy, Drop)]
pub enum Arrangement {
    /// Each overlaps many, and all are raised.
    Overlapping,
    /// The first two overlap and are raised, the others stand apart.
    Apart,
}

/// A window of a board.
fn window(arrangement: Arrangement, number: u32) -> Window
    requires { (1 ≤ number) × (number ≤ 64) }
{
    let n = number as i32;
    let (x, y, width, height) = match arrangement {
        Arrangement::Overlapping => (61 * n % 320, 43 * n % 200, 280, 220),
        Arrangement::Apart if number <= 2 => (30 * (n - 1), 30 * (n - 1), 60, 60),
        Arrangement::Apart => (100 + n % 8 * 48, n / 8 * 48, 40, 40),
    };
    Window {
        number,
        x,
        y,
        width,
        height,
        background: Rgb { r: 0, g: 0, b: 0 },
        owner: 0,
        mapped: true,
    }
}

/// So many windows.
fn windows(alloc: Global, arrangement: Arrangement, count: u32) -> Result<Windows, OutOfMemory>
    requires { count ≤ 64 }
{
    let mut windows = Sequence::new(alloc);
    for below in 0..count {
        windows.push(window(arrangement, below + 1))?;
    }
    Ok(windows)
}

/// The board of so many windows; `None` for want of memory.
fn board(alloc: Global, arrangement: Arrangement, count: u32) -> Option<Board>
    requires { count ≤ 64 }
    ensures { IfSome result (λ board. board.counter ≡ 1) }
{
    let scene = Scene {
        width: SCREEN.0,
        height: SCREEN.1,
        root: Rgb { r: 0, g: 0, b: 0 },
        regions: 1,
        region_size: 256,
        windows: windows(alloc, arrangement, count).ok()?,
        clients: Sequence::new(alloc),
        changes: Sequence::new(alloc),
        turns: Sequence::new(alloc),
    };
    if !scene.in_range() {
        return None;
    }
    Board::new(alloc, &scene).ok()
}

/// Raises a window; the windows touched and the rectangles painted. 0 where the board refuses it or memory is wanting.
fn raise<L: Ledger>(alloc: Global, board: &mut Board, window: u32, steps: &mut Steps<L>) -> u64
    requires { board.old.counter ≤ 1000000000 }
    ensures { board.new.counter ≤ board.old.counter + 64 }
{
    board.arranged();
    let change = Change::Raise { window };
    match board.apply(alloc, &change, steps) {
        Ok(touched) => (touched.windows.len() as u64).wrapping_add(touched.paints.len() as u64),
        Err(_) => 0,
    }
}

/// So many raises, of the first windows in turn; what they touched and painted, summed.
fn raises<L: Ledger>(
    alloc: Global,
    board: Board,
    raised: u32,
    times: u32,
    steps: &mut Steps<L>,
) -> u64
    requires counter { board.counter ≡ 1 }
    requires raised { 1 ≤ raised }
    requires times { times ≤ 10000000 }
{
    let mut board = board;
    let mut sum: u64 = 0;
    for i in 0..times {
        sum = sum.wrapping_add(raise(alloc, &mut board, i % raised + 1, steps));
    }
    sum
}

fn counted<L: Ledger>(alloc: Global, board: Board, raised: u32, times: u32, blank: Blank) -> u64
    requires name { blank.name ≡ L.name }
    requires parts { blank.parts ≡ L.parts }
    requires one { L.parts ≡ 1 }
    requires counter { board.counter ≡ 1 }
    requires raised { 1 ≤ raised }
    requires times { times ≤ 10000000 }
{
    let mut steps = Steps::<L>::new(blank);
    raises(alloc, board, raised, times, &mut steps)
}

/// So many changes of a board of so many windows: what they touched and painted, summed. `None` for want of memory, and
/// where there are too many changes or windows, or fewer than two.
pub fn run(alloc: Global, arrangement: Arrangement, count: u32, times: u32) -> Option<u64> {
    if count < 2 || MOST_WINDOWS < count {
        return None;
    }
    if MOST_CHANGES < times {
        return None;
    }
    let board = board(alloc, arrangement, count)?;
    let raised = match arrangement {
        Arrangement::Overlapping => count,
        Arrangement::Apart => 2,
    };
    Some(counted::<Brand>(alloc, board, raised, times, Blank::new(1)))
}
