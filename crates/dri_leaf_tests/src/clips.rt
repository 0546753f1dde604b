//! Two windows of 2 by 2 on a screen of 2 by 2: what is seen of each. Four windows on a screen of 4 by 4, of which some have
//! one pixel, hang off the screen or share a rectangle: each kind of change, and a death. And which changes are refused, and
//! what a window carries along that is moved over itself, off the screen, under another one or onto it.

ghost use Rattle.std.specs.Prelude.{◌≡◌, ◌≤◌, ◌+◌, IfOk};
ghost use Rattle.dri_leaf_tests.specs.Boards.{HasBoth};

use dri_base::{Change, ClipRect, OutOfMemory, Point, Rgb, Scene, Sequence, Steps, Window};
use dri_clips::{Board, Carry, ChangeFault, Paint, Touched};
use std::alloc::Global;
use std::marker::Brand;
use std::process::Abort;
use std::sync::ledger::{Blank, Ledger};
use std::test::Fail;

fn grey(level: u8) -> Rgb {
    Rgb {
        r: level,
        g: level,
        b: level,
    }
}

/// A window of 2 by 2 in the screen's corner.
fn window(number: u32, owner: u32, background: Rgb) -> Window
    ensures { result.number ≡ number }
{
    Window {
        number,
        x: 0,
        y: 0,
        width: 2,
        height: 2,
        background,
        owner,
        mapped: true,
    }
}

/// Window 1, which client 1 owns, over window 2.
fn board(alloc: Global) -> Result<Board, OutOfMemory>
    ensures both { IfOk result HasBoth }
    ensures counter { IfOk result (λ board. board.counter ≡ 1) }
{
    let mut windows = Sequence::new(alloc);
    windows.push(window(1, 1, grey(0x11)))?;
    windows.push(window(2, 0, grey(0x22)))?;
    let scene = Scene {
        width: 2,
        height: 2,
        root: grey(0x33),
        regions: 1,
        region_size: 256,
        windows,
        clients: Sequence::new(alloc),
        changes: Sequence::new(alloc),
        turns: Sequence::new(alloc),
    };
    if !scene.in_range() {
        return Err(OutOfMemory);
    }
    Board::new(alloc, &scene)
}

/// Makes a change of a board whose stamps are small.
fn apply<L: Ledger>(
    alloc: Global,
    board: &mut Board,
    change: &Change,
    steps: &mut Steps<L>,
) -> Result<Touched, ChangeFault>
    requires { board.old.counter ≤ 2000 }
    ensures counter { board.new.counter ≤ board.old.counter + 64 }
    ensures both { HasBoth board.old → HasBoth board.new }
{
    board.arranged();
    board.apply(alloc, change, steps)
}

/// Unmaps an owner's windows on a board whose stamps are small.
fn bury<L: Ledger>(
    alloc: Global,
    board: &mut Board,
    owner: u32,
    steps: &mut Steps<L>,
) -> Result<Touched, OutOfMemory>
    requires { board.old.counter ≤ 2000 }
    ensures counter { board.new.counter ≤ board.old.counter + 64 }
{
    board.arranged();
    board.unmap_owner(alloc, owner, steps)
}

/// A window's stamp, how many rectangles show of it, its corner, and whether it is mapped.
#[derive(Clone, Copy, PartialEq, Eq)]
struct Seen {
    stamp: u32,
    rects: usize,
    origin: Point,
    mapped: bool,
}

/// What is seen of both windows.
fn look_at(board: &Board) -> [Seen; 2]
    requires { HasBoth board.now }
{
    [
        Seen {
            stamp: board.stamp(1),
            rects: board.clips(1).len(),
            origin: board.origin(1),
            mapped: board.mapped(1),
        },
        Seen {
            stamp: board.stamp(2),
            rects: board.clips(2).len(),
            origin: board.origin(2),
            mapped: board.mapped(2),
        },
    ]
}

/// What is seen of a window in the screen's corner.
fn in_corner(stamp: u32, rects: usize) -> Seen {
    Seen {
        stamp,
        rects,
        origin: Point { x: 0, y: 0 },
        mapped: true,
    }
}

fn raise<L: Ledger, R: Abort>(rt: &R, alloc: Global, steps: &mut Steps<L>) -> Result<(), Fail> {
    let mut board = board(alloc)?;
    apply(alloc, &mut board, &Change::Raise { window: 2 }, steps)?;
    assert!(rt; look_at(&board) == [in_corner(2, 0), in_corner(3, 1)]);
    Ok(())
}

/// A square window whose colour tells its number.
fn square(number: u8, owner: u32, x: i32, y: i32, side: u32) -> Window {
    Window {
        number: u32::from(number),
        x,
        y,
        width: side,
        height: side,
        background: grey(number),
        owner,
        mapped: true,
    }
}

/// The board of a screen with these sides and windows, and nobody to draw on them.
fn board_of(
    alloc: Global,
    width: u32,
    height: u32,
    windows: Sequence<Window>,
) -> Result<Board, OutOfMemory>
    ensures { IfOk result (λ board. board.counter ≡ 1) }
{
    let scene = Scene {
        width,
        height,
        root: grey(0),
        regions: 1,
        region_size: 256,
        windows,
        clients: Sequence::new(alloc),
        changes: Sequence::new(alloc),
        turns: Sequence::new(alloc),
    };
    if !scene.in_range() {
        return Err(OutOfMemory);
    }
    Board::new(alloc, &scene)
}

/// On a screen of 4 by 4 window 1 hangs off it over window 2, window 3 has the rectangle of window 2 below it, and
/// window 4 has one pixel.
fn four_windows(alloc: Global) -> Result<Board, OutOfMemory>
    ensures { IfOk result (λ board. board.counter ≡ 1) }
{
    let mut windows = Sequence::new(alloc);
    windows.push(square(1, 1, -1, -1, 3))?;
    windows.push(square(2, 2, 1, 1, 2))?;
    windows.push(square(3, 2, 1, 1, 2))?;
    windows.push(square(4, 1, 3, 3, 1))?;
    board_of(alloc, 4, 4, windows)
}

/// A change, the windows that it touches, and its paints: a colour's number and the rectangle's x1, y1, x2 and y2.
#[derive(Clone, Copy)]
struct Row(Change, &'static [u32], &'static [(u8, [u16; 4])]);

const CHANGES: [Row; 22] = [
    Row(
        Change::Raise { window: 3 },
        &[1, 2, 3],
        &[(3, [1, 1, 3, 3])],
    ),
    Row(
        Change::Move {
            window: 1,
            x: 2,
            y: 2,
        },
        &[1, 4],
        &[
            (0, [0, 0, 2, 1]),
            (0, [0, 1, 1, 2]),
            (1, [3, 2, 4, 3]),
            (1, [2, 3, 3, 4]),
        ],
    ),
    Row(
        Change::Resize {
            window: 1,
            width: 1,
            height: 1,
        },
        &[1, 4],
        &[(0, [3, 2, 4, 3]), (0, [2, 3, 3, 4]), (4, [3, 3, 4, 4])],
    ),
    Row(
        Change::Lower { window: 3 },
        &[1, 2, 3],
        &[(1, [2, 2, 3, 3]), (2, [1, 1, 3, 2]), (2, [1, 2, 2, 3])],
    ),
    Row(
        Change::Unmap { window: 2 },
        &[2, 3],
        &[(3, [1, 1, 3, 2]), (3, [1, 2, 2, 3])],
    ),
    Row(
        Change::Move {
            window: 2,
            x: 0,
            y: 0,
        },
        &[2],
        &[],
    ),
    Row(
        Change::Move {
            window: 2,
            x: 1,
            y: 1,
        },
        &[2],
        &[],
    ),
    Row(
        Change::Map { window: 2 },
        &[2, 3],
        &[(2, [1, 1, 3, 2]), (2, [1, 2, 2, 3])],
    ),
    Row(
        Change::Move {
            window: 3,
            x: 1,
            y: 1,
        },
        &[],
        &[],
    ),
    Row(
        Change::Resize {
            window: 2,
            width: 2,
            height: 2,
        },
        &[],
        &[],
    ),
    Row(
        Change::Move {
            window: 4,
            x: 2,
            y: 2,
        },
        &[4],
        &[(0, [3, 3, 4, 4])],
    ),
    Row(Change::Raise { window: 4 }, &[1, 4], &[(4, [2, 2, 3, 3])]),
    Row(Change::Lower { window: 4 }, &[1, 4], &[(1, [2, 2, 3, 3])]),
    Row(Change::Unmap { window: 1 }, &[1, 2], &[(2, [2, 2, 3, 3])]),
    Row(Change::Map { window: 1 }, &[1, 2], &[(1, [2, 2, 3, 3])]),
    Row(
        Change::Move {
            window: 2,
            x: 3,
            y: -1,
        },
        &[2, 3],
        &[(3, [1, 1, 3, 2]), (3, [1, 2, 2, 3])],
    ),
    Row(
        Change::Move {
            window: 4,
            x: 3,
            y: 0,
        },
        &[4],
        &[],
    ),
    Row(Change::Lower { window: 2 }, &[2, 4], &[(4, [3, 0, 4, 1])]),
    Row(Change::Raise { window: 2 }, &[2, 4], &[(2, [3, 0, 4, 1])]),
    Row(Change::Unmap { window: 2 }, &[2, 4], &[(4, [3, 0, 4, 1])]),
    Row(Change::Map { window: 2 }, &[2, 4], &[(2, [3, 0, 4, 1])]),
    Row(
        Change::Resize {
            window: 2,
            width: 2,
            height: 2,
        },
        &[],
        &[],
    ),
];

/// Whether the paints are these.
fn are_paints(paints: &[Paint], wanted: &[(u8, [u16; 4])]) -> bool {
    if paints.len() != wanted.len() {
        return false;
    }
    for i in 0..wanted.len() {
        let (number, [x1, y1, x2, y2]) = wanted[i];
        let paint = Paint {
            rect: ClipRect { x1, y1, x2, y2 },
            colour: grey(number),
        };
        if paints[i] != paint {
            return false;
        }
    }
    true
}

/// Whether these windows are touched, and these the paints.
fn touches(touched: &Touched, windows: &[u32], paints: &[(u8, [u16; 4])]) -> bool {
    touched.windows.as_slice() == windows && are_paints(touched.paints.as_slice(), paints)
}

/// The most rows that a board's stamps stay small over.
const MOST_ROWS: usize = 30;

/// Makes a row's change, and tells whether it touches and paints what the row says.
fn changes_as<L: Ledger>(
    alloc: Global,
    board: &mut Board,
    row: &Row,
    steps: &mut Steps<L>,
) -> Result<bool, ChangeFault>
    requires { board.old.counter ≤ 2000 }
    ensures { board.new.counter ≤ board.old.counter + 64 }
{
    let touched = apply(alloc, board, &row.0, steps)?;
    Ok(touches(&touched, row.1, row.2))
}

/// Unmaps the windows of client 2, which bares those of client 1.
fn dies<L: Ledger>(
    alloc: Global,
    board: &mut Board,
    steps: &mut Steps<L>,
) -> Result<bool, OutOfMemory>
    requires { board.old.counter ≤ 2000 }
{
    let died = bury(alloc, board, 2, steps)?;
    let bared = [(0, [1, 1, 3, 2]), (0, [1, 2, 2, 3]), (4, [3, 0, 4, 1])];
    Ok(touches(&died, &[2, 3, 4], &bared) && died.carry.is_none() && !died.whole())
}

fn change_each<L: Ledger, R: Abort>(
    rt: &R,
    alloc: Global,
    rows: &[Row],
    steps: &mut Steps<L>,
) -> Result<(), Fail> {
    let mut board = four_windows(alloc)?;
    assert!(rt; rows.len() <= MOST_ROWS);
    for i in 0..rows.len() {
        assert!(rt; changes_as(alloc, &mut board, &rows[i], steps)?);
    }
    assert!(rt; dies(alloc, &mut board, steps)?);
    Ok(())
}

/// On a screen of 4 by 2 window 2, which has one pixel, stands over window 1 of two, and window 3 isn't mapped.
fn three_windows(alloc: Global) -> Result<Board, OutOfMemory>
    ensures { IfOk result (λ board. board.counter ≡ 1) }
{
    let mut windows = Sequence::new(alloc);
    windows.push(Window {
        mapped: false,
        ..square(3, 1, 0, 0, 1)
    })?;
    windows.push(square(2, 2, 3, 1, 1))?;
    windows.push(Window {
        height: 1,
        ..square(1, 1, 0, 0, 2)
    })?;
    board_of(alloc, 4, 2, windows)
}

/// A window that is moved, and its new corner; the windows that are touched, and the paints; what is carried, if something
/// is, and how far; and whether the window moves whole.
#[derive(Clone, Copy)]
struct Moved {
    to: (u32, i32, i32),
    windows: &'static [u32],
    paints: &'static [(u8, [u16; 4])],
    carry: Option<([u16; 4], i32, i32)>,
    whole: bool,
}

const MOVES: [Moved; 11] = [
    // over itself, nowhere, partly off the screen, and back
    Moved {
        to: (1, 1, 0),
        windows: &[1],
        paints: &[(0, [0, 0, 1, 1])],
        carry: Some(([0, 0, 2, 1], 1, 0)),
        whole: true,
    },
    Moved {
        to: (1, 1, 0),
        windows: &[],
        paints: &[],
        carry: Some(([1, 0, 3, 1], 0, 0)),
        whole: true,
    },
    Moved {
        to: (1, 3, 0),
        windows: &[1],
        paints: &[(0, [1, 0, 3, 1])],
        carry: Some(([1, 0, 2, 1], 2, 0)),
        whole: false,
    },
    Moved {
        to: (1, 0, 0),
        windows: &[1],
        paints: &[(0, [3, 0, 4, 1]), (1, [1, 0, 2, 1])],
        carry: Some(([3, 0, 4, 1], -3, 0)),
        whole: false,
    },
    // partly under window 2, and back; window 2 onto window 1, and off it
    Moved {
        to: (1, 2, 1),
        windows: &[1],
        paints: &[(0, [0, 0, 2, 1])],
        carry: Some(([0, 0, 1, 1], 2, 1)),
        whole: false,
    },
    Moved {
        to: (1, 0, 0),
        windows: &[1],
        paints: &[(0, [2, 1, 3, 2]), (1, [1, 0, 2, 1])],
        carry: Some(([2, 1, 3, 2], -2, -1)),
        whole: false,
    },
    Moved {
        to: (2, 1, 0),
        windows: &[1, 2],
        paints: &[(0, [3, 1, 4, 2])],
        carry: Some(([3, 1, 4, 2], -2, -1)),
        whole: true,
    },
    Moved {
        to: (2, 0, 1),
        windows: &[1, 2],
        paints: &[(1, [1, 0, 2, 1])],
        carry: Some(([1, 0, 2, 1], -1, 1)),
        whole: true,
    },
    // a window that isn't mapped; one half off the edge, and then where window 2 covers what comes onto the screen
    Moved {
        to: (3, 1, 0),
        windows: &[3],
        paints: &[],
        carry: None,
        whole: true,
    },
    Moved {
        to: (1, -1, 0),
        windows: &[1],
        paints: &[(0, [1, 0, 2, 1])],
        carry: Some(([1, 0, 2, 1], -1, 0)),
        whole: false,
    },
    Moved {
        to: (1, 0, 1),
        windows: &[1],
        paints: &[(0, [0, 0, 1, 1])],
        carry: Some(([0, 0, 1, 1], 1, 1)),
        whole: true,
    },
];

/// Whether what is carried is this rectangle, so far, or nothing.
fn is_carry(carry: &Option<Carry>, wanted: Option<([u16; 4], i32, i32)>) -> bool {
    let Some(carry) = carry else {
        return wanted.is_none();
    };
    let Some(wanted) = wanted else {
        return false;
    };
    let ([x1, y1, x2, y2], dx, dy) = wanted;
    let rect = ClipRect { x1, y1, x2, y2 };
    carry.rects.as_slice() == [rect].as_slice() && carry.dx == dx && carry.dy == dy
}

/// Moves a row's window, and tells whether it touches, paints and carries what the row says.
fn moves_as<L: Ledger>(
    alloc: Global,
    board: &mut Board,
    row: &Moved,
    steps: &mut Steps<L>,
) -> Result<bool, ChangeFault>
    requires { board.old.counter ≤ 2000 }
    ensures { board.new.counter ≤ board.old.counter + 64 }
{
    let (window, x, y) = row.to;
    let touched = apply(alloc, board, &Change::Move { window, x, y }, steps)?;
    let is_carried = is_carry(&touched.carry, row.carry) && touched.whole() == row.whole;
    Ok(is_carried && touches(&touched, row.windows, row.paints))
}

fn move_each<L: Ledger, R: Abort>(
    rt: &R,
    alloc: Global,
    rows: &[Moved],
    steps: &mut Steps<L>,
) -> Result<(), Fail> {
    let mut board = three_windows(alloc)?;
    assert!(rt; rows.len() <= MOST_ROWS);
    for i in 0..rows.len() {
        assert!(rt; moves_as(alloc, &mut board, &rows[i], steps)?);
    }
    Ok(())
}

/// A change that is refused, and why.
type Refusal = (Change, ChangeFault);

/// Of the three windows.
const REFUSED: [Refusal; 4] = [
    (Change::Raise { window: 9 }, ChangeFault::NoWindow),
    (
        Change::Move {
            window: 1,
            x: 1025,
            y: 0,
        },
        ChangeFault::OutOfRange,
    ),
    (Change::Map { window: 1 }, ChangeFault::AlreadyMapped),
    (Change::Unmap { window: 3 }, ChangeFault::NotMapped),
];

/// Whether a change is refused for this reason.
fn is_refused(answer: &Result<Touched, ChangeFault>, why: &ChangeFault) -> bool {
    match (answer, why) {
        (Err(ChangeFault::NoWindow), ChangeFault::NoWindow) => true,
        (Err(ChangeFault::OutOfRange), ChangeFault::OutOfRange) => true,
        (Err(ChangeFault::AlreadyMapped), ChangeFault::AlreadyMapped) => true,
        (Err(ChangeFault::NotMapped), ChangeFault::NotMapped) => true,
        _ => false,
    }
}

/// Whether a row's change is refused for the row's reason.
fn refuses<L: Ledger>(alloc: Global, board: &mut Board, row: &Refusal, steps: &mut Steps<L>) -> bool
    requires { board.old.counter ≤ 2000 }
    ensures { board.new.counter ≤ board.old.counter + 64 }
{
    is_refused(&apply(alloc, board, &row.0, steps), &row.1)
}

fn refuse_each<L: Ledger, R: Abort>(
    rt: &R,
    alloc: Global,
    rows: &[Refusal],
    steps: &mut Steps<L>,
) -> Result<(), Fail> {
    let mut board = three_windows(alloc)?;
    assert!(rt; rows.len() <= MOST_ROWS);
    for i in 0..rows.len() {
        assert!(rt; refuses(alloc, &mut board, &rows[i], steps));
    }
    Ok(())
}

fn each_board<L: Ledger, R: Abort>(rt: &R, alloc: Global, blank: Blank) -> Result<(), Fail>
    requires name { blank.name ≡ L.name }
    requires parts { blank.parts ≡ L.parts }
    requires one { L.parts ≡ 1 }
{
    let mut steps = Steps::<L>::new(blank);
    raise(rt, alloc, &mut steps)?;
    change_each(rt, alloc, &CHANGES, &mut steps)?;
    move_each(rt, alloc, &MOVES, &mut steps)?;
    refuse_each(rt, alloc, &REFUSED, &mut steps)
}

#[test]
fn boards(rt: HostRuntime) -> Result<(), Fail> {
    each_board::<Brand, _>(&rt, rt.alloc(), Blank::new(1))
}
