//! Which changes the board refuses, and the stack after one that it doesn't.

ghost use Rattle.std.specs.Prelude.{◌≡◌, ◌≢◌, ◌&&◌, None, true, false, IfOk, OnOk, OnErr, IfErr};
ghost use Rattle.dri_base.specs.Scenes.{named_by};
ghost use Rattle.dri_model.specs.Stacks.{changed, moves, refusal, refused_at, stack_after, unmapped, without_owner};
ghost use Rattle.dri_clips.specs.declared.change.ChangeFault.{ChangeFault};
ghost use Rattle.dri_clips.specs.declared.change.ChangeFault.TheVariants.{OutOfMemory};
ghost use Rattle.dri_clips.specs.Layouts.{IsPlaced};
ghost use Rattle.dri_clips.specs.Refusals.{IsRefused, altered_by, destination};

use crate::stack::Stack;
use dri_base::{Change, OutOfMemory, Window, is_corner, is_side};
use thiserror::Error;

/// Why a change isn't made: the board refuses it, by one of the first four, or memory is wanting.
#[derive(Debug, Drop, Error)]
pub enum ChangeFault {
    /// The window isn't on the board.
    #[error("there is no such window")]
    NoWindow,
    /// A corner isn't from -1,024 to 1,024, or a side isn't from 1 to 1,024.
    #[error("a corner or a side is out of range")]
    OutOfRange,
    /// A map of a window that is mapped.
    #[error("the window is mapped already")]
    AlreadyMapped,
    /// An unmap of a window that isn't mapped.
    #[error("the window isn't mapped")]
    NotMapped,
    /// A growth of memory was refused.
    #[error("out of memory")]
    OutOfMemory,
}

impl From<OutOfMemory> for ChangeFault {
    ghost from_gives = { λ _ e. e ≡ OutOfMemory };

    fn from(_error: OutOfMemory) -> ChangeFault {
        ChangeFault::OutOfMemory
    }
}

impl ChangeFault {
    /// Whether the change is refused: the board's refusals touch nothing, and only want of memory is an error.
    pub fn refused(self) -> Result<(), OutOfMemory>
        ensures refused { OnOk result (self ≢ ChangeFault.OutOfMemory) }
        ensures wanting { OnErr result (self ≡ ChangeFault.OutOfMemory) }
    {
        match self {
            ChangeFault::OutOfMemory => Err(OutOfMemory),
            _ => Ok(()),
        }
    }
}

/// Whether both may be.
fn are_both(first: bool, second: bool) -> bool
    ensures { result ≡ (first && second) }
{
    first && second
}

/// The fault, where something isn't allowed.
fn allow(allowed: bool, fault: ChangeFault) -> Result<(), ChangeFault>
    ensures ok { OnOk result (allowed ≡ true) }
    ensures err { IfErr result (λ e. (allowed ≡ false) × (e ≡ fault)) }
{
    if allowed { Ok(()) } else { Err(fault) }
}

/// Whether a window may be changed so.
fn allow_change(change: &Change, window: &Window) -> Result<(), ChangeFault>
    ensures ok { OnOk result (refused_at change.now window.now ≡ None) }
    ensures err { IfErr result (IsRefused (refused_at change.now window.now)) }
{
    match *change {
        Change::Map { window: _ } => allow(!window.mapped, ChangeFault::AlreadyMapped),
        Change::Unmap { window: _ } => allow(window.mapped, ChangeFault::NotMapped),
        Change::Move { window: _, x, y } => {
            allow(
                are_both(is_corner(x), is_corner(y)),
                ChangeFault::OutOfRange,
            )
        }
        Change::Resize {
            window: _,
            width,
            height,
        } => allow(
            are_both(is_side(width), is_side(height)),
            ChangeFault::OutOfRange,
        ),
        Change::Raise { window: _ } => Ok(()),
        Change::Lower { window: _ } => Ok(()),
    }
}

/// The place of the window that a change names, where the board doesn't refuse the change.
pub fn place_to_change(stack: &Stack, change: &Change) -> Result<usize, ChangeFault>
    ensures place { IfOk result (λ at. IsPlaced (named_by change.now) at stack.now) }
    ensures ok { OnOk result (refusal change.now stack.now ≡ None) }
    ensures err { IfErr result (IsRefused (refusal change.now stack.now)) }
{
    let number = change.window();
    let Some(at) = stack.place(number) else {
        return Err(ChangeFault::NoWindow);
    };
    allow_change(change, &stack.window(at))?;
    Ok(at)
}

/// The window that a change is to move, if it is a move.
pub fn moved(change: &Change) -> Option<u32>
    ensures { result ≡ moves change.now }
{
    match *change {
        Change::Move { window, x: _, y: _ } => Some(window),
        _ => None,
    }
}

/// The window after a change of it.
fn altered(change: &Change, window: Window) -> Window
    ensures { result ≡ altered_by change.now window }
{
    match *change {
        Change::Map { window: _ } => Window {
            mapped: true,
            ..window
        },
        Change::Unmap { window: _ } => Window {
            mapped: false,
            ..window
        },
        Change::Move { window: _, x, y } => Window { x, y, ..window },
        Change::Resize {
            window: _,
            width,
            height,
        } => Window {
            width,
            height,
            ..window
        },
        Change::Raise { window: _ } => window,
        Change::Lower { window: _ } => window,
    }
}

/// The place of the changed window afterwards. Only a raise and a lower move it.
fn destination(change: &Change, at: usize, last: usize) -> usize
    ensures { result ≡ destination change.now at last }
{
    match *change {
        Change::Raise { window: _ } => 0,
        Change::Lower { window: _ } => last,
        _ => at,
    }
}

/// Makes a change of the window at a place.
fn changed(stack: &mut Stack, at: usize, change: &Change)
    requires { IsPlaced (named_by change.now) at stack.old }
    ensures { stack.new ≡ changed change.now stack.old }
{
    let last = stack.len() - 1;
    let window = stack.window(at);
    stack.replace(at, altered(change, window));
    stack.move_to(at, destination(change, at, last));
}

/// The stack after a change of the window at a place, which the board doesn't refuse.
pub fn stack_after(stack: &Stack, at: usize, change: &Change) -> Result<Stack, OutOfMemory>
    requires there { IsPlaced (named_by change.now) at stack.now }
    requires allowed { refusal change.now stack.now ≡ None }
    ensures { IfOk result (λ new. new ≡ stack_after change.now stack.now) }
{
    let mut next = stack.copy()?;
    changed(&mut next, at, change);
    Ok(next)
}

/// The window, unmapped where this client owns it.
fn unmapped(owner: u32, window: Window) -> Window
    ensures { result ≡ unmapped owner window }
{
    if window.owner == owner {
        Window {
            mapped: false,
            ..window
        }
    } else {
        window
    }
}

/// The stack after the death of a client: each window that it owns is unmapped.
pub fn without_owner(stack: &Stack, owner: u32) -> Result<Stack, OutOfMemory>
    ensures { IfOk result (λ new. new ≡ without_owner owner stack.now) }
{
    let mut next = stack.copy()?;
    for at in 0..stack.len() {
        next.replace(at, unmapped(owner, stack.window(at)));
    }
    Ok(next)
}
