//! What an entry does to the windows.

ghost use Rattle.std.specs.Prelude.{◌≡◌, ◌≤◌, None, IfOk, IfSome, OnOk, OnErr, is_none, is_some};
ghost use Rattle.dri_base.specs.Limits.{last_stamp};
ghost use Rattle.dri_clips.specs.Boards.{IsRestacked};
ghost use Rattle.dri_clips.specs.Paints.{IsTouched};
ghost use Rattle.dri_model.specs.Stacks.{moved_by, refusal, stack_after, without_owner};

use dri_base::{Change, OutOfMemory, Steps};
use dri_clips::{Board, Touched};
use std::alloc::Global;
use std::sync::ledger::{Blank, Ledger};

/// Makes a change of the windows, and tells what it touched; none where the board refuses it, which changes nothing. The
/// steps are counted from the blank on.
pub fn change_windows<L: Ledger>(
    blank: Blank,
    alloc: Global,
    board: &mut Board,
    change: &Change,
) -> Result<Option<Touched>, OutOfMemory>
    requires name { blank.name ≡ L.name }
    requires parts { blank.parts ≡ L.parts }
    requires one { L.parts ≡ 1 }
    requires counter { board.old.counter ≤ last_stamp }
    ensures ok { OnOk result (IsRestacked (stack_after change.now board.old.stack) board.old board.new) }
    ensures touched { IfOk result (λ told. IfSome told (IsTouched board.old (stack_after change.now board.old.stack) (moved_by change.now board.old.stack))) }
    ensures refused { IfOk result (λ told. is_none told ≡ is_some (refusal change.now board.old.stack)) }
    ensures err { OnErr result (board.new ≡ board.old) }
{
    let mut steps = Steps::<L>::new(blank);
    match board.apply(alloc, change, &mut steps) {
        Ok(touched) => Ok(Some(touched)),
        Err(fault) => {
            fault.refused()?;
            Ok(None)
        }
    }
}

/// Unmaps the windows of an owner, and tells what that touched. The steps are counted from the blank on.
pub fn unmap_windows<L: Ledger>(
    blank: Blank,
    alloc: Global,
    board: &mut Board,
    owner: u32,
) -> Result<Touched, OutOfMemory>
    requires name { blank.name ≡ L.name }
    requires parts { blank.parts ≡ L.parts }
    requires one { L.parts ≡ 1 }
    requires counter { board.old.counter ≤ last_stamp }
    ensures ok { OnOk result (IsRestacked (without_owner owner board.old.stack) board.old board.new) }
    ensures touched { IfOk result (IsTouched board.old (without_owner owner board.old.stack) None) }
    ensures err { OnErr result (board.new ≡ board.old) }
{
    let mut steps = Steps::<L>::new(blank);
    board.unmap_owner(alloc, owner, &mut steps)
}
