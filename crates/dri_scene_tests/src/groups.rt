//! A text of groups behind a scene that is read, and one that is refused. `tests/program` has one for each reason.

ghost use Rattle.std.specs.Prelude.{◌≤◌, ◌≡◌, length};

use dri_base::Scene;
use dri_many::{GroupFault, Groupings, read_groups};
use dri_scene::read_scene;
use dri_words::Reason;
use std::alloc::Global;
use std::process::Abort;
use std::test::Fail;

/// Three clients.
const SCENE: &[u8] =
    b"dri 1\nscreen 2 1 000000\nheap 1 256\nwindow 1 0 0 1 1 111111 1 up\nwindow 2 1 0 1 1 222222 2 up\nwindow 3 0 0 1 1 333333 32 up\nclient 1 1\nend\nclient 2 2\nend\nclient 32 3\nend\ndone\n";

/// The number that the first line of each text is given.
const FIRST: u32 = 17;

/// Two members, made current in their order turned round; lines that are passed over stand between.
const TEXT: &[u8] = b"many 1\n# two of three\n\ngroup 32 1\ncurrent 1\ncurrent 32\nend\ndone\n\n";

/// A text with a group that has a member twice.
const REFUSED: &[u8] = b"many 1\n#\ngroup 1 2\nend\ngroup 32 2\nend\ndone\n";

/// The groups of a text that is short enough to have its lines numbered.
fn groups(alloc: Global, scene: &Scene, text: &[u8]) -> Result<Groupings, GroupFault> {
    if text.len() > 4_000_000_000 {
        return Err(GroupFault::OutOfMemory);
    }
    read_groups(alloc, text, scene, FIRST)
}

/// Whether the text is refused at this line for this reason.
fn is_refused(alloc: Global, scene: &Scene, text: &[u8], line: u32, reason: Reason) -> bool {
    match groups(alloc, scene, text) {
        Ok(_groups) => false,
        Err(fault) => fault == GroupFault::Refused { line, reason },
    }
}

/// Whether the text is read as the one group of these members and currents.
fn is_read(alloc: Global, scene: &Scene, text: &[u8], members: &[u32], currents: &[u32]) -> bool {
    match groups(alloc, scene, text) {
        Ok(groups) => match groups.as_slice() {
            [group] => {
                group.members.as_slice() == members && group.currents.as_slice() == currents
            }
            _ => false,
        },
        Err(_fault) => false,
    }
}

#[test]
fn groups_of_texts(rt: HostRuntime) -> Result<(), Fail> {
    let scene = read_scene(rt.alloc(), SCENE)?;
    assert!(rt; is_read(rt.alloc(), &scene, TEXT, &[32, 1], &[1, 32]));
    assert!(rt; is_refused(rt.alloc(), &scene, REFUSED, 21, Reason::Twice));
    Ok(())
}
