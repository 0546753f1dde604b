//! The calls from C, one for each of the program's words but `run`. A `&[u8]` is a pointer and a length there, and `alloc` nothing.

ghost use Rattle.std.specs.Prelude.{◌∷◌, [], codes, decimal};
ghost use Rattle.dri_c.specs.Obeying.{Gives};
ghost use Rattle.dri_c.specs.Playing.{TellsPlay};

use crate::answer::Answer;
use crate::playing::{PlayAnswer, tell_play};
use crate::saying::obey;
use std::alloc::Global;

/// Runs a scene's text by its schedule, as the word `turns` does: the screen in the P6 form, and the journal.
#[unsafe(no_mangle)]
pub extern "C" fn dri_turns(
    alloc: Global,
    scene: &[u8],
    picture: &mut [u8],
    notes: &mut [u8],
    answer: &mut Answer,
)
    ensures { Gives (codes "turns" ∷ []) scene.now picture.old picture.new notes.old notes.new answer.new }
{
    obey(alloc, "turns", &[], scene, picture, notes, answer);
}

/// Runs a scene's text as `dri_turns` does, as the word `sarea` does: the image of the shared area, and no notes.
#[unsafe(no_mangle)]
pub extern "C" fn dri_sarea(
    alloc: Global,
    scene: &[u8],
    picture: &mut [u8],
    notes: &mut [u8],
    answer: &mut Answer,
)
    ensures { Gives (codes "sarea" ∷ []) scene.now picture.old picture.new notes.old notes.new answer.new }
{
    obey(alloc, "sarea", &[], scene, picture, notes, answer);
}

/// Asks whether the journal behind a scene's text is a run of it, as the word `check` does: the line of its report, and no notes.
#[unsafe(no_mangle)]
pub extern "C" fn dri_check(
    alloc: Global,
    recording: &[u8],
    picture: &mut [u8],
    notes: &mut [u8],
    answer: &mut Answer,
)
    ensures { Gives (codes "check" ∷ []) recording.now picture.old picture.new notes.old notes.new answer.new }
{
    obey(alloc, "check", &[], recording, picture, notes, answer);
}

/// Draws the journal behind a scene's text by a card that flips, as the word `flip` does: the screen after it in the P6 form, and the
/// line of the flips and copies.
#[unsafe(no_mangle)]
pub extern "C" fn dri_flip(
    alloc: Global,
    recording: &[u8],
    picture: &mut [u8],
    notes: &mut [u8],
    answer: &mut Answer,
)
    ensures { Gives (codes "flip" ∷ []) recording.now picture.old picture.new notes.old notes.new answer.new }
{
    obey(alloc, "flip", &[], recording, picture, notes, answer);
}

/// Draws the journal behind a scene's text through a ring with room for so many jobs, 1 to 64, as the words `ring N` do: the screen
/// after it in the P6 form, and the line of what the ring counts. With another room the status is 1.
#[unsafe(no_mangle)]
pub extern "C" fn dri_ring(
    alloc: Global,
    room: u32,
    recording: &[u8],
    picture: &mut [u8],
    notes: &mut [u8],
    answer: &mut Answer,
)
    ensures { Gives (codes "ring" ∷ decimal room ∷ []) recording.now picture.old picture.new notes.old notes.new answer.new }
{
    obey(alloc, "ring", &[room], recording, picture, notes, answer);
}

/// Draws the journal behind a scene's text by a card that keeps colours in sixteen bits and draws lines, as the word `card16` does: the
/// screen after it in the P6 form, and no notes.
#[unsafe(no_mangle)]
pub extern "C" fn dri_card16(
    alloc: Global,
    recording: &[u8],
    picture: &mut [u8],
    notes: &mut [u8],
    answer: &mut Answer,
)
    ensures { Gives (codes "card16" ∷ []) recording.now picture.old picture.new notes.old notes.new answer.new }
{
    obey(alloc, "card16", &[], recording, picture, notes, answer);
}

/// Plays a scene's text in rounds of the groups behind it, as the word `many` does: the screen in the P6 form, and the journal.
#[unsafe(no_mangle)]
pub extern "C" fn dri_many(
    alloc: Global,
    scene_and_groups: &[u8],
    picture: &mut [u8],
    notes: &mut [u8],
    answer: &mut Answer,
)
    ensures { Gives (codes "many" ∷ []) scene_and_groups.now picture.old picture.new notes.old notes.new answer.new }
{
    obey(alloc, "many", &[], scene_and_groups, picture, notes, answer);
}

/// Draws a frame of a client alone, as the words `solo C K` do: its picture in the P6 form, and no notes. With a client that isn't
/// 1 to 32 or a frame that isn't 1 to 100,000 the status is 1.
#[unsafe(no_mangle)]
pub extern "C" fn dri_solo(
    alloc: Global,
    client: u32,
    frame: u32,
    scene: &[u8],
    picture: &mut [u8],
    notes: &mut [u8],
    answer: &mut Answer,
)
    ensures { Gives (codes "solo" ∷ decimal client ∷ decimal frame ∷ []) scene.now picture.old picture.new notes.old notes.new answer.new }
{
    obey(
        alloc,
        "solo",
        &[client, frame],
        scene,
        picture,
        notes,
        answer,
    );
}

/// Makes a scene of so many clients, 1 to 32, for load, as the words `make N` do: its text, and the line of its frames. With
/// another number the status is 1.
#[unsafe(no_mangle)]
pub extern "C" fn dri_make(
    alloc: Global,
    clients: u32,
    picture: &mut [u8],
    notes: &mut [u8],
    answer: &mut Answer,
)
    ensures { Gives (codes "make" ∷ decimal clients ∷ []) [] picture.old picture.new notes.old notes.new answer.new }
{
    obey(alloc, "make", &[clients], &[], picture, notes, answer);
}

/// Plays a scene's text by these items in place of its schedule, from the opening on and no further: the screen in the P6 form, the
/// journal, and of each item whether it was passed over. A number is the turn of its actor, 0 the server's; the negative of a
/// client's number is its kill. Where the scene hasn't the actor or the client, a client is killed twice, or there are more than
/// 1,000,000 items, the status is 1.
#[unsafe(no_mangle)]
pub extern "C" fn dri_play(
    alloc: Global,
    scene: &[u8],
    items: &[i32],
    passed: &mut [u8],
    picture: &mut [u8],
    notes: &mut [u8],
    played: &mut PlayAnswer,
    answer: &mut Answer,
)
    ensures { TellsPlay scene.now items.now passed.old passed.new picture.old picture.new notes.old notes.new played.new answer.new }
{
    tell_play(alloc, scene, items, passed, picture, notes, played, answer);
}
