//! The lines of touches: words with a space between two.

ghost use Rattle.std.specs.Prelude.{◌≡◌, ◌++◌, ◌∷◌, [], IfOk, OnOk, codes, decimal, map};
ghost use Rattle.std.specs.List.{flat_map};
ghost use Rattle.dri_lab_run.specs.PlaceHistory.{clip_words, kind_word, sample_words, touch_lines, touch_words};
ghost use Rattle.dri_lab_run.specs.Spaces.{behind_spaces};
ghost use Rattle.dri_scene.specs.Texts.{Adds, spelled};
ghost use Rattle.dri_words.specs.Lines.{line_bytes};

use dri_base::{Bytes, OutOfMemory};
use dri_history::{Clip, Kind, Touch};
use dri_scene::{Word, end_line, push_bytes, push_word, push_words};
use std::alloc::{AllocError, Global};

/// The word for what is done to a place.
fn kind_word(kind: Kind) -> &'static [u8]
    ensures { result.now ≡ kind_word kind }
{
    match kind {
        Kind::Clear => b"clear",
        Kind::Triangle => b"triangle",
        Kind::Swap => b"swap",
        Kind::Carry => b"carry",
        Kind::Paint => b"paint",
    }
}

/// Puts a word and words behind it, each behind a space.
fn push_labelled(text: &mut Vec<u8>, label: &[u8], words: &[Word]) -> Result<(), AllocError>
    ensures { OnOk result (Adds text.old.items (behind_spaces (label.now ∷ map spelled words.now)) text.new.items) }
{
    push_word(text, label)?;
    push_words(text, words)
}

/// Puts the stamp and the rectangle of a clip, where there is one.
fn push_clip(text: &mut Vec<u8>, clip: &Option<Clip>) -> Result<(), AllocError>
    ensures { OnOk result (Adds text.old.items (behind_spaces (clip_words clip.now)) text.new.items) }
{
    let Some(clip) = clip else {
        return Ok(());
    };
    let corners = [
        Word::Signed(clip.rect.x1),
        Word::Signed(clip.rect.y1),
        Word::Signed(clip.rect.x2),
        Word::Signed(clip.rect.y2),
    ];
    push_labelled(text, b"stamp", &[Word::Number(clip.stamp)])?;
    push_labelled(text, b"clip", &corners)
}

/// Puts what stood at the place before the touch and after it.
fn push_samples(text: &mut Vec<u8>, touch: &Touch) -> Result<(), AllocError>
    ensures { OnOk result (Adds text.old.items (behind_spaces (sample_words touch.now)) text.new.items) }
{
    let (before, after) = (touch.before, touch.after);
    let front = [Word::Colour(before.front), Word::Colour(after.front)];
    let back = [
        Word::Colour(before.back.colour),
        Word::Colour(after.back.colour),
    ];
    let depth = [
        Word::Small(before.back.depth),
        Word::Small(after.back.depth),
    ];
    push_labelled(text, b"front", &front)?;
    push_labelled(text, b"back", &back)?;
    push_labelled(text, b"depth", &depth)
}

/// Puts a touch's line.
fn push_touch(text: &mut Vec<u8>, touch: &Touch) -> Result<(), AllocError>
    ensures { OnOk result (Adds text.old.items (line_bytes (touch_words touch.now)) text.new.items) }
{
    push_bytes(text, b"entry")?;
    push_words(text, &[Word::Number(touch.entry)])?;
    push_word(text, kind_word(touch.kind))?;
    push_labelled(text, b"client", &[Word::Number(touch.client)])?;
    push_clip(text, &touch.clip)?;
    push_samples(text, touch)?;
    end_line(text)
}

/// Puts the touches' lines.
fn push_touches(text: &mut Vec<u8>, touches: &[Touch]) -> Result<(), AllocError>
    ensures { OnOk result (Adds text.old.items (touch_lines touches.now) text.new.items) }
{
    for touch in touches {
        push_touch(text, touch)?;
    }
    Ok(())
}

/// The touches' lines.
pub fn touch_lines(alloc: Global, touches: &[Touch]) -> Result<Bytes, OutOfMemory>
    ensures { IfOk result (λ lines. lines ≡ touch_lines touches.now) }
{
    let mut text = Vec::new(alloc);
    push_touches(&mut text, touches)?;
    Ok(Bytes::from_vec(text))
}
