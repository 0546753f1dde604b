//! The word `all N`: each picture and each journal that a scene's runs of at most N events can end with.

ghost use Rattle.std.specs.Prelude.{◌≡◌, ◌++◌, ◌∷◌, ◌*◌, ◌<◌, [], All, IfOk, OnOk, codes, decimal, length};
ghost use Rattle.std.specs.List.{flat_map};
ghost use Rattle.dri_base.specs.Ranges.{InRange};
ghost use Rattle.dri_lab_run.specs.AllEnds.{GivesAll, RefusesAll, cut_word, end_block, last_line};
ghost use Rattle.dri_lab_run.specs.Outcome.{Makes};
ghost use Rattle.dri_ppm.specs.Ppm.{ppm};
ghost use Rattle.dri_scene.specs.Texts.{Adds};

use crate::LabStatus;
use dri_base::{Bytes, OutOfMemory, Rgb, Scene, Sequence};
use dri_explore::{End, Ends, ExploreFault, Screen, all_ends};
use dri_journal::print_journal;
use dri_meaning::Picture;
use dri_ppm::picture_bytes;
use dri_run::{Output, Status};
use dri_scene::{end_line, push_bytes, push_word};
use itoa::Buffer;
use std::alloc::{AllocError, Global};
use std::sync::Arc;

/// How many runs of one number of events are kept at most.
const MOST_RUNS: usize = 10_000;

/// The colours once more.
fn copied(alloc: Global, colours: &[Rgb]) -> Result<Screen, OutOfMemory>
    ensures { IfOk result (λ screen. screen ≡ colours.now) }
{
    let mut screen = Sequence::new(alloc);
    for colour in colours {
        screen.push(*colour)?;
    }
    Ok(screen)
}

/// The image of a screen of the scene.
fn image_of(alloc: Global, scene: &Scene, screen: &Screen) -> Result<Bytes, OutOfMemory>
    requires range { InRange scene.now }
    requires pixels { length screen.now ≡ scene.now.width * scene.now.height }
    ensures { IfOk result (λ image. image ≡ ppm scene.now.width scene.now.height screen.now) }
{
    let pixels = copied(alloc, screen.as_slice())?;
    let picture = Picture {
        width: scene.width,
        height: scene.height,
        pixels,
    };
    picture_bytes(alloc, &picture)
}

/// The images of screens of the scene, one after another.
fn images_of(alloc: Global, scene: &Scene, screens: &[Screen]) -> Result<Bytes, OutOfMemory>
    requires range { InRange scene.now }
    requires pixels { All (λ screen. length screen ≡ scene.now.width * scene.now.height) screens.now }
    ensures { IfOk result (λ images. images ≡ flat_map (ppm scene.now.width scene.now.height) screens.now) }
{
    let mut images = Vec::new(alloc);
    for screen in screens {
        let image = image_of(alloc, scene, screen)?;
        push_bytes(&mut images, image.as_slice())?;
    }
    Ok(Bytes::from_vec(images))
}

/// Puts a space and a count.
fn push_count(text: &mut Vec<u8>, count: usize) -> Result<(), AllocError>
    ensures { OnOk result (Adds text.old.items (32 ∷ decimal count) text.new.items) }
{
    let mut digits = Buffer::new();
    push_word(text, digits.format(count).as_bytes())
}

/// Puts an end's block. Its picture is one of so many.
fn push_end(
    alloc: Global,
    text: &mut Vec<u8>,
    end: &End,
    pictures: usize,
) -> Result<(), OutOfMemory>
    requires { end.now.picture < pictures }
    ensures { OnOk result (Adds text.old.items (end_block end.now) text.new.items) }
{
    push_bytes(text, b"picture")?;
    push_count(text, end.picture + 1)?;
    end_line(text)?;
    let journal = print_journal(alloc, end.journal.as_slice())?;
    push_bytes(text, journal.as_slice())?;
    Ok(())
}

/// Puts the blocks of ends.
fn push_ends(
    alloc: Global,
    text: &mut Vec<u8>,
    ends: &[End],
    pictures: usize,
) -> Result<(), OutOfMemory>
    requires { All (λ end. end.picture < pictures) ends.now }
    ensures { OnOk result (Adds text.old.items (flat_map end_block ends.now) text.new.items) }
{
    for end in ends {
        push_end(alloc, text, end, pictures)?;
    }
    Ok(())
}

/// `cut` or `whole`
fn cut_word(cut: bool) -> &'static [u8]
    ensures { result.now ≡ cut_word cut }
{
    if cut { b"cut" } else { b"whole" }
}

/// Puts the last line.
fn push_last(text: &mut Vec<u8>, ends: usize, pictures: usize, cut: bool) -> Result<(), AllocError>
    ensures { OnOk result (Adds text.old.items (last_line ends pictures cut) text.new.items) }
{
    push_bytes(text, b"journals")?;
    push_count(text, ends)?;
    push_word(text, b"pictures")?;
    push_count(text, pictures)?;
    push_word(text, cut_word(cut))?;
    end_line(text)
}

/// The blocks of all ends, and the last line.
fn notes_of(alloc: Global, found: &Ends) -> Result<Bytes, OutOfMemory>
    requires { All (λ end. end.picture < length found.now.pictures) found.now.ends }
    ensures { IfOk result (λ notes. notes ≡ flat_map end_block found.now.ends ++ last_line (length found.now.ends) (length found.now.pictures) found.now.cut) }
{
    let mut text = Vec::new(alloc);
    let pictures = found.pictures.len();
    push_ends(alloc, &mut text, found.ends.as_slice(), pictures)?;
    push_last(&mut text, found.ends.len(), pictures, found.cut)?;
    Ok(Bytes::from_vec(text))
}

/// What the word gives of a scene. An `Err` is the status to end with.
pub fn all_of(alloc: Global, events: u32, scene: Scene) -> Result<Output, LabStatus>
    requires { InRange scene }
    ensures { Makes (GivesAll events) (RefusesAll events) result scene }
{
    let scene = match Arc::new(alloc, scene) {
        Ok(scene) => scene,
        Err(_) => return Err(LabStatus::Common(Status::OutOfMemory)),
    };
    let found = match all_ends(alloc, &scene, events, MOST_RUNS) {
        Ok(found) => found,
        Err(ExploreFault::TooMany) => return Err(LabStatus::TooMany),
        Err(ExploreFault::OutOfMemory) => return Err(LabStatus::Common(Status::OutOfMemory)),
    };
    let picture = images_of(alloc, &scene, found.pictures.as_slice())?;
    let notes = notes_of(alloc, &found)?;
    Ok(Output { picture, notes })
}
