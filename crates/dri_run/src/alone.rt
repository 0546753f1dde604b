//! The word `solo`: reads a scene, draws a client's frame alone, and writes its picture.

ghost use Rattle.std.specs.Prelude.{◌≡◌, ◌≢◌, ◌*◌, ◌≤◌, ◌⊎◌, ◌↔◌, ℕ, ℤ, List, Err, IfOk, Some, None, IsErrOf, false, length, map, pos, true};
ghost use Rattle.std.specs.Io.KnownBytes.{Consumes};
ghost use Rattle.dri_base.specs.Planes.{plane};
ghost use Rattle.dri_base.specs.Ranges.{InRange, IsSide};
ghost use Rattle.dri_base.specs.Scenes.{script_of, window_of};
ghost use Rattle.dri_core.specs.Solo.{solo_frame};
ghost use Rattle.dri_io.specs.Causes.{Rose};
ghost use Rattle.dri_meaning.specs.declared.picture.SoloFault.TheVariants.{NoFrame};
ghost use Rattle.dri_model.specs.Stacks.{window_in};
ghost use Rattle.dri_run.specs.Answering.{SaysAlone};
ghost use Rattle.dri_run.specs.FrameAlone.{DrawsAlone, GivesImage, IsImageDecided, IsImageOf, IsShot, ReadsImage, frame_answer_to, has_frame};
ghost use Rattle.dri_run.specs.FrameShown.{IsOnScreen, StoodLast};
ghost use Rattle.dri_run.specs.ScheduledRun.{IsRunOf};
ghost use Rattle.dri_base.specs.declared.colour.Rgb.{Rgb};
ghost use Rattle.dri_base.specs.declared.journal.Event.{Event};
ghost use Rattle.dri_base.specs.declared.scene.Scene.{Scene};
ghost use Rattle.dri_run.specs.Outcome.{AreTaken, Runs};

use crate::Status;
use crate::reading::read;
use crate::writing::write;
use dri_base::{Bytes, Scene, Window};
use dri_client::place_of;
use dri_io::{Sink, Source};
use dri_meaning::{Picture, SoloFault, solo_picture};
use dri_ppm::picture_bytes;
use dri_words::Reason;
use std::alloc::Global;

/// What `solo` shows is what the screen shows after `turns`: where a frame of a scene's run stood and then its client swapped
/// no more and its window was at most moved whole, each pixel of the screen in the window's clips is the one that the frame
/// drawn alone has at its place in the window, where it has that place: a window that was resized may show more of it. It does
/// nothing: its contract is the law.
pub fn solo_is_shown()
    ensures { (scene : Scene) (events : List Event) (c k width height : ℕ) (pixels : List Rgb) → IsRunOf scene events → StoodLast scene events c k
        → IsShot c k scene width height pixels → IsOnScreen scene events c width height pixels }
{}

/// The window with this number, where it is there.
fn window_in(windows: &[Window], number: u32) -> Option<Window>
    ensures { result ≡ window_in windows.now number }
{
    for window in windows {
        if window.number == number {
            return Some(*window);
        }
    }
    None
}

/// A client's frame drawn alone, with the sides that its window has in the scene.
fn picture_of(alloc: Global, scene: &Scene, client: u32, frame: u32) -> Result<Picture, SoloFault>
    requires { InRange scene.now }
    ensures shot { IfOk result (λ picture. IsShot client frame scene.now picture.width picture.height picture.pixels) }
    ensures no_frame { (result ≡ Err NoFrame) ↔ (has_frame client frame scene.now ≡ false) }
{
    let Some(at) = place_of(scene.clients.as_slice(), client) else {
        return Err(SoloFault::NoFrame);
    };
    let script = scene.clients.get(at);
    let window = window_in(scene.windows.as_slice(), script.window).unwrap();
    solo_picture(alloc, script, frame, window.width, window.height)
}

/// The picture of a client's frame, in the P6 form. An `Err` is the status to end with.
fn image_of(alloc: Global, scene: &Scene, client: u32, frame: u32) -> Result<Bytes, Status>
    requires { InRange scene.now }
    ensures { DrawsAlone client frame result scene.now }
{
    match picture_of(alloc, scene, client, frame) {
        Ok(picture) => match picture_bytes(alloc, &picture) {
            Ok(image) => Ok(image),
            Err(_) => Err(Status::OutOfMemory),
        },
        Err(SoloFault::NoFrame) => Err(Status::Refused {
            line: 0,
            reason: Reason::Frame,
        }),
        Err(SoloFault::OutOfMemory) => Err(Status::OutOfMemory),
    }
}

/// Reads the scene that a source's bytes spell, to their end, and draws a client's frame alone. An `Err` is the status to
/// end with.
fn read_image<S: Source>(
    alloc: Global,
    client: u32,
    frame: u32,
    input: &mut S,
) -> Result<Bytes, Status>
    ensures reads { (given : List ℕ) × Consumes (S.left input.old) (S.left input.new) given × ReadsImage client frame result given (S.left input.new) }
    ensures fault { IsErrOf result Status.ReadFault → Rose (S.faults input.old) (S.faults input.new) }
    ensures decided { (bytes : List ℕ) → S.left input.old ≡ Some bytes
        → (S.gives_all input.old ⊎ (Rose (S.faults input.old) (S.faults input.new) → ⊥)) → IsImageDecided client frame result bytes }
{
    match read::<Scene, S>(alloc, input) {
        Ok(scene) => image_of(alloc, &scene, client, frame),
        Err(status) => Err(status),
    }
}

/// Writes a picture, and nothing to the notes.
fn write_image<P: Sink, N: Sink>(image: &Bytes, picture: &mut P, notes: &mut N) -> Status
    ensures ran { Runs GivesImage result image.now
        (record { held = P.held picture.old; holds = P.held picture.new; before = P.faults picture.old; now = P.faults picture.new })
        (record { held = N.held notes.old; holds = N.held notes.new; before = N.faults notes.old; now = N.faults notes.new }) }
    ensures later { N.faults notes.old ≤ N.faults notes.new }
    ensures wrote { (result ≡ Status.Done) ⊎ (result ≡ Status.WriteFault) }
    ensures taken { AreTaken GivesImage (P.takes picture.old) (N.takes notes.old) image.now → result ≡ Status.Done }
{
    write(image.as_slice(), &[], picture, notes)
}

/// Reads a scene, draws a client's frame alone, and writes its picture.
pub fn obey_solo<S: Source, P: Sink, N: Sink>(
    alloc: Global,
    client: u32,
    frame: u32,
    input: &mut S,
    picture: &mut P,
    notes: &mut N,
) -> Status
    ensures says { (given : List ℕ) × Consumes (S.left input.old) (S.left input.new) given
        × SaysAlone client frame result given (S.left input.new)
        (record { held = P.held picture.old; holds = P.held picture.new; before = P.faults picture.old; now = P.faults picture.new })
        (record { held = N.held notes.old; holds = N.held notes.new; before = N.faults notes.old; now = N.faults notes.new }) }
    ensures later { N.faults notes.old ≤ N.faults notes.new }
    ensures read_fault { result ≡ Status.ReadFault → Rose (S.faults input.old) (S.faults input.new) }
    ensures unwritten { result ≢ Status.Done → result ≢ Status.WriteFault → (picture.new ≡ picture.old) × (notes.new ≡ notes.old) }
    ensures decided { (bytes : List ℕ) → S.left input.old ≡ Some bytes
        → (Rose (S.faults input.old) (S.faults input.new) → ⊥) → (Rose (P.faults picture.old) (P.faults picture.new) → ⊥)
        → (Rose (N.faults notes.old) (N.faults notes.new) → ⊥)
        → (result ≡ frame_answer_to client frame bytes) ⊎ (result ≡ Status.OutOfMemory) }
    ensures taken { (bytes : List ℕ) → S.left input.old ≡ Some bytes
        → (S.gives_all input.old ⊎ (Rose (S.faults input.old) (S.faults input.new) → ⊥))
        → ((image : List ℕ) → IsImageOf client frame image bytes → AreTaken GivesImage (P.takes picture.old) (N.takes notes.old) image)
        → (result ≡ frame_answer_to client frame bytes) ⊎ (result ≡ Status.OutOfMemory) }
{
    match read_image(alloc, client, frame, input) {
        Ok(image) => write_image(&image, picture, notes),
        Err(status) => status,
    }
}
