//! What is painted in front under a new stack: where the topmost window changed, the new one's background, or the root
//! colour. Of a window that moves all is painted that doesn't come along.

ghost use Rattle.std.specs.Prelude.{◌≡◌, ◌++◌, map, All, AllPairs, IfOk, IfSome, OnOk};
ghost use Rattle.std.specs.List.{AllByRecursion};
ghost use Rattle.dri_base.specs.Ranges.{WindowInRange};
ghost use Rattle.dri_rect.specs.Pixels.{IsApart, IsProper};
ghost use Rattle.dri_clips.specs.Gains.{AreOnScreen, IsRectOnScreen, clip_rect, paint_of};
ghost use Rattle.dri_clips.specs.Layouts.{IsLayout};
ghost use Rattle.dri_clips.specs.Mends.{AreMended};
ghost use Rattle.dri_clips.specs.Motions.{IsMotion, moved_in};
ghost use Rattle.dri_clips.specs.Paints.{ArePaints};

use crate::layout::Layout;
use crate::mending::Mended;
use crate::moving::{Motion, repainted};
use crate::stack::Stack;
use crate::{Paint, Paints};
use dri_base::{ClipRect, OutOfMemory, Rect, Rgb};
use dri_rect::Region;
use std::alloc::Global;

/// A rectangle of the screen, whose numbers are 0 to 1,024, as the card takes it.
pub fn clip_rect(rect: &Rect) -> ClipRect
    requires { IsRectOnScreen 1024 1024 rect.now }
    ensures { result ≡ clip_rect rect.now }
{
    ClipRect {
        x1: rect.x1 as u16,
        y1: rect.y1 as u16,
        x2: rect.x2 as u16,
        y2: rect.y2 as u16,
    }
}

/// Adds a paint of this colour for each rectangle of the region.
fn paint_region(paints: &mut Paints, region: &Region, colour: Rgb) -> Result<(), OutOfMemory>
    requires { AreOnScreen 1024 1024 region.now }
    ensures added { OnOk result (paints.new ≡ paints.old ++ map (paint_of colour) region.now) }
    ensures apart { AllPairs IsApart region.now }
    ensures proper { AllByRecursion IsProper region.now }
{
    region.arranged();
    for i in 0..region.len() {
        paints.push(Paint {
            rect: clip_rect(&region.rect(i)),
            colour,
        })?;
    }
    Ok(())
}

/// What a new stack paints.
pub fn paints(
    alloc: Global,
    root: Rgb,
    old: &Layout,
    new: &Stack,
    mended: &Mended,
    motion: &Option<Motion>,
) -> Result<Paints, OutOfMemory>
    requires layout { IsLayout old.now }
    requires ranged { All WindowInRange new.now }
    requires mended { AreMended old.now new.now mended.now }
    requires motion { IfSome motion.now (IsMotion old.now.width old.now.height old.now.stack new.now) }
    ensures { IfOk result (ArePaints old.now.width old.now.height root old.now.stack new.now (moved_in motion.now)) }
{
    let mut paints = Paints::new(alloc);
    paint_region(&mut paints, &mended.root.gained, root)?;
    for at in 0..new.len() {
        let window = new.window(at);
        if let Some(patch) = &mended.windows[window.number as usize] {
            let bare = repainted(motion, window.number, &patch.gained);
            paint_region(&mut paints, bare, window.background)?;
        }
    }
    Ok(paints)
}
