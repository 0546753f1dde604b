//! What a scene shows before anything is drawn, and the registers that a card begins with. The windows are painted from the bottom
//! of the stack to its top.

ghost use Rattle.std.specs.Prelude.{◌≡◌, ◌∷◌, ℕ, List, None, IfOk};
ghost use Rattle.dri_base.specs.declared.colour.Rgb.{Rgb};
ghost use Rattle.dri_base.specs.declared.scene.Window.{Window};
ghost use Rattle.dri_base.specs.Ranges.{InRange, IsSide, WindowInRange};
ghost use Rattle.dri_base.specs.States.{default_state};
ghost use Rattle.dri_model.specs.Words.{registers_for};
ghost use Rattle.dri_plane.specs.Grids.{IsInside};
ghost use Rattle.dri_card.specs.Openings.{IsCut, ShowsStack};

use dri_base::{ClipRect, OutOfMemory, Registers, Rgb, Scene, State, Steps, Window};
use dri_plane::Plane;
use dri_walk::nearest;
use std::alloc::Global;
use std::sync::ledger::Ledger;

/// The front plane of a scene: each pixel has the background of its topmost mapped window, or the root colour.
pub fn opening_front<L: Ledger>(
    alloc: Global,
    scene: &Scene,
    steps: &mut Steps<L>,
) -> Result<Plane<Rgb>, OutOfMemory>
    requires { InRange scene.now }
    ensures width { IfOk result (λ front. front.width ≡ scene.now.width) }
    ensures height { IfOk result (λ front. front.height ≡ scene.now.height) }
    ensures shown { IfOk result (ShowsStack scene.now.root scene.now.windows) }
{
    let mut front = Plane::new(alloc, scene.width, scene.height, scene.root)?;
    let windows = scene.windows.as_slice();
    for i in (0..windows.len()).rev() {
        paint_window(&mut front, &windows[i], steps);
    }
    Ok(front)
}

/// The registers of the default state, with nothing bound.
pub fn opening_registers() -> Registers
    ensures { result ≡ registers_for default_state None }
{
    let state = State::initial();
    Registers {
        shade: state.shade,
        depth_func: state.depth_func,
        depth_write: state.depth_write,
        blend: state.blend,
        tex_mode: state.tex_mode,
        wrap: state.wrap,
        bound: None,
        scissor: state.scissor,
    }
}

/// Paints a window over what lies below it in the stack, where it is mapped.
fn paint_window<L: Ledger>(front: &mut Plane<Rgb>, window: &Window, steps: &mut Steps<L>)
    requires { WindowInRange window.now }
    ensures width { front.new.width ≡ front.old.width }
    ensures height { front.new.height ≡ front.old.height }
    ensures shown { (root : Rgb) (below : List Window) → ShowsStack root below front.old → ShowsStack root (window.now ∷ below) front.new }
{
    if window.mapped {
        let rect = on_screen(window, front.width(), front.height());
        front.fill(&rect, window.background, steps);
    }
}

/// The pixels of a window that lie on a screen with sides 1 to 1,024.
fn on_screen(window: &Window, width: u32, height: u32) -> ClipRect
    requires window { WindowInRange window.now }
    requires wide { IsSide width }
    requires high { IsSide height }
    ensures inside { IsInside result width height }
    ensures pixels { IsCut window.now width height result }
{
    let (right, bottom) = (width as u16, height as u16);
    ClipRect {
        x1: nearest(window.x, 0, right),
        y1: nearest(window.y, 0, bottom),
        x2: nearest(window.x + window.width as i32, 0, right),
        y2: nearest(window.y + window.height as i32, 0, bottom),
    }
}
