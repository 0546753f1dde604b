//! A frame drawn alone in a window, by the card's own walk. The surface is a plane of pairs of a colour and a depth, one for
//! each pixel of the window. A triangle is drawn by the registers of the script's state, and the texture memory is the bytes
//! of the texture that is bound.

ghost use Rattle.std.specs.Prelude.{◌≡◌, ◌≤◌, ◌<◌, ◌+◌, ◌-◌, ◌*◌, ℕ, pos, suc, length, map, Some, All, IfOk, IfSome, option_copied, if◌then◌else◌};
ghost use Rattle.dri_base.specs.declared.colour.Pixel.{Pixel};
ghost use Rattle.dri_base.specs.Fragments.{fragment, rules_of};
ghost use Rattle.dri_base.specs.Planes.{plane};
ghost use Rattle.dri_base.specs.Ranges.{CommandInRange, IsSide, TriangleInRange, texture_numbers};
ghost use Rattle.dri_base.specs.Scenes.{bytes_of};
ghost use Rattle.dri_base.specs.Texels.{own_image};
ghost use Rattle.dri_core.specs.Solo.{blank, drawn_by, solo};
ghost use Rattle.dri_model.specs.Words.{IsScissorInRange};
ghost use Rattle.dri_plane.specs.Grids.{IsInside, is_place};
ghost use Rattle.dri_walk.specs.Surfaces.{left_by};
ghost use Rattle.dri_meaning.specs.Canvases.{HasPairs, bound_first, registers_alone};
ghost use Rattle.dri_meaning.specs.Scripts.{ScriptInRange};

use crate::bound::texture_bound;
use crate::frame::Frame;
use crate::picture::Pixels;
use crate::settings::{state_after, state_at};
use crate::solo::BLANK;
use dri_base::{
    BoundTexture, ClientScript, ClipRect, Command, OutOfMemory, Pixel, Point, Registers, Sequence,
    State, Steps, Texture, Triangle,
};
use dri_plane::{Painter, Plane};
use dri_walk::{Surface, draw_triangle};
use std::alloc::Global;
use std::marker::Brand;
use std::sync::ledger::{Blank, Ledger};

/// The window's upper left corner on its own surface.
const CORNER: Point = Point { x: 0, y: 0 };

/// A pair for each pixel of a window.
#[derive(Drop)]
pub struct Canvas {
    pub pairs: Plane<Pixel>,
}

/// The registers of a state and its texture, which begins a memory that is its own bytes.
pub fn registers_alone(state: &State, texture: Option<&Texture>) -> Registers
    ensures { result ≡ registers_alone state.now (option_copied texture.entry) }
{
    let bound = match texture {
        None => None,
        Some(texture) => Some(BoundTexture {
            shape: texture.shape,
            base: 0,
        }),
    };
    Registers {
        shade: state.shade,
        depth_func: state.depth_func,
        depth_write: state.depth_write,
        blend: state.blend,
        tex_mode: state.tex_mode,
        wrap: state.wrap,
        bound,
        scissor: state.scissor,
    }
}

/// The bytes of a texture, and none where there is no texture.
pub fn bytes_of(texture: Option<&Texture>) -> &[u8]
    ensures { result.now ≡ bytes_of (option_copied texture.entry) }
{
    match texture {
        None => &[],
        Some(texture) => texture.bytes.as_slice(),
    }
}

impl Canvas {
    /// Black, as deep as can be. The sides are 1 to 1,024.
    fn new(alloc: Global, width: u32, height: u32) -> Result<Canvas, OutOfMemory>
        requires wide { IsSide width }
        requires high { IsSide height }
        ensures pairs { IfOk result (λ canvas. HasPairs canvas.pairs (λ x y. blank)) }
        ensures width { IfOk result (λ canvas. canvas.pairs.width ≡ width) }
        ensures height { IfOk result (λ canvas. canvas.pairs.height ≡ height) }
    {
        let pairs = Plane::new(alloc, width, height, BLANK)?;
        Ok(Canvas { pairs })
    }

    /// All of the window.
    fn whole(&self) -> ClipRect
        ensures value { result ≡ record { x1 = 0; y1 = 0; x2 = self.now.pairs.width; y2 = self.now.pairs.height } }
        ensures within { IsInside result self.now.pairs.width self.now.pairs.height }
        ensures small { IsInside result 1024 1024 }
    {
        ClipRect {
            x1: 0,
            y1: 0,
            x2: self.pairs.width() as u16,
            y2: self.pairs.height() as u16,
        }
    }

    /// Paints the place where the painter stands. It takes at most four steps.
    fn paint<P: Painter, L: Ledger>(&mut self, x: u16, y: u16, painter: &P, steps: &mut Steps<L>)
        requires column { x < self.old.pairs.width }
        requires row { y < self.old.pairs.height }
        requires ready { P.ready painter.now x }
        ensures pairs { (f : ℕ → ℕ → Pixel) → HasPairs self.old.pairs f → HasPairs self.new.pairs (λ a b. if is_place x y a b then left_by (λ p. p) (P.paints painter.now a (f a b)) (f a b) else f a b) }
        ensures width { self.new.pairs.width ≡ self.old.pairs.width }
        ensures height { self.new.pairs.height ≡ self.old.pairs.height }
        ensures cost { steps.new ≤ steps.old + 4 }
    {
        let under = self.pairs.get(u32::from(x), u32::from(y), steps);
        if let Some(pixel) = painter.paint(x, under) {
            self.pairs.put(u32::from(x), u32::from(y), pixel, steps);
        }
    }

    /// Draws a triangle of the script in a state.
    fn draw<L: Ledger>(
        &mut self,
        script: &ClientScript,
        state: &State,
        triangle: &Triangle,
        steps: &mut Steps<L>,
    )
        requires script { ScriptInRange script.now }
        requires scissor { IsScissorInRange state.now.scissor }
        requires range { TriangleInRange triangle.now }
        ensures pairs { (f : ℕ → ℕ → Pixel) → HasPairs self.old.pairs f → HasPairs self.new.pairs (λ x y. fragment (rules_of state.now) (own_image script.now.textures state.now.bound) triangle.now (pos x) (pos y) (f x y)) }
        ensures width { self.new.pairs.width ≡ self.old.pairs.width }
        ensures height { self.new.pairs.height ≡ self.old.pairs.height }
    {
        let texture = texture_bound(script.textures.as_slice(), state.bound);
        let registers = registers_alone(state, texture);
        let window = self.whole();
        let memory = bytes_of(texture);
        draw_triangle(self, &registers, memory, &window, CORNER, triangle, steps);
    }

    /// Does a command of the script in a state: a clear and a triangle change pixels.
    fn obey<L: Ledger>(
        &mut self,
        script: &ClientScript,
        state: &State,
        command: &Command,
        steps: &mut Steps<L>,
    )
        requires script { ScriptInRange script.now }
        requires scissor { IsScissorInRange state.now.scissor }
        requires range { CommandInRange (texture_numbers script.now.textures) command.now }
        ensures pairs { (f : ℕ → ℕ → Pixel) → HasPairs self.old.pairs f → HasPairs self.new.pairs (λ x y. drawn_by (rules_of state.now) (own_image script.now.textures state.now.bound) (Some command.now) (pos x) (pos y) (f x y)) }
        ensures width { self.new.pairs.width ≡ self.old.pairs.width }
        ensures height { self.new.pairs.height ≡ self.old.pairs.height }
    {
        match command {
            Command::Clear { colour, depth } => {
                let pixel = Pixel {
                    colour: *colour,
                    depth: *depth,
                };
                let window = self.whole();
                self.pairs.fill(&window, pixel, steps);
            }
            Command::Triangle(triangle) => self.draw(script, state, triangle, steps),
            _ => {}
        }
    }

    /// Draws the commands of a frame, from its clear up to its swap, over what is blank.
    fn draw_frame<L: Ledger>(&mut self, script: &ClientScript, frame: Frame, steps: &mut Steps<L>)
        requires script { ScriptInRange script.now }
        requires first { 0 < frame.clear }
        requires order { frame.clear < frame.swap }
        requires within { frame.swap ≤ length script.now.commands }
        requires blank { HasPairs self.old.pairs (λ x y. blank) }
        ensures pairs { HasPairs self.new.pairs (λ x y. solo script.now frame.clear (frame.swap - suc frame.clear) (pos x) (pos y)) }
        ensures width { self.new.pairs.width ≡ self.old.pairs.width }
        ensures height { self.new.pairs.height ≡ self.old.pairs.height }
    {
        let mut state = state_at(script.commands.as_slice(), frame.clear);
        for n in 0..frame.swap - frame.clear {
            let command = script.commands.get(frame.clear - 1 + n);
            self.obey(script, &state, command, steps);
            state = state_after(command, state);
        }
    }

    /// The colours of the pixels, row by row.
    fn colours(&self, alloc: Global) -> Result<Pixels, OutOfMemory>
        ensures { IfOk result (λ colours. colours ≡ map (λ p. p.colour) self.now.pairs.pixels) }
    {
        let mut colours = Sequence::new(alloc);
        let pixels = self.pairs.pixels();
        for pixel in pixels {
            colours.push(pixel.colour)?;
        }
        Ok(colours)
    }
}

impl Surface for Canvas {
    ghost use Rattle.dri_meaning.specs.Canvases.{pairs_alike};

    ghost width = { λ canvas. canvas.pairs.width };

    ghost height = { λ canvas. canvas.pairs.height };

    ghost holds = { λ canvas f. HasPairs canvas.pairs f };

    ghost kept = { λ pixel. pixel };

    ghost alike = { λ canvas f g same. pairs_alike canvas.pairs f g same };

    fn draw_run<P: Painter, L: Ledger>(
        &mut self,
        y: u16,
        left: u16,
        right: u16,
        painter: &mut P,
        steps: &mut Steps<L>,
    ) {
        self.paint(left, y, painter, steps);
        for x in left + 1..right {
            painter.step(x - 1);
            self.paint(x, y, painter, steps);
        }
    }
}

/// The colours that a frame leaves in a window of these sides. The walk counts steps that nobody asks for here.
fn colours_counted<L: Ledger>(
    alloc: Global,
    script: &ClientScript,
    frame: Frame,
    width: u32,
    height: u32,
    blank: Blank,
) -> Result<Pixels, OutOfMemory>
    requires name { blank.name ≡ L.name }
    requires parts { blank.parts ≡ L.parts }
    requires one { L.parts ≡ 1 }
    requires script { ScriptInRange script.now }
    requires first { 0 < frame.clear }
    requires order { frame.clear < frame.swap }
    requires within { frame.swap ≤ length script.now.commands }
    requires width { IsSide width }
    requires height { IsSide height }
    ensures { IfOk result (λ pixels. pixels ≡ plane width height (λ x y. (solo script.now frame.clear (frame.swap - suc frame.clear) (pos x) (pos y)).colour)) }
{
    let mut steps = Steps::<L>::new(blank);
    let mut canvas = Canvas::new(alloc, width, height)?;
    canvas.draw_frame(script, frame, &mut steps);
    let colours = canvas.colours(alloc)?;
    Ok(colours)
}

/// The colours that a frame leaves in a window of these sides, row by row.
pub fn colours(
    alloc: Global,
    script: &ClientScript,
    frame: Frame,
    width: u32,
    height: u32,
) -> Result<Pixels, OutOfMemory>
    requires script { ScriptInRange script.now }
    requires first { 0 < frame.clear }
    requires order { frame.clear < frame.swap }
    requires within { frame.swap ≤ length script.now.commands }
    requires width { IsSide width }
    requires height { IsSide height }
    ensures { IfOk result (λ pixels. pixels ≡ plane width height (λ x y. (solo script.now frame.clear (frame.swap - suc frame.clear) (pos x) (pos y)).colour)) }
{
    colours_counted::<Brand>(alloc, script, frame, width, height, Blank::new(1))
}
