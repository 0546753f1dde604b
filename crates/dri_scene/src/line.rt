//! A line whose numbers are in their ranges, made of its form.

ghost use Rattle.std.specs.Prelude.{◌≡◌, ◌≤◌, ◌*◌, IfSome, length};
ghost use Rattle.dri_base.specs.Scenes.{texel_bytes};
ghost use Rattle.dri_words.specs.Ranges.{within};
ghost use Rattle.dri_scene.specs.Lines.{screen_in, heap_in, window_in, client_in, texture_in, scissor_in, setting_in, corner_in, triangle_in, command_in, move_in, resize_in, change_in, item_in, line_in};
ghost use Rattle.dri_base.specs.Ranges.{ScissorInRange, VertexInRange};
ghost use Rattle.dri_scene.specs.Shapes.{IsSettingRanged, IsCommandOf, IsChangeRanged, IsLineOf};
ghost use Rattle.dri_scene.specs.declared.form.CommandForm.TheVariants as commands;
ghost use Rattle.dri_scene.specs.declared.form.Form.TheVariants as forms;

use crate::form::{
    ChangeForm, CommandForm, CornerForm, Digits, Form, ItemForm, ScissorForm, SettingForm,
    TextureForm, WindowForm,
};
use dri_base::{
    Change, ClipRect, Command, Item, MOST_SCISSOR, MOST_SIDE, Rgb, Setting, TexFormat, TexShape,
    Triangle, Vertex, Window, is_region_size,
};
use dri_words::{signed_within, within};

/// How far a window's corner may lie from the screen's, across or down.
const FARTHEST: i32 = MOST_SIDE as i32;

/// A line of a scene.
#[derive(Drop)]
pub enum Line<'a> {
    Title,
    Screen {
        width: u32,
        height: u32,
        root: Rgb,
    },
    Heap {
        regions: u32,
        region_size: u32,
    },
    Window(Window),
    Client {
        number: u32,
        window: u32,
    },
    Texture {
        number: u32,
        shape: TexShape,
        image: Digits<'a>,
    },
    Command(Command),
    Server,
    Change(Change),
    Turns,
    Item(Item),
    End,
    Done,
}

/// `screen`: sides 1 to 1,024.
#[tactic(auto, unfolding(crate::specs::Lines::screen_in))]
fn screen_in<'a>(width: i64, height: i64, root: Rgb) -> Option<Line<'a>>
    ensures value { result ≡ screen_in width height root }
    ensures range { IfSome result (IsLineOf (forms.Screen width height root)) }
{
    let width = within(1, MOST_SIDE, width)?;
    let height = within(1, MOST_SIDE, height)?;
    Some(Line::Screen {
        width,
        height,
        root,
    })
}

/// `heap`: 1 to 64 regions of a size.
#[tactic(auto, unfolding(crate::specs::Lines::heap_in))]
fn heap_in<'a>(regions: i64, region_size: i64) -> Option<Line<'a>>
    ensures value { result ≡ heap_in regions region_size }
    ensures range { IfSome result (IsLineOf (forms.Heap regions region_size)) }
{
    let regions = within(1, 64, regions)?;
    let region_size = within(256, 65536, region_size)?;
    if is_region_size(region_size) {
        Some(Line::Heap {
            regions,
            region_size,
        })
    } else {
        None
    }
}

/// `window`: a number 1 to 64, a place from -1,024 to 1,024, sides 1 to 1,024, an owner 0 to 32.
#[tactic(auto, unfolding(crate::specs::Lines::window_in))]
fn window_in<'a>(form: &WindowForm) -> Option<Line<'a>>
    ensures value { result ≡ window_in form.now }
    ensures range { IfSome result (IsLineOf (forms.Window form.now)) }
{
    let number = within(1, 64, form.number)?;
    let x = signed_within(-FARTHEST, FARTHEST, form.x)?;
    let y = signed_within(-FARTHEST, FARTHEST, form.y)?;
    let width = within(1, MOST_SIDE, form.width)?;
    let height = within(1, MOST_SIDE, form.height)?;
    let owner = within(0, 32, form.owner)?;
    Some(Line::Window(Window {
        number,
        x,
        y,
        width,
        height,
        background: form.background,
        owner,
        mapped: form.mapped,
    }))
}

/// `client`: a number 1 to 32, a window 1 to 64.
#[tactic(auto, unfolding(crate::specs::Lines::client_in))]
fn client_in<'a>(number: i64, window: i64) -> Option<Line<'a>>
    ensures value { result ≡ client_in number window }
    ensures range { IfSome result (IsLineOf (forms.Client number window)) }
{
    let number = within(1, 32, number)?;
    let window = within(1, 64, window)?;
    Some(Line::Client { number, window })
}

/// The bytes that a texel takes.
fn bytes_per_texel(format: TexFormat) -> u64
    ensures exact { result ≡ texel_bytes format }
    ensures small { result ≤ 2 }
{
    match format {
        TexFormat::L8 => 1,
        TexFormat::Rgb565 => 2,
    }
}

/// The bytes of an image.
fn bytes_of_shape(format: TexFormat, width: u32, height: u32) -> u64
    requires { (width ≤ 256) × (height ≤ 256) }
    ensures exact { result ≡ texel_bytes format * (width * height) }
    ensures small { result ≤ 131072 }
{
    let texels = u64::from(width) * u64::from(height);
    bytes_per_texel(format) * texels
}

/// `texture`: a number 1 to 64, sides 1 to 256, two digits for each byte of the shape.
#[tactic(auto, unfolding(crate::specs::Lines::texture_in))]
fn texture_in<'a>(form: TextureForm<'a>) -> Option<Line<'a>>
    ensures value { result ≡ texture_in form.entry }
    ensures range { IfSome result (IsLineOf (forms.Texture form.entry)) }
{
    let number = within(1, 64, form.number)?;
    let width = within(1, 256, form.width)?;
    let height = within(1, 256, form.height)?;
    let bytes = bytes_of_shape(form.format, width, height);
    if form.image.as_slice().len() as u64 != 2 * bytes {
        return None;
    }
    let shape = TexShape {
        format: form.format,
        width,
        height,
    };
    Some(Line::Texture {
        number,
        shape,
        image: form.image,
    })
}

/// A scissor: four numbers 0 to 2,048.
#[tactic(auto, unfolding(crate::specs::Lines::scissor_in))]
fn scissor_in(form: &ScissorForm) -> Option<ClipRect>
    ensures value { result ≡ scissor_in form.now }
    ensures range { IfSome result ScissorInRange }
{
    let x1 = within(0, u32::from(MOST_SCISSOR), form.x1)?;
    let y1 = within(0, u32::from(MOST_SCISSOR), form.y1)?;
    let x2 = within(0, u32::from(MOST_SCISSOR), form.x2)?;
    let y2 = within(0, u32::from(MOST_SCISSOR), form.y2)?;
    Some(ClipRect {
        x1: x1 as u16,
        y1: y1 as u16,
        x2: x2 as u16,
        y2: y2 as u16,
    })
}

/// A setting: a texture's number 1 to 64.
#[tactic(auto, unfolding(crate::specs::Lines::setting_in))]
fn setting_in(form: &SettingForm) -> Option<Setting>
    ensures value { result ≡ setting_in form.now }
    ensures range { IfSome result IsSettingRanged }
{
    match form {
        SettingForm::Shade(value) => Some(Setting::Shade(*value)),
        SettingForm::DepthFunc(value) => Some(Setting::DepthFunc(*value)),
        SettingForm::DepthWrite(value) => Some(Setting::DepthWrite(*value)),
        SettingForm::Blend(value) => Some(Setting::Blend(*value)),
        SettingForm::TexMode(value) => Some(Setting::TexMode(*value)),
        SettingForm::Wrap(value) => Some(Setting::Wrap(*value)),
        SettingForm::Bind(None) => Some(Setting::Bind(None)),
        SettingForm::Bind(Some(texture)) => Some(Setting::Bind(Some(within(1, 64, *texture)?))),
        SettingForm::Scissor(None) => Some(Setting::Scissor(None)),
        SettingForm::Scissor(Some(scissor)) => Some(Setting::Scissor(Some(scissor_in(scissor)?))),
    }
}

/// A number from 0 to 65,535.
fn small(number: i64) -> Option<u16>
    ensures { result ≡ within 0 65535 number }
{
    let value = within(0, 65535, number)?;
    Some(value as u16)
}

/// A corner: a place from -32,768 to 32,767, z, s and t 0 to 65,535.
#[tactic(auto, unfolding(crate::specs::Lines::corner_in))]
fn corner_in(form: &CornerForm) -> Option<Vertex>
    ensures value { result ≡ corner_in form.now }
    ensures range { IfSome result VertexInRange }
{
    let x = signed_within(-32768, 32767, form.x)?;
    let y = signed_within(-32768, 32767, form.y)?;
    let z = small(form.z)?;
    let s = small(form.s)?;
    let t = small(form.t)?;
    Some(Vertex {
        x,
        y,
        z,
        colour: form.colour,
        s,
        t,
    })
}

/// Three corners.
#[tactic(auto, unfolding(crate::specs::Lines::triangle_in))]
fn triangle_in(a: &CornerForm, b: &CornerForm, c: &CornerForm) -> Option<Command>
    ensures value { result ≡ triangle_in a.now b.now c.now }
    ensures range { IfSome result (IsCommandOf (commands.Triangle a.now b.now c.now)) }
{
    let a = corner_in(a)?;
    let b = corner_in(b)?;
    let c = corner_in(c)?;
    Some(Command::Triangle(Triangle { a, b, c }))
}

/// A command: a clear's depth 0 to 65,535.
#[tactic(auto, unfolding(crate::specs::Lines::command_in))]
fn command_in(form: &CommandForm) -> Option<Command>
    ensures value { result ≡ command_in form.now }
    ensures range { IfSome result (IsCommandOf form.now) }
{
    match form {
        CommandForm::Set(setting) => setting_in(setting).map(Command::Set),
        CommandForm::Clear { colour, depth } => Some(Command::Clear {
            colour: *colour,
            depth: small(*depth)?,
        }),
        CommandForm::Triangle { a, b, c } => triangle_in(a, b, c),
        CommandForm::Swap => Some(Command::Swap),
        CommandForm::Yield => Some(Command::Yield),
        CommandForm::Die => Some(Command::Die),
    }
}

/// A move: a window 1 to 64, a place from -1,024 to 1,024.
#[tactic(auto, unfolding(crate::specs::Lines::move_in))]
fn move_in(window: i64, x: i64, y: i64) -> Option<Change>
    ensures value { result ≡ move_in window x y }
    ensures range { IfSome result IsChangeRanged }
{
    let window = within(1, 64, window)?;
    let x = signed_within(-FARTHEST, FARTHEST, x)?;
    let y = signed_within(-FARTHEST, FARTHEST, y)?;
    Some(Change::Move { window, x, y })
}

/// A resize: a window 1 to 64, sides 1 to 1,024.
#[tactic(auto, unfolding(crate::specs::Lines::resize_in))]
fn resize_in(window: i64, width: i64, height: i64) -> Option<Change>
    ensures value { result ≡ resize_in window width height }
    ensures range { IfSome result IsChangeRanged }
{
    let window = within(1, 64, window)?;
    let width = within(1, MOST_SIDE, width)?;
    let height = within(1, MOST_SIDE, height)?;
    Some(Change::Resize {
        window,
        width,
        height,
    })
}

/// A change: a window 1 to 64.
#[tactic(auto, unfolding(crate::specs::Lines::change_in))]
fn change_in(form: &ChangeForm) -> Option<Change>
    ensures value { result ≡ change_in form.now }
    ensures range { IfSome result IsChangeRanged }
{
    match form {
        ChangeForm::Map { window } => Some(Change::Map {
            window: within(1, 64, *window)?,
        }),
        ChangeForm::Unmap { window } => Some(Change::Unmap {
            window: within(1, 64, *window)?,
        }),
        ChangeForm::Move { window, x, y } => move_in(*window, *x, *y),
        ChangeForm::Resize {
            window,
            width,
            height,
        } => resize_in(*window, *width, *height),
        ChangeForm::Raise { window } => Some(Change::Raise {
            window: within(1, 64, *window)?,
        }),
        ChangeForm::Lower { window } => Some(Change::Lower {
            window: within(1, 64, *window)?,
        }),
    }
}

/// An item: a client 1 to 32.
#[tactic(auto, unfolding(crate::specs::Lines::item_in))]
fn item_in(form: &ItemForm) -> Option<Item>
    ensures { result ≡ item_in form.now }
{
    match form {
        ItemForm::Server => Some(Item::Turn { actor: 0 }),
        ItemForm::Turn { client } => Some(Item::Turn {
            actor: within(1, 32, *client)?,
        }),
        ItemForm::Kill { client } => Some(Item::Kill {
            client: within(1, 32, *client)?,
        }),
    }
}

/// The line of a form, where each number is in its range.
#[tactic(auto, unfolding(crate::specs::Lines::line_in))]
pub fn line_in<'a>(form: Form<'a>) -> Option<Line<'a>>
    ensures value { result ≡ line_in form.entry }
    ensures range { IfSome result (IsLineOf form.entry) }
{
    match form {
        Form::Title => Some(Line::Title),
        Form::Screen {
            width,
            height,
            root,
        } => screen_in(width, height, root),
        Form::Heap {
            regions,
            region_size,
        } => heap_in(regions, region_size),
        Form::Window(window) => window_in(&window),
        Form::Client { number, window } => client_in(number, window),
        Form::Texture(texture) => texture_in(texture),
        Form::Command(command) => Some(Line::Command(command_in(&command)?)),
        Form::Server => Some(Line::Server),
        Form::Change(change) => Some(Line::Change(change_in(&change)?)),
        Form::Turns => Some(Line::Turns),
        Form::Item(item) => Some(Line::Item(item_in(&item)?)),
        Form::End => Some(Line::End),
        Form::Done => Some(Line::Done),
    }
}
