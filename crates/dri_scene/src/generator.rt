//! The scene that is made for load, part by part as its definition has them. Numbers of windows, clients, textures, frames and
//! changes count from 1.

ghost use Rattle.std.specs.Prelude.{◌≡◌, ◌++◌, ◌≤◌, ◌<◌, List, [], map, IfOk, OnOk};
ghost use Rattle.std.specs.List.{flat_map};
ghost use Rattle.dri_base.specs.Ranges.{InRange, IsWithin};
ghost use Rattle.dri_base.specs.Planes.{plane};
ghost use Rattle.dri_scene.specs.Generator.{change, change_of, changed_window, client, far, far_triangle, first_settings, frame_commands, from_one, generator, grey, near, near_triangle, script_commands, texture, window};

use dri_base::{
    Bytes, Change, Changes, ClientScript, Clients, Command, Commands, DepthFunc, Items,
    OutOfMemory, Rgb, Rgba, Scene, Sequence, Setting, TexFormat, TexMode, TexShape, Texture,
    Textures, Triangle, Vertex, Window, Windows,
};
use std::alloc::Global;

/// The screen's sides.
const SCREEN_WIDTH: u32 = 640;

const SCREEN_HEIGHT: u32 = 480;

/// The root's colour.
const ROOT: Rgb = Rgb {
    r: 0x20,
    g: 0x30,
    b: 0x40,
};

/// The regions of texture memory, and a region's bytes.
const REGIONS: u32 = 16;

const REGION_SIZE: u32 = 4096;

/// Windows are spread over places below these, and are moved within them.
const PLACES_ACROSS: u32 = 320;

const PLACES_DOWN: u32 = 200;

/// A window's sides.
const WINDOW_WIDTH: u32 = 280;

const WINDOW_HEIGHT: u32 = 220;

/// The right and the lower edge of a window in sixteenths of a pixel, as a vertex has them.
const RIGHT: i32 = 4480;

const BOTTOM: i32 = 3520;

/// How many textures each client has, and their sides.
const TEXTURES: u32 = 3;

const TEXTURE_SIDE: u32 = 64;

/// The last sixteenth of a texture's column or row.
const LAST_TEXEL: u16 = 1023;

/// How many greys there are.
const GREYS: u32 = 256;

/// How many frames each client draws.
const FRAMES: u32 = 20;

/// How many changes the server makes.
const CHANGES: u32 = 40;

/// The depth of the far triangle and of the near one.
const FAR: u16 = 1000;

const NEAR: u16 = 500;

/// As deep as can be.
const DEEPEST: u16 = 65535;

const WHITE: Rgba = Rgba {
    r: 0xff,
    g: 0xff,
    b: 0xff,
    a: 0xff,
};

const GREEN: Rgba = Rgba {
    r: 0x80,
    g: 0xff,
    b: 0x80,
    a: 0xff,
};

/// Window `w`, which client `w` owns.
fn window(w: u32) -> Window
    requires { IsWithin 1 32 w }
    ensures { result ≡ window w }
{
    Window {
        number: w,
        x: (61 * w % PLACES_ACROSS) as i32,
        y: (43 * w % PLACES_DOWN) as i32,
        width: WINDOW_WIDTH,
        height: WINDOW_HEIGHT,
        background: Rgb {
            r: (7 * w) as u8,
            g: 0x40,
            b: 0x80,
        },
        owner: w,
        mapped: true,
    }
}

/// The windows, from the top down.
fn windows(alloc: Global, n: u32) -> Result<Windows, OutOfMemory>
    requires { IsWithin 1 32 n }
    ensures { IfOk result (λ windows. windows ≡ map window (from_one n)) }
{
    let mut windows = Sequence::new(alloc);
    for k in 0..n {
        windows.push(window(k + 1))?;
    }
    Ok(windows)
}

/// The bytes of texture `t` of client `c`, row by row.
fn greys(alloc: Global, c: u32, t: u32) -> Result<Bytes, OutOfMemory>
    requires client { IsWithin 1 32 c }
    requires texture { IsWithin 1 3 t }
    ensures { IfOk result (λ bytes. bytes ≡ plane 64 64 (grey c t)) }
{
    let mut bytes = Bytes::new(alloc);
    for k in 0..TEXTURE_SIDE * TEXTURE_SIDE {
        let (x, y) = (k % TEXTURE_SIDE, k / TEXTURE_SIDE);
        bytes.push(((x * t + y * c) % GREYS) as u8)?;
    }
    Ok(bytes)
}

/// Texture `t` of client `c`.
fn texture(alloc: Global, c: u32, t: u32) -> Result<Texture, OutOfMemory>
    requires client { IsWithin 1 32 c }
    requires texture { IsWithin 1 3 t }
    ensures { IfOk result (λ made. made ≡ texture c t) }
{
    let shape = TexShape {
        format: TexFormat::L8,
        width: TEXTURE_SIDE,
        height: TEXTURE_SIDE,
    };
    let bytes = greys(alloc, c, t)?;
    Ok(Texture {
        number: t,
        shape,
        bytes,
    })
}

/// The textures of client `c`.
fn textures(alloc: Global, c: u32) -> Result<Textures, OutOfMemory>
    requires { IsWithin 1 32 c }
    ensures { IfOk result (λ textures. textures ≡ map (texture c) (from_one 3)) }
{
    let mut textures = Sequence::new(alloc);
    for k in 0..TEXTURES {
        textures.push(texture(alloc, c, k + 1)?)?;
    }
    Ok(textures)
}

/// A corner of the far triangle.
fn far(x: i32, y: i32, s: u16, t: u16) -> Vertex
    ensures { result ≡ far x y s t }
{
    Vertex {
        x,
        y,
        z: FAR,
        colour: WHITE,
        s,
        t,
    }
}

/// A corner of the near triangle.
fn near(x: i32, y: i32, s: u16, t: u16) -> Vertex
    ensures { result ≡ near x y s t }
{
    Vertex {
        x,
        y,
        z: NEAR,
        colour: GREEN,
        s,
        t,
    }
}

/// The upper left half of each window.
fn far_triangle() -> Triangle
    ensures { result ≡ far_triangle }
{
    Triangle {
        a: far(0, 0, 0, 0),
        b: far(RIGHT, 0, LAST_TEXEL, 0),
        c: far(0, BOTTOM, 0, LAST_TEXEL),
    }
}

/// The lower right corner of each window, from `f` pixels down.
fn near_triangle(f: u32) -> Triangle
    requires { IsWithin 1 20 f }
    ensures { result ≡ near_triangle f }
{
    Triangle {
        a: near(RIGHT, (16 * f) as i32, 0, 0),
        b: near(RIGHT, BOTTOM, LAST_TEXEL, 0),
        c: near(0, BOTTOM, 0, LAST_TEXEL),
    }
}

/// Puts the commands of frame `f` of client `c` last.
fn push_frame(commands: &mut Commands, c: u32, f: u32) -> Result<(), OutOfMemory>
    requires client { IsWithin 1 32 c }
    requires frame { IsWithin 1 20 f }
    ensures { OnOk result (commands.new ≡ commands.old ++ frame_commands c f) }
{
    let colour = Rgb {
        r: (10 * f) as u8,
        g: (7 * c) as u8,
        b: 0,
    };
    commands.push(Command::Clear {
        colour,
        depth: DEEPEST,
    })?;
    commands.push(Command::Set(Setting::Bind(Some((f - 1) % TEXTURES + 1))))?;
    commands.push(Command::Triangle(far_triangle()))?;
    commands.push(Command::Triangle(near_triangle(f)))?;
    commands.push(Command::Swap)
}

/// What is set before the first frame.
fn first_settings(alloc: Global) -> Result<Commands, OutOfMemory>
    ensures { IfOk result (λ commands. commands ≡ first_settings) }
{
    let mut commands = Sequence::new(alloc);
    commands.push(Command::Set(Setting::DepthFunc(DepthFunc::Less)))?;
    commands.push(Command::Set(Setting::DepthWrite(true)))?;
    commands.push(Command::Set(Setting::TexMode(TexMode::Modulate)))?;
    Ok(commands)
}

/// The commands of client `c`.
fn script_commands(alloc: Global, c: u32) -> Result<Commands, OutOfMemory>
    requires { IsWithin 1 32 c }
    ensures { IfOk result (λ commands. commands ≡ script_commands c) }
{
    let mut commands = first_settings(alloc)?;
    for k in 0..FRAMES {
        push_frame(&mut commands, c, k + 1)?;
    }
    Ok(commands)
}

/// Client `c`.
fn client(alloc: Global, c: u32) -> Result<ClientScript, OutOfMemory>
    requires { IsWithin 1 32 c }
    ensures { IfOk result (λ made. made ≡ client c) }
{
    let textures = textures(alloc, c)?;
    let commands = script_commands(alloc, c)?;
    Ok(ClientScript {
        number: c,
        window: c,
        textures,
        commands,
    })
}

/// The clients, by rising number.
fn clients(alloc: Global, n: u32) -> Result<Clients, OutOfMemory>
    requires { IsWithin 1 32 n }
    ensures { IfOk result (λ clients. clients ≡ map client (from_one n)) }
{
    let mut clients = Sequence::new(alloc);
    for k in 0..n {
        clients.push(client(alloc, k + 1)?)?;
    }
    Ok(clients)
}

/// Change `i`, of a window.
fn change_of(window: u32, i: u32) -> Change
    requires { IsWithin 1 40 i }
    ensures { result ≡ change_of window i }
{
    match i % 4 {
        1 => Change::Raise { window },
        2 => Change::Move {
            window,
            x: (53 * i % PLACES_ACROSS) as i32,
            y: (29 * i % PLACES_DOWN) as i32,
        },
        3 => Change::Lower { window },
        _ => Change::Resize {
            window,
            width: 200 + i,
            height: 150 + i,
        },
    }
}

/// The server's changes, where there are `n` windows.
fn changes(alloc: Global, n: u32) -> Result<Changes, OutOfMemory>
    requires { IsWithin 1 32 n }
    ensures { IfOk result (λ changes. changes ≡ map (change n) (from_one 40)) }
{
    let mut changes = Sequence::new(alloc);
    for k in 0..CHANGES {
        changes.push(change_of(k % n + 1, k + 1))?;
    }
    Ok(changes)
}

/// A scene for load, of `n` clients, 1 to 32: 640 by 480 pixels, a window for each client, which draws twenty frames of two
/// textured triangles on it, and forty changes of the windows. The same `n` gives the same scene. The scene is in range, so
/// it has a text.
pub fn make_scene(alloc: Global, n: u32) -> Result<Scene, OutOfMemory>
    requires { IsWithin 1 32 n }
    ensures scene { IfOk result (λ scene. scene ≡ generator n) }
    ensures range { IfOk result InRange }
{
    let windows = windows(alloc, n)?;
    let clients = clients(alloc, n)?;
    let changes = changes(alloc, n)?;
    Ok(Scene {
        width: SCREEN_WIDTH,
        height: SCREEN_HEIGHT,
        root: ROOT,
        regions: REGIONS,
        region_size: REGION_SIZE,
        windows,
        clients,
        changes,
        turns: Items::new(alloc),
    })
}
