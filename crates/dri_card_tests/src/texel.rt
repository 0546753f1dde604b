//! The pixel rule and the texels, worked by hand.

use dri_base::{Blend, DepthFunc, Pixel, Rgb, Rgba, TexFormat, TexMode, TexShape, Wrap};
use dri_texel::{RegisterView, fetch, fragment, pixel_rule};
use std::process::Abort;

/// Every depth is drawn and written, with no texture and no blending.
const PLAIN: RegisterView = RegisterView {
    depth_func: DepthFunc::Always,
    depth_write: true,
    blend: Blend::Off,
    tex_mode: TexMode::Off,
};

/// What lies under the pixel.
const UNDER: Pixel = Pixel {
    colour: Rgb {
        r: 128,
        g: 128,
        b: 0,
    },
    depth: 500,
};

const COLOUR: Rgba = Rgba {
    r: 255,
    g: 128,
    b: 0,
    a: 128,
};

const TEXEL: Rgb = Rgb {
    r: 10,
    g: 128,
    b: 255,
};

/// A byte of grey, then two by two texels of sixteen bits: the reddest, the least green, the least blue, and white.
const MEMORY: [u8; 9] = [9, 0x00, 0xf8, 0x20, 0x00, 0x01, 0x00, 0xff, 0xff];

fn rgb(r: u8, g: u8, b: u8) -> Rgb {
    Rgb { r, g, b }
}

/// Under a depth function, draws below, at and above the depth under it, without writing the depth.
fn draw_round_the_depth(rt: &impl Abort, depth_func: DepthFunc, drawn: [bool; 3]) {
    let registers = RegisterView {
        depth_func,
        depth_write: false,
        ..PLAIN
    };
    for (z, is_drawn) in [499, 500, 501].into_iter().zip(drawn) {
        let left = fragment(&registers, None, COLOUR, z, UNDER);
        let colour = if is_drawn {
            rgb(255, 128, 0)
        } else {
            UNDER.colour
        };
        assert!(rt; left == Pixel { colour, depth: 500 });
    }
}

/// Each depth function, and whether it draws below, at and above the depth under the pixel.
const DRAWN: [(DepthFunc, [bool; 3]); 8] = [
    (DepthFunc::Never, [false, false, false]),
    (DepthFunc::Less, [true, false, false]),
    (DepthFunc::Equal, [false, true, false]),
    (DepthFunc::LessEqual, [true, true, false]),
    (DepthFunc::Greater, [false, false, true]),
    (DepthFunc::NotEqual, [true, false, true]),
    (DepthFunc::GreaterEqual, [false, true, true]),
    (DepthFunc::Always, [true, true, true]),
];

#[test]
fn depths(rt: HostRuntime) {
    for (depth_func, drawn) in &DRAWN {
        draw_round_the_depth(&rt, *depth_func, *drawn);
    }
    assert!(rt; fragment(&PLAIN, None, COLOUR, 7, UNDER).depth == 7);
    pixel_rule();
}

/// A mode and its texel, a blending, and the red, the green and the blue that they leave.
const COLOURS: [(TexMode, Option<Rgb>, Blend, [u8; 3]); 8] = [
    (TexMode::Off, None, Blend::Off, [255, 128, 0]),
    (TexMode::Off, None, Blend::Alpha, [192, 128, 0]),
    (TexMode::Off, None, Blend::Add, [255, 255, 0]),
    (TexMode::Replace, Some(TEXEL), Blend::Off, [10, 128, 255]),
    (TexMode::Replace, None, Blend::Off, [255, 128, 0]),
    (TexMode::Replace, Some(TEXEL), Blend::Alpha, [69, 128, 128]),
    (TexMode::Modulate, Some(TEXEL), Blend::Off, [10, 64, 0]),
    (TexMode::Modulate, Some(TEXEL), Blend::Add, [138, 192, 0]),
];

#[test]
fn colours(rt: HostRuntime) {
    for (tex_mode, texel, blend, [r, g, b]) in &COLOURS {
        let registers = RegisterView {
            blend: *blend,
            tex_mode: *tex_mode,
            ..PLAIN
        };
        let left = fragment(&registers, *texel, COLOUR, 500, UNDER);
        assert!(rt; left.colour == rgb(*r, *g, *b));
    }
}

const GREY: TexShape = TexShape {
    format: TexFormat::L8,
    width: 1,
    height: 1,
};

const COLOURED: TexShape = TexShape {
    format: TexFormat::Rgb565,
    width: 2,
    height: 2,
};

/// How the coloured texture goes on, a place in it, and the colour there.
const TEXELS: [(Wrap, u32, u32, [u8; 3]); 7] = [
    (Wrap::Repeat, 15, 15, [255, 0, 0]),
    (Wrap::Repeat, 16, 0, [0, 4, 0]),
    (Wrap::Repeat, 0, 16, [0, 0, 8]),
    (Wrap::Repeat, 31, 31, [255, 255, 255]),
    (Wrap::Repeat, 32, 0, [255, 0, 0]),
    (Wrap::Clamp, 32, 0, [0, 4, 0]),
    (Wrap::Clamp, 0, 65535, [0, 0, 8]),
];

#[test]
fn texels(rt: HostRuntime) {
    assert!(rt; fetch(&MEMORY, 0, &GREY, Wrap::Repeat, 5, 99) == rgb(9, 9, 9));
    for (wrap, s, t, [r, g, b]) in &TEXELS {
        assert!(rt; fetch(&MEMORY, 1, &COLOURED, *wrap, *s, *t) == rgb(*r, *g, *b));
    }
}
