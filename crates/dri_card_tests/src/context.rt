//! Dirty groups, their words, and words that go wrong.

use dri_base::{
    BadWord, Blend, BoundTexture, ClipRect, DepthFunc, Registers, Setting, Shade, State, TexFormat,
    TexMode, TexShape, Wrap,
};
use dri_context::{ContextState, Groups, TakeWords};

/// The registers of the state that every script begins with.
fn opening() -> Registers {
    Registers {
        shade: Shade::Flat,
        depth_func: DepthFunc::Always,
        depth_write: false,
        blend: Blend::Off,
        tex_mode: TexMode::Off,
        wrap: Wrap::Repeat,
        bound: None,
        scissor: None,
    }
}

const BOUND: BoundTexture = BoundTexture {
    shape: TexShape {
        format: TexFormat::Rgb565,
        width: 4,
        height: 256,
    },
    base: 512,
};

#[test]
fn dirty_groups(rt: HostRuntime) {
    let mut context = ContextState::new();
    assert!(rt; context.take_dirty().bits() == 127);
    assert!(rt; context.dirty().is_empty());
    context.set(&Setting::Wrap(Wrap::Repeat));
    assert!(rt; context.dirty().bits() == 0);
    context.set(&Setting::DepthWrite(true));
    context.set(&Setting::Wrap(Wrap::Clamp));
    context.dirty_bound();
    assert!(rt; context.dirty().bits() == 2 + 16 + 32);
    assert!(rt; context.state().depth_write);
    context.dirty_all();
    assert!(rt; context.dirty().bits() == Groups::all().bits());
}

#[test]
fn words(rt: HostRuntime) {
    let mut context = ContextState::new();
    let rect = ClipRect {
        x1: 1,
        y1: 2,
        x2: 3,
        y2: 2048,
    };
    context.set(&Setting::Scissor(Some(rect)));
    let emitted = context.emit_words(Groups::all(), Some(BOUND));
    assert!(rt; emitted.words().len() == 19);
    let mut registers = opening();
    assert!(rt; registers.apply(emitted.words()) == Ok(()));
    assert!(rt; registers.bound.map(|bound| bound.base) == Some(BOUND.base));
    assert!(rt; registers.scissor == Some(rect));
    assert!(rt; registers.apply(&[]) == Ok(()));
}

/// Words, and the one of them that is wrong, with its place.
const WRONG: [(&[u32], u32, u32); 7] = [
    (&[0x5200_0001, 7], 2, 0),
    (&[0x5200_0001, 8, 0], 1, 8),
    (&[0x5200_0004, 1, 0x5200_0003, 0], 2, 0x5200_0003),
    (&[0x5200_0007], 0, 0x5200_0007),
    (&[0x5200_0005, 0, 4], 2, 4),
    (&[0x5200_0005, 1, 9, 257], 3, 257),
    (&[0x5200_0006, 1, 2049, 0], 2, 2049),
];

#[test]
fn wrong_words(rt: HostRuntime) {
    for (words, at, word) in &WRONG {
        let mut registers = opening();
        let bad = BadWord {
            at: *at,
            word: *word,
        };
        assert!(rt; registers.apply(words) == Err(bad));
        assert!(rt; registers.scissor.is_none());
    }
}
