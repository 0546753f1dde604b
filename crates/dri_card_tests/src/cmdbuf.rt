//! A buffer that is full, and words that go wrong one after another.

ghost use Rattle.dri_base.specs.Ranges.{IsVertexPlace, TriangleInRange, VertexInRange};

use dri_base::{BadWord, Rgba, Triangle, Vertex};
use dri_cmdbuf::{Buffer, BufferFull, decode};

/// A vertex whose quantities are all different.
fn vertex(x: i32, y: i32) -> Vertex
    requires x { IsVertexPlace x }
    requires y { IsVertexPlace y }
    ensures { VertexInRange result }
{
    Vertex {
        x,
        y,
        z: 40_000,
        colour: Rgba {
            r: 1,
            g: 2,
            b: 3,
            a: 255,
        },
        s: 9,
        t: 65_535,
    }
}

/// A triangle with negative coordinates.
fn triangle() -> Triangle
    ensures { TriangleInRange result }
{
    Triangle {
        a: vertex(-32_768, -1),
        b: vertex(32_767, 0),
        c: vertex(16, -16),
    }
}

#[test]
fn fills_and_reads_back(rt: HostRuntime) {
    let mut buffer = Buffer::new();
    let full = Err(BufferFull { need: 13, have: 1 });
    for _ in 0..315 {
        assert!(rt; buffer.push_triangle(&triangle()).is_ok());
    }
    assert!(rt; buffer.words().len() == 4095);
    assert!(rt; buffer.push_triangle(&triangle()) == full);
    assert!(rt; buffer.push_word(7).is_ok());
    assert!(rt; buffer.push_word(7) == Err(BufferFull { need: 1, have: 0 }));
    buffer.clear();
    assert!(rt; buffer.push_triangle(&triangle()).is_ok());
    match decode(buffer.words()) {
        Ok(read) => {
            assert!(rt; read.len() == 1);
            assert!(rt; read.triangle(0) == triangle());
        }
        Err(_) => assert!(rt; false),
    }
}

#[test]
fn goes_wrong(rt: HostRuntime) {
    assert!(rt; decode(&[0x5400_0003]).err() == Some(BadWord { at: 1, word: 0 }));
    let mut buffer = Buffer::new();
    assert!(rt; buffer.push_triangle(&triangle()).is_ok());
    assert!(rt; buffer.push_triangle(&triangle()).is_ok());
    assert!(rt; buffer.words().len() == 26);
    for place in 0..26 {
        let mut words = [0_u32; 26];
        words.copy_from_slice(buffer.words());
        words[place] = 0xffff_ffff;
        let bad = [0, 2, 6, 10, 13, 15, 19, 23].contains(&place);
        let fault = BadWord {
            at: place as u32,
            word: 0xffff_ffff,
        };
        assert!(rt; decode(&words).err() == bad.then_some(fault));
    }
}
