//! Words are read back as triangles. They are tested one by one, each at its place among a triangle's thirteen words,
//! and a triangle is made of its words when it is asked for.

ghost use Rattle.std.specs.Prelude.{◌≡◌, ◌<◌, ◌≤◌, ◌+◌, ◌*◌, ◌/◌, ◌%◌, ℕ, length, slice_get, slice_index, List, Some, IfOk, IfErr, All};
ghost use Rattle.dri_base.specs.declared.shape.Triangle.{Triangle};
ghost use Rattle.dri_model.specs.CommandWords.{Buffer as IsBuffer, buffer_words, IsTriangle};
ghost use Rattle.dri_model.specs.WordFaults.{IsBadWord};
ghost use Rattle.dri_cmdbuf.specs.Decoding.{is_good, coordinate_of, colour_of, vertex_of, triangle_of, triangles_of, IsWhole};

use crate::spelling::{HEADER, WORDS};
use dri_base::{BadWord, Rgba, Triangle, Vertex};
use std::marker::Model;

/// The triangles of some command words. Contracts see the list of the triangles.
#[derive(Drop)]
pub struct Decoded<'a> {
    words: &'a [u32],
}

impl<'a> Model for Decoded<'a> {
    ghost use Rattle.std.specs.Prelude.{List, ◌≤◌, length};
    ghost use Rattle.dri_base.specs.declared.shape.Triangle.{Triangle};
    ghost use Rattle.dri_cmdbuf.specs.Decoding.{triangles_of, IsWhole};

    ghost Value = { List Triangle };

    ghost view = { λ d. triangles_of d.words.now };

    ghost invariant = { λ d. IsWhole d.words.now × (length d.words.now ≤ 4096) };
}

// Whether a word can stand at that place of a triangle's thirteen.
fn can_stand(place: usize, word: u32) -> bool
    ensures { result ≡ is_good place word }
{
    match place {
        0 => word == HEADER,
        2 | 6 | 10 => word <= 65_535,
        _ => true,
    }
}

/// The triangles that the words spell. `BadWord` comes exactly where no triangles are spelled so. There are at most
/// 4,096 words.
pub fn decode(words: &[u32]) -> Result<Decoded<'_>, BadWord>
    requires { length words.now ≤ 4096 }
    ensures triangles { IfOk result (λ d. All IsTriangle d × (words.now ≡ buffer_words d)) }
    ensures read { (triangles : List Triangle) → All IsTriangle triangles → words.now ≡ buffer_words triangles → result ≡ Ok triangles }
    ensures bad { IfErr result (λ e. IsBadWord IsBuffer words.now e.at e.word) }
{
    for (at, word) in words.iter().enumerate() {
        if !can_stand(at % WORDS, *word) {
            return Err(BadWord {
                at: at as u32,
                word: *word,
            });
        }
    }
    if words.len() % WORDS != 0 {
        return Err(BadWord {
            at: words.len() as u32,
            word: 0,
        });
    }
    Ok(Decoded { words })
}

fn coordinate(half: u32) -> i32
    requires { half ≤ 65535 }
    ensures { result ≡ coordinate_of half }
{
    if half < 32_768 {
        half as i32
    } else {
        half as i32 - 65_536
    }
}

fn colour(word: u32) -> Rgba
    ensures { result ≡ colour_of word }
{
    Rgba {
        r: (word % 256) as u8,
        g: (word / 256 % 256) as u8,
        b: (word / 65_536 % 256) as u8,
        a: (word / 16_777_216) as u8,
    }
}

// The vertex whose four words begin at place i.
fn vertex(words: &[u32], i: usize) -> Vertex
    requires four { i + 4 ≤ length words.now }
    requires depth { slice_index words.now (i + 1) ≤ 65535 }
    ensures { result ≡ vertex_of words.now i }
{
    Vertex {
        x: coordinate(words[i] % 65_536),
        y: coordinate(words[i] / 65_536),
        z: words[i + 1] as u16,
        colour: colour(words[i + 2]),
        s: (words[i + 3] % 65_536) as u16,
        t: (words[i + 3] / 65_536) as u16,
    }
}

// Triangle i, counted from 0.
fn triangle(words: &[u32], i: usize) -> Triangle
    requires whole { IsWhole words.now }
    requires there { i < length words.now / 13 }
    ensures { result ≡ triangle_of words.now i }
{
    let first = i * WORDS;
    Triangle {
        a: vertex(words, first + 1),
        b: vertex(words, first + 5),
        c: vertex(words, first + 9),
    }
}

impl<'a> Decoded<'a> {
    /// How many triangles there are.
    pub fn len(&self) -> u32
        ensures { result ≡ length self.now }
    {
        (self.words.len() / WORDS) as u32
    }

    /// The triangle at a place below the length, counted from 0.
    pub fn triangle(&self, i: u32) -> Triangle
        requires { i < length self.now }
        ensures { slice_get self.now i ≡ Some result }
    {
        triangle(self.words, i as usize)
    }
}
