//! A buffer of command words in fixed memory: a vector of fixed capacity, which contracts see as the list of its words.

ghost use Rattle.std.specs.Prelude.{◌≡◌, ◌<◌, ◌≤◌, ◌+◌, ◌++◌, [], ◌∷◌, length, OnOk, IfErr, IsOk, ◌↔◌};
ghost use Rattle.dri_base.specs.Ranges.{TriangleInRange};
ghost use Rattle.dri_model.specs.CommandWords.{triangle_words, IsTriangle};
ghost use Rattle.dri_cmdbuf.specs.Rooms.{IsRefused};

use crate::spelling::{self, WORDS};
use arrayvec::ArrayVec;
use dri_base::Triangle;
use std::marker::Model;

/// A push had no room: it needs more words than are free of the buffer's 4,096.
#[derive(Clone, Copy, PartialEq, Eq)]
pub struct BufferFull {
    pub need: u32,
    pub have: u32,
}

/// Command words, at most 4,096. Contracts see the list of the words.
#[derive(Drop)]
pub struct Buffer {
    words: ArrayVec<u32, 4096>,
}

impl Model for Buffer {
    ghost use Rattle.std.specs.Prelude.{ℕ, List};

    ghost Value = { List ℕ };

    ghost view = { λ b. b.words.items };
}

impl Buffer {
    /// The empty buffer.
    pub fn new() -> Buffer
        ensures { result ≡ [] }
    {
        Buffer {
            words: ArrayVec::new(),
        }
    }

    /// The words, in order.
    pub fn words(&self) -> &[u32]
        ensures value { result.now ≡ self.now }
        ensures most { length self.now ≤ 4096 }
    {
        self.words.as_slice()
    }

    /// Empties the buffer.
    pub fn clear(&mut self)
        ensures { self.new ≡ [] }
    {
        self.words.clear();
    }

    // Where fewer words are free than are needed.
    fn room_for(&self, need: u32) -> Result<(), BufferFull>
        ensures room { IsOk result ↔ (length self.now + need ≤ 4096) }
        ensures full { IfErr result (IsRefused self.now need) }
    {
        let have = self.words.remaining_capacity() as u32;
        if have < need {
            return Err(BufferFull { need, have });
        }
        Ok(())
    }

    /// Puts a word last, exactly where one is free. Otherwise the buffer is as it was.
    pub fn push_word(&mut self, word: u32) -> Result<(), BufferFull>
        ensures room { IsOk result ↔ (length self.old + 1 ≤ 4096) }
        ensures ok { OnOk result (self.new ≡ self.old ++ word ∷ []) }
        ensures full { IfErr result (λ e. IsRefused self.old 1 e × (self.new ≡ self.old)) }
    {
        self.room_for(1)?;
        self.words.push(word);
        Ok(())
    }

    /// Puts a triangle's thirteen words last, exactly where as many are free. Otherwise the buffer is as it was. The
    /// coordinates are -32,768 to 32,767.
    pub fn push_triangle(&mut self, triangle: &Triangle) -> Result<(), BufferFull>
        requires { TriangleInRange triangle.now }
        ensures room { IsOk result ↔ (length self.old + 13 ≤ 4096) }
        ensures ok { OnOk result (self.new ≡ self.old ++ triangle_words triangle.now) }
        ensures held { OnOk result (IsTriangle triangle.now) }
        ensures full { IfErr result (λ e. IsRefused self.old 13 e × (self.new ≡ self.old)) }
    {
        self.room_for(WORDS as u32)?;
        let words = spelling::triangle(triangle);
        self.words.try_extend_from_slice(words.as_slice()).unwrap();
        Ok(())
    }
}
