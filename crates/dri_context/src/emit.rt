//! The words that tell the card some groups of a state, in fixed memory.

ghost use Rattle.std.specs.Prelude.{◌≡◌, ◌≤◌, ◌+◌, ◌++◌, [], ◌∷◌, length};
ghost use Rattle.dri_model.specs.Words.{emitted_words, group_words, IsBoundInRange};

use crate::groups::Groups;
use crate::values::{
    HEADER, MOST_WORDS, blend_word, bound_words, depth_word, flag_word, mode_word, scissor_words,
    shade_word, wrap_word,
};
use dri_base::{BoundTexture, State};
use std::marker::Model;

/// Register words, at most 19. Contracts see the list of the words.
#[derive(Drop)]
pub struct EmitWords {
    words: [u32; MOST_WORDS],
    len: usize,
}

impl Model for EmitWords {
    ghost use Rattle.std.specs.Prelude.{ℕ, ◌≤◌, List, take};

    ghost Value = { List ℕ };

    ghost view = { λ e. take e.len e.words };

    ghost invariant = { λ e. e.len ≤ 19 };
}

impl EmitWords {
    fn new() -> EmitWords
        ensures { result ≡ [] }
    {
        EmitWords {
            words: [0; MOST_WORDS],
            len: 0,
        }
    }

    /// The words, in order.
    pub fn words(&self) -> &[u32]
        ensures { result.now ≡ self.now }
    {
        &self.words[..self.len]
    }

    // Puts a word last.
    fn push(&mut self, word: u32)
        requires { length self.old + 1 ≤ 19 }
        ensures { self.new ≡ self.old ++ word ∷ [] }
    {
        self.words[self.len] = word;
        self.len += 1;
    }

    // Puts a group's header and its words last, where the group is named.
    fn group(&mut self, named: bool, number: u32, values: &[u32])
        requires number { number ≤ 6 }
        requires room { length self.old + (length values.now + 1) ≤ 19 }
        ensures words { self.new ≡ self.old ++ group_words named number values.now }
        ensures len { length self.new ≤ length self.old + (length values.now + 1) }
    {
        if !named {
            return;
        }
        self.push(HEADER + number);
        for value in values {
            self.push(*value);
        }
    }
}

/// The words of these groups of a state.
pub fn emit(state: &State, groups: Groups, bound: Option<BoundTexture>) -> EmitWords
    requires { IsBoundInRange bound }
    ensures words { result ≡ emitted_words groups state.now bound }
    ensures most { length result ≤ 19 }
{
    let mut words = EmitWords::new();
    words.group(groups.shade, 0, &[shade_word(state.shade)]);
    words.group(
        groups.depth,
        1,
        &[depth_word(state.depth_func), flag_word(state.depth_write)],
    );
    words.group(groups.blend, 2, &[blend_word(state.blend)]);
    words.group(groups.mode, 3, &[mode_word(state.tex_mode)]);
    words.group(groups.wrap, 4, &[wrap_word(state.wrap)]);
    words.group(groups.bound, 5, &bound_words(bound));
    words.group(groups.scissor, 6, &scissor_words(state.scissor));
    words
}
