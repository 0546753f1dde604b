//! The card's registers take register words: all of them, or, where one is wrong, none.

ghost use Rattle.std.specs.Prelude.{◌≡◌, OnOk, OnErr, IfErr, IsOk};
ghost use Rattle.dri_model.specs.Words.{Spelled, loaded};
ghost use Rattle.dri_model.specs.WordFaults.{IsBadWord};

use crate::reader::Reader;
use dri_base::{BadWord, Registers};

/// What takes register words.
pub trait TakeWords {
    /// Sets the groups that the words spell, exactly where they spell some. Otherwise nothing changes.
    fn apply(&mut self, words: &[u32]) -> Result<(), BadWord>;
}

impl TakeWords for Registers {
    fn apply(&mut self, words: &[u32]) -> Result<(), BadWord>
        ensures ok { OnOk result ((s : Spelled words.now) × (self.new ≡ loaded s.groups s.registers self.old)) }
        ensures spelled { (s : Spelled words.now) → IsOk result × (self.new ≡ loaded s.groups s.registers self.old) }
        ensures bad { IfErr result (λ e. IsBadWord Spelled words.now e.at e.word) }
        ensures kept { OnErr result (self.new ≡ self.old) }
    {
        let mut reader = Reader::new(*self);
        for (at, word) in words.iter().enumerate() {
            match reader.after(*word) {
                Some(next) => reader = next,
                None => {
                    return Err(BadWord {
                        at: at as u32,
                        word: *word,
                    });
                }
            }
        }
        if reader.at != 0 {
            return Err(BadWord {
                at: words.len() as u32,
                word: 0,
            });
        }
        *self = reader.registers;
        Ok(())
    }
}
