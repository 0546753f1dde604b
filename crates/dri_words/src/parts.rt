//! A text in the parts between the places of one byte: the lines between newlines, the words between spaces. A text in
//! which the byte stands n times has n + 1 parts.

ghost use Rattle.std.specs.Prelude.{◌≡◌, [], ◌∷◌, MatchOption};
ghost use Rattle.dri_words.specs.Parts.{parts_at, is_nil};

use std::marker::Model;

/// The parts of a text round a byte, from the left. Contracts see it as those that are left.
#[derive(Drop)]
pub struct Parts<'a> {
    separator: u8,
    rest: Option<&'a [u8]>,
}

impl<'a> Model for Parts<'a> {
    ghost use Rattle.std.specs.Prelude.{List, ℕ};
    ghost use Rattle.std.specs.Option.{option_copied};
    ghost use Rattle.dri_words.specs.Parts.{parts_left};

    ghost Value = { List (List ℕ) };

    ghost view = { λ p. parts_left p.separator (option_copied p.rest) };
}

impl<'a> Parts<'a> {
    /// The parts of a text, none of them taken yet.
    pub fn new(bytes: &'a [u8], separator: u8) -> Parts<'a>
        ensures { result ≡ parts_at separator bytes.now }
    {
        Parts {
            separator,
            rest: Some(bytes),
        }
    }

    /// Whether no part is left.
    #[tactic(auto, using(crate::proofs::Splits::no_split_is_empty))]
    pub fn is_empty(&self) -> bool
        ensures { result ≡ is_nil self.now }
    {
        match self.rest {
            None => true,
            Some(_) => false,
        }
    }

    /// The next part, and None where no part is left.
    pub fn next(&mut self) -> Option<&'a [u8]>
        ensures { MatchOption result ((self.old ≡ []) × (self.new ≡ [])) (λ part. self.old ≡ part.now ∷ self.new) }
    {
        let bytes = self.rest?;
        match cut(bytes, self.separator) {
            Some((part, rest)) => {
                self.rest = Some(rest);
                Some(part)
            }
            None => {
                self.rest = None;
                Some(bytes)
            }
        }
    }
}

/// What stands before the first separator and after it, if there is one.
fn cut(bytes: &[u8], separator: u8) -> Option<(&[u8], &[u8])>
    ensures { MatchOption result (parts_at separator bytes.now ≡ bytes.now ∷ [])
        (λ x. parts_at separator bytes.now ≡ x.0.now ∷ parts_at separator x.1.now) }
{
    for (i, b) in bytes.iter().enumerate() {
        if *b == separator {
            let (part, _) = bytes.split_at(i);
            let (_, rest) = bytes.split_at(i + 1);
            return Some((part, rest));
        }
    }
    None
}
