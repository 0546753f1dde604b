//! A caller's bytes as a source, read where they lie.

ghost use Rattle.std.specs.Prelude.{◌≡◌, ◌≤◌, Some, length};
ghost use Rattle.std.specs.Io.{ReadsAtMost};
ghost use Rattle.std.specs.Io.KnownBytes.{ReadConsumes};
ghost use Rattle.dri_io.specs.Causes.{GivesOn, HasCause};

use dri_io::{Failed, Source};
use std::marker::Model;

/// A source of a caller's bytes that never fails. Contracts see it as the bytes that are left.
#[derive(Drop)]
pub struct BytesSource<'a> {
    rest: &'a [u8],
}

impl<'a> Model for BytesSource<'a> {
    ghost use Rattle.std.specs.Prelude.{List, ℕ};

    ghost Value = { List ℕ };

    ghost view = { λ s. s.rest.now };
}

impl<'a> BytesSource<'a> {
    /// A source of these bytes.
    pub fn new(bytes: &'a [u8]) -> BytesSource<'a>
        ensures { result ≡ bytes.now }
    {
        BytesSource { rest: bytes }
    }
}

impl<'a> Source for BytesSource<'a> {
    ghost left = { λ s. Some s };

    ghost faults = { λ _. 0 };

    ghost gives_all = { λ _. Unit {0} };

    fn read(&mut self, into: &mut [u8]) -> Result<usize, Failed> {
        let count = into.len().min(self.rest.len());
        let (given, rest) = self.rest.split_at(count);
        into[..count].copy_from_slice(given);
        self.rest = rest;
        Ok(count)
    }
}
