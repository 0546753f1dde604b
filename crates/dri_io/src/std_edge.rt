//! The edge to the outside: std's readers and writers as sources and sinks. What the operating system gave and took is
//! trusted, not proved.

ghost use Rattle.std.specs.Prelude.{◌≡◌};

use crate::{Failed, Sink, Source};
use std::io::{Read, Write};

/// A reader of std, with a count of its failures.
#[derive(Drop)]
pub struct StdSource<R> {
    inner: R,
    faults: u64,
}

impl<R: Read> StdSource<R> {
    /// The reader as a source whose count of faults is 0.
    pub fn new(inner: R) -> StdSource<R>
        ensures { ⟦<StdSource<R> as Source>⟧.faults result ≡ 0 }
    {
        StdSource { inner, faults: 0 }
    }
}

impl<R: Read> Source for StdSource<R> {
    ghost left = { λ s. R.remaining s.inner };

    ghost faults = { λ s. s.faults };

    ghost gives_all = { λ _. ⊥ };

    fn read(&mut self, into: &mut [u8]) -> Result<usize, Failed> {
        match self.inner.read(into) {
            Ok(count) => Ok(count),
            Err(_) => {
                self.faults = self.faults.saturating_add(1);
                Err(Failed)
            }
        }
    }
}

/// A writer of std, with a count of its failures. A writer that takes nothing of a piece has failed.
#[derive(Drop)]
pub struct StdSink<W> {
    inner: W,
    faults: u64,
}

impl<W: Write> StdSink<W> {
    /// The writer as a sink whose count of faults is 0.
    pub fn new(inner: W) -> StdSink<W>
        ensures { ⟦<StdSink<W> as Sink>⟧.faults result ≡ 0 }
    {
        StdSink { inner, faults: 0 }
    }
}

impl<W: Write> Sink for StdSink<W> {
    ghost held = { λ s. W.contents s.inner };

    ghost faults = { λ s. s.faults };

    ghost takes = { λ _ n. ⊥ };

    fn write(&mut self, bytes: &[u8]) -> Result<usize, Failed> {
        match self.inner.write(bytes) {
            Ok(0) => {
                self.faults = self.faults.saturating_add(1);
                Err(Failed)
            }
            Ok(count) => Ok(count),
            Err(_) => {
                self.faults = self.faults.saturating_add(1);
                Err(Failed)
            }
        }
    }
}
