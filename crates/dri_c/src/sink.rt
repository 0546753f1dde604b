//! A sink that gathers what is written until it is known whether a caller's buffer has room for all of it.

ghost use Rattle.std.specs.Prelude.{◌≡◌, ◌↔◌, [], Some, IsTrue};

use dri_base::Bytes;
use dri_io::{Failed, Sink};
use std::alloc::Global;
use std::marker::Model;

/// A sink that takes each piece whole. It fails only where a growth of memory is refused.
#[derive(Drop)]
pub struct Gathered {
    bytes: Vec<u8>,
    faults: u64,
}

impl Model for Gathered {
    ghost use Rattle.dri_c.specs.Gathering.{Gathering};

    ghost Value = { Gathering };

    ghost view = { λ s. record { held = s.bytes.items; faults = s.faults } };
}

impl Gathered {
    /// A sink that holds nothing and hasn't failed. It takes no memory; what is written later is taken from `alloc`.
    pub fn new(alloc: Global) -> Gathered
        ensures { result ≡ record { held = []; faults = 0 } }
    {
        Gathered {
            bytes: Vec::new(alloc),
            faults: 0,
        }
    }

    /// Whether no write has failed.
    pub fn is_whole(&self) -> bool
        ensures { IsTrue result ↔ (self.now.faults ≡ 0) }
    {
        self.faults == 0
    }

    /// All that it took.
    pub fn into_bytes(self) -> Bytes
        ensures { result ≡ self.held }
    {
        Bytes::from_vec(self.bytes)
    }
}

impl Sink for Gathered {
    ghost held = { λ s. Some s.held };

    ghost faults = { λ s. s.faults };

    ghost takes = { λ _ n. ⊥ };

    fn write(&mut self, bytes: &[u8]) -> Result<usize, Failed> {
        if self.bytes.extend_from_slice(bytes).is_err() {
            self.faults = self.faults.saturating_add(1);
            return Err(Failed);
        }
        Ok(bytes.len())
    }
}
