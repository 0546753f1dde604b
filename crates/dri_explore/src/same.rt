//! Whether two lists are one.

ghost use Rattle.std.specs.Prelude.{◌≡◌};
ghost use Rattle.std.specs.Bool.{Decides};

use dri_base::{Entry, Rgb};

/// Whether the numbers are the same.
pub(crate) fn are_numbers(a: &[u32], b: &[u32]) -> bool
    ensures { Decides result (a.now ≡ b.now) }
{
    a == b
}

/// Whether the flags are the same.
pub(crate) fn are_flags(a: &[bool], b: &[bool]) -> bool
    ensures { Decides result (a.now ≡ b.now) }
{
    a == b
}

/// Whether the entries are the same.
pub(crate) fn are_entries(a: &[Entry], b: &[Entry]) -> bool
    ensures { Decides result (a.now ≡ b.now) }
{
    a == b
}

/// Whether the pixels are the same.
pub(crate) fn are_pixels(a: &[Rgb], b: &[Rgb]) -> bool
    ensures { Decides result (a.now ≡ b.now) }
{
    a == b
}
