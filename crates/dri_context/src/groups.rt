//! Sets of the seven groups of registers: a flag for each group, which contracts see as the set.

ghost use Rattle.std.specs.Prelude.{◌≡◌, true};
ghost use Rattle.dri_model.specs.Groups.{all_groups, no_groups, bits, is_empty, with_bound};

use std::marker::Model;

/// A set of the seven groups: shade, depth, blend, texture mode, wrap, bound texture, scissor.
#[derive(Clone, Copy)]
pub struct Groups {
    pub(crate) shade: bool,
    pub(crate) depth: bool,
    pub(crate) blend: bool,
    pub(crate) mode: bool,
    pub(crate) wrap: bool,
    pub(crate) bound: bool,
    pub(crate) scissor: bool,
}

impl Model for Groups {
    ghost use Rattle.dri_model.specs.Groups.{Groups};

    ghost Value = { Groups };

    ghost view = { λ g. record { shade = g.shade; depth = g.depth; blend = g.blend; mode = g.mode; wrap = g.wrap; bound = g.bound; scissor = g.scissor } };

    ghost inverse = { λ g. record { shade = g.shade; depth = g.depth; blend = g.blend; mode = g.mode; wrap = g.wrap; bound = g.bound; scissor = g.scissor } };
}

impl Groups {
    /// The empty set.
    pub fn none() -> Groups
        ensures { result ≡ no_groups }
    {
        Groups {
            shade: false,
            depth: false,
            blend: false,
            mode: false,
            wrap: false,
            bound: false,
            scissor: false,
        }
    }

    /// The set of all seven.
    pub fn all() -> Groups
        ensures { result ≡ all_groups }
    {
        Groups {
            shade: true,
            depth: true,
            blend: true,
            mode: true,
            wrap: true,
            bound: true,
            scissor: true,
        }
    }

    /// The number of the set, as journals write it: a bit for each group, from 1 for shade to 64 for scissor.
    pub fn bits(&self) -> u8
        ensures { result ≡ bits self.now }
    {
        u8::from(self.shade)
            + (2 * u8::from(self.depth)
                + (4 * u8::from(self.blend)
                    + (8 * u8::from(self.mode)
                        + (16 * u8::from(self.wrap)
                            + (32 * u8::from(self.bound) + 64 * u8::from(self.scissor))))))
    }

    /// Whether no group is in the set.
    pub fn is_empty(&self) -> bool
        ensures { result ≡ is_empty self.now }
    {
        !self.shade
            && (!self.depth
                && (!self.blend && (!self.mode && (!self.wrap && (!self.bound && !self.scissor)))))
    }

    // The set with the bound texture's group.
    pub(crate) fn with_bound(&self) -> Groups
        ensures { result ≡ with_bound true self.now }
    {
        Groups {
            bound: true,
            ..*self
        }
    }
}
