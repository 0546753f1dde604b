use dri_base::{BadWord, ClipRect};

/// What isn't on the card: a rectangle with a side before the one across from it or beyond the screen, or bytes whose end
/// is beyond the texture memory's, with the first of them and how many they are.
#[derive(Clone, Copy, PartialEq, Eq)]
pub enum OutsideCard {
    Clip { rect: ClipRect },
    Base { base: u32, len: u32 },
}

/// Command words that the card doesn't take.
#[derive(Clone, Copy, PartialEq, Eq)]
pub enum DispatchFault {
    BadWord(BadWord),
}

/// Register words that the card doesn't take: they spell no registers, or the image that they bind isn't in the texture
/// memory.
#[derive(Clone, Copy, PartialEq, Eq)]
pub enum LoadFault {
    BadWord(BadWord),
    Outside(OutsideCard),
}

impl From<BadWord> for DispatchFault {
    ghost use Rattle.std.specs.Prelude.{◌≡◌};
    ghost use Rattle.dri_card.specs.declared.faults.DispatchFault.TheVariants as faults;

    ghost from_gives = { λ bad fault. fault ≡ faults.BadWord bad };

    fn from(bad: BadWord) -> DispatchFault {
        DispatchFault::BadWord(bad)
    }
}

impl From<BadWord> for LoadFault {
    ghost use Rattle.std.specs.Prelude.{◌≡◌};
    ghost use Rattle.dri_card.specs.declared.faults.LoadFault.TheVariants as faults;

    ghost from_gives = { λ bad fault. fault ≡ faults.BadWord bad };

    fn from(bad: BadWord) -> LoadFault {
        LoadFault::BadWord(bad)
    }
}

impl From<OutsideCard> for LoadFault {
    ghost use Rattle.std.specs.Prelude.{◌≡◌};
    ghost use Rattle.dri_card.specs.declared.faults.LoadFault.TheVariants as faults;

    ghost from_gives = { λ outside fault. fault ≡ faults.Outside outside };

    fn from(outside: OutsideCard) -> LoadFault {
        LoadFault::Outside(outside)
    }
}
