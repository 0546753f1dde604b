//! A scene in range and one that isn't, and the lists. Each range has a refused text in `tests/program`.

ghost use Rattle.std.specs.Prelude.{◌≡◌};

use dri_base::{
    Changes, Clients, Items, Numbers, Rgb, Scene, State, Steps, Windows, quantity_is_floor,
};
use std::alloc::Global;
use std::marker::Brand;
use std::process::Abort;
use std::sync::ledger::{Blank, Ledger};
use std::test::Fail;

/// A screen of one row with nothing on it.
fn screen(alloc: Global, width: u32) -> Scene {
    Scene {
        width,
        height: 1,
        root: Rgb { r: 0, g: 0, b: 0 },
        regions: 1,
        region_size: 256,
        windows: Windows::new(alloc),
        clients: Clients::new(alloc),
        changes: Changes::new(alloc),
        turns: Items::new(alloc),
    }
}

/// Widths of a screen, and whether they are in range.
const WIDTHS: [(u32, bool); 4] = [(0, false), (1, true), (1024, true), (1025, false)];

#[test]
fn ranges(rt: HostRuntime) {
    for (width, is_in_range) in &WIDTHS {
        assert!(rt; screen(rt.alloc(), *width).in_range() == *is_in_range);
    }
}

/// Whether the last number of a list is this one.
fn ends_with(numbers: &Numbers, last: u32) -> bool {
    !numbers.is_empty() && *numbers.get(numbers.len() - 1) == last
}

#[test]
fn lists(rt: HostRuntime) -> Result<(), Fail> {
    let mut numbers = Numbers::new(rt.alloc());
    numbers.push(7)?;
    numbers.push(9)?;
    let same = Numbers::from_vec([7, 9].to_vec(rt.alloc())?);
    assert!(rt; same.as_slice() == numbers.as_slice() && ends_with(&numbers, 9));
    Ok(())
}

#[test]
fn opening(rt: HostRuntime) {
    assert!(rt; State::initial().bound.is_none());
    quantity_is_floor();
}

/// Two steps of a counter.
fn take_two_steps<L: Ledger>(blank: Blank)
    requires name { blank.name ≡ L.name }
    requires parts { blank.parts ≡ L.parts }
    requires one { L.parts ≡ 1 }
{
    let mut steps = Steps::<L>::new(blank);
    steps.tick();
    steps.tick();
}

#[test]
fn steps() {
    take_two_steps::<Brand>(Blank::new(1));
}
