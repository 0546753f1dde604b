//! Each call once, and a move whose old and new places overlap.

ghost use Rattle.std.specs.Prelude.{◌≡◌};

use dri_base::{ClipRect, Steps};
use dri_plane::{Lifted, Plane};
use std::alloc::Global;
use std::marker::Brand;
use std::process::Abort;
use std::sync::ledger::{Blank, Ledger};
use std::test::Fail;

fn call_each<L: Ledger, R: Abort>(rt: &R, alloc: Global, blank: Blank) -> Result<(), Fail>
    requires name { blank.name ≡ L.name }
    requires parts { blank.parts ≡ L.parts }
    requires one { L.parts ≡ 1 }
{
    let mut steps = Steps::<L>::new(blank);
    let mut plane = Plane::new(alloc, 3, 1, 1_u8)?;
    plane.put(1, 0, 2, &mut steps);
    plane.put(2, 0, 3, &mut steps);
    let saved = Plane::new(alloc, 3, 1, 9_u8)?;
    let left = ClipRect {
        x1: 0,
        y1: 0,
        x2: 2,
        y2: 1,
    };
    plane.move_within(alloc, &[left], 1, 0, &mut steps)?;
    assert!(rt; plane.pixels() == [1, 1, 2].as_slice() && plane.get(2, 0, &mut steps) == 2);
    plane.fill(&left, 7, &mut steps);
    plane.copy_from(&saved, &left, &mut steps);
    assert!(rt; plane.pixels() == [9, 9, 2].as_slice());
    let mut lifted = Lifted::new(alloc, 2)?;
    plane.read_out(&[left], &mut lifted, &mut steps);
    plane.fill(&left, 7, &mut steps);
    plane.write_in(&[left], 1, 0, &lifted, &mut steps);
    assert!(rt; plane.pixels() == [7, 9, 9].as_slice());
    assert!(rt; plane.width() == 3 && plane.height() == 1);
    Ok(())
}

#[test]
fn calls(rt: HostRuntime) -> Result<(), Fail> {
    call_each::<Brand, _>(&rt, rt.alloc(), Blank::new(1))
}
