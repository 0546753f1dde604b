//! A ring with room for one job hands the next one back. `tests/program` has journals that are replayed through a ring.

ghost use Rattle.std.specs.Prelude.{◌≡◌};

use dri_base::Steps;
use dri_rect::Region;
use dri_ring::{Engine, Job, Stepped};
use dri_scene::read_scene;
use std::alloc::Global;
use std::marker::Brand;
use std::process::Abort;
use std::sync::Arc;
use std::sync::ledger::{Blank, Ledger};
use std::test::Fail;

/// A screen without a window.
const SCENE: &[u8] = b"dri 1\nscreen 2 1 000000\nheap 1 256\ndone\n";

/// Puts two swaps that show nothing into a ring with room for one.
fn puts_two<L: Ledger, R: Abort>(rt: &R, alloc: Global, blank: Blank) -> Result<(), Fail>
    requires name { blank.name ≡ L.name }
    requires parts { blank.parts ≡ L.parts }
    requires one { L.parts ≡ 1 }
{
    let mut steps = Steps::<L>::new(blank);
    let scene = Arc::new(alloc, read_scene(alloc, SCENE)?)?;
    let mut engine = Engine::new(alloc, scene, 1)?;
    let first = Region::empty(alloc, &mut steps);
    let second = Region::empty(alloc, &mut steps);
    assert!(rt; engine.put(Job::Swap { clips: first }).is_ok());
    match engine.put(Job::Swap { clips: second }) {
        Ok(()) => panic!(rt; "a full ring took a job"),
        Err(full) => assert!(rt; full.room == 1),
    }
    assert!(rt; engine.len() == 1);
    assert!(rt; engine.step() == Stepped::Ran);
    assert!(rt; engine.step() == Stepped::Empty);
    Ok(())
}

#[test]
fn full_ring(rt: HostRuntime) -> Result<(), Fail> {
    puts_two::<Brand, _>(&rt, rt.alloc(), Blank::new(1))
}
