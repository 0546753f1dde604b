//! Each law once, and a script drawn alone.

ghost use Rattle.std.specs.Prelude.{◌≡◌, length};
ghost use Rattle.dri_base.specs.Ranges.{InRange};
ghost use Rattle.dri_meaning.specs.Scripts.{ScriptInRange};

use dri_base::{ClientScript, Rgb, Scene};
use dri_meaning::{
    SoloFault, a_full_region, a_region_taken_over, a_region_unshared, a_scissor, a_second_region,
    a_shared_region, a_triangle, bounded, central, changed_beside, changes_one_by_one, columns,
    confined, core, counted, covered_and_uncovered, covered_in_part, covered_whole, death,
    death_of_two_windows, decided, depths, each_depth, each_setting, frames, judged, killed_before,
    killed_in_a_hold, marked, moved_after_its_swap, moved_and_then_resized, moved_as_it_shows,
    moved_by_a_pixel, moved_by_its_width, moved_nowhere_at_all, moved_partly_off,
    moved_under_another, moved_with_its_depth, no_hold_runs, no_holds, own, own_card, rounds_end,
    shown_again, solo_left, solo_picture, solo_pixel, stamped, stopped, turned_off, turns,
    two_blends, two_holds, two_places, two_textures, why_refused,
};
use dri_scene::read_scene;
use std::test::Fail;

#[test]
fn laws() {
    central();
    stamped();
    confined();
    own();
    solo_left();
    decided();
    judged();
    frames();
    counted();
    bounded();
    core();
    turns();
    rounds_end();
}

#[test]
fn worked_scenes() {
    a_triangle();
    two_holds();
    covered_whole();
    killed_before();
    death();
    covered_and_uncovered();
    changed_beside();
    moved_by_its_width();
    moved_by_a_pixel();
    moved_partly_off();
    moved_nowhere_at_all();
    moved_as_it_shows();
    moved_under_another();
    moved_and_then_resized();
    moved_after_its_swap();
    moved_with_its_depth();
    marked();
    killed_in_a_hold();
    two_textures();
    a_scissor();
    two_blends();
    covered_in_part();
    changes_one_by_one();
    why_refused();
    death_of_two_windows();
    shown_again();
    own_card();
    stopped();
    no_hold_runs();
    no_holds();
    depths();
    columns();
    two_places();
    each_setting();
    turned_off();
    each_depth();
}

#[test]
fn worked_regions() {
    a_shared_region();
    a_region_unshared();
    a_full_region();
    a_second_region();
    a_region_taken_over();
}

const RED: Rgb = Rgb { r: 255, g: 0, b: 0 };

const GREEN: Rgb = Rgb { r: 0, g: 255, b: 0 };

/// A clear, and behind it a triangle that the scissor cuts to one pixel; and a frame without a clear.
const ONE_SCISSOR: &str =
    "dri 1\nscreen 8 1 000000\nheap 1 256\nwindow 1 -5 0 10 1 000000 1 up\nclient 1 1\nclear ff0000 65535\nset scissor 5 0 6 1\ntriangle 0 0 0 00ff00ff 0 0 320 0 0 00ff00ff 0 0 0 320 0 00ff00ff 0 0\nswap\nswap\nend\ndone\n";

/// The only client.
fn script(scene: &Scene) -> &ClientScript
    requires range { InRange scene.now }
    requires one { length scene.now.clients ≡ 1 }
    ensures { ScriptInRange result.now }
{
    scene.clients.get(0)
}

/// At the scissor's edges, and in a frame that isn't there or has no clear.
#[test]
fn alone_in_a_scissor(rt: HostRuntime) -> Result<(), Fail> {
    let scene = read_scene(rt.alloc(), ONE_SCISSOR.as_bytes())?;
    assert!(rt; scene.in_range());
    assert!(rt; scene.clients.len() == 1);
    let script = script(&scene);
    for (frame, x, y, colour) in [
        (1, 4, 0, Some(RED)),
        (1, 5, 0, Some(GREEN)),
        (1, 6, 0, Some(RED)),
        (1, 5, 1, Some(RED)),
        (0, 5, 0, None),
        (2, 5, 0, None),
        (3, 5, 0, None),
    ] {
        assert!(rt; solo_pixel(script, frame, x, y) == colour);
    }
    let no_frame = solo_picture(rt.alloc(), script, 2, 10, 1).err();
    assert!(rt; no_frame == Some(SoloFault::NoFrame));
    Ok(())
}
