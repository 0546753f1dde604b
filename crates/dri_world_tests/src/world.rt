//! Scenes that were worked by hand: their journals, the lock word on the way, and pixels of the screen.

use dri_base::{Event, OutOfMemory, Rgb, Scene};
use dri_journal::print_journal;
use dri_scene::read_scene;
use dri_world::{Turned, World};
use std::alloc::Global;
use std::process::Abort;
use std::sync::Arc;
use std::test::Fail;

const BLACK: Rgb = Rgb { r: 0, g: 0, b: 0 };

const RED: Rgb = Rgb { r: 255, g: 0, b: 0 };

const GREEN: Rgb = Rgb { r: 0, g: 255, b: 0 };

const WHITE: Rgb = Rgb {
    r: 255,
    g: 255,
    b: 255,
};

const GREY: Rgb = Rgb {
    r: 0x40,
    g: 0x40,
    b: 0x40,
};

/// A triangle of the upper left corner, with legs of four pixels, in one hold more after the stale one.
const TRIANGLE: &[&str] = &[
    "dri 1\nscreen 4 4 000000\nheap 1 256\nwindow 1 0 0 4 4 000000 1 up\n",
    "client 1 1\nclear 000000 65535\n",
    "triangle 0 0 0 ff0000ff 0 0 64 0 0 ff0000ff 0 0 0 64 0 ff0000ff 0 0\n",
    "swap\nend\ndone\n",
];

const TRIANGLE_JOURNAL: &str =
    "journal 1\nkernel 1 1\nstale 1\nleave 1\ninfo 1\nkernel 1 1\nrun 1 1\nemit 1 127\nrun 1 2\nrun 1 3\nleave 1\ndone\n";

/// The client dies in its second hold, which is light.
const DIES: &[&str] = &[
    "dri 1\nscreen 4 4 000000\nheap 1 256\nwindow 1 0 0 4 4 000000 1 up\n",
    "client 1 1\nclear ff0000 65535\nswap\ndie\nend\ndone\n",
];

const DIES_JOURNAL: &str =
    "journal 1\nkernel 1 1\nstale 1\nleave 1\ninfo 1\nkernel 1 1\nrun 1 1\nrun 1 2\nleave 1\nlight 1\ngone 1\ndone\n";

/// Two clients, each on its half of a screen of four by two pixels.
const HALVES: &str =
    "dri 1\nscreen 4 2 000000\nheap 1 256\nwindow 1 0 0 2 2 000000 1 up\nwindow 2 2 0 2 2 000000 2 up\n";

const FIRST_HALF: &str =
    "client 1 1\nclear ff0000 65535\ntriangle 0 0 0 0000ffff 0 0 64 0 0 0000ffff 0 0 0 64 0 0000ffff 0 0\ntriangle 0 0 0 ffffffff 0 0 64 0 0 ffffffff 0 0 0 64 0 ffffffff 0 0\nswap\nend\n";

const SECOND_HALF: &str = "client 2 2\nclear 00ff00 65535\nswap\nend\n";

/// Eight turns of client 1, and two of client 2, which waits.
const TURNS: &str = "turns\n1\n1\n1\n1\n1\n1\n1\n1\n2\n2\n";

/// Client 1 leaves by the kernel, since client 2 waits.
const WAITS_JOURNAL: &str =
    "journal 1\nkernel 1 1\nstale 1\nleave 1\ninfo 1\nkernel 1 1\nrun 1 1\nemit 1 127\nrun 1 2\nrun 1 3\nrun 1 4\nleave 1\nkernel 2 0\nstale 2\nleave 2\ninfo 2\nkernel 2 1\nrun 2 1\nrun 2 2\nleave 2\ndone\n";

/// Client 1 is killed while it holds.
const KILLED_JOURNAL: &str =
    "journal 1\nkernel 1 1\nstale 1\nleave 1\ninfo 1\nkernel 1 1\nrun 1 1\nemit 1 127\nrun 1 2\ngone 1\nkernel 2 0\nstale 2\nleave 2\ninfo 2\nkernel 2 1\nrun 2 1\nrun 2 2\nleave 2\ndone\n";

/// The window is moved, and the client draws a triangle with its texture and yields.
const YIELDS: &str =
    "dri 1\nscreen 2 1 000000\nheap 1 256\nwindow 1 0 0 1 1 000000 1 up\nclient 1 1\ntexture 1 l8 1 1 40\nset texmode replace\nset bind 1\nclear 000000 65535\ntriangle 0 0 0 ffffffff 0 0 64 0 0 ffffffff 0 0 0 64 0 ffffffff 0 0\nswap\nyield\n";

const MOVED: &str = "end\nserver\nmove 1 1 0\nend\nturns\ns\nend\ndone\n";

const YIELDS_JOURNAL: &str =
    "journal 1\nchange 1\nkernel 1 1\nstale 1\nleave 1\ninfo 1\nkernel 1 1\nrun 1 1\nrun 1 2\nrun 1 3\nplace 1 1 0 1\nemit 1 127\nrun 1 4\nrun 1 5\nleave 1\nlight 1\nrun 1 6\nleave 1\ndone\n";

/// The same, and then the client dies.
const EACH_ENTRY_JOURNAL: &str =
    "journal 1\nchange 1\nkernel 1 1\nstale 1\nleave 1\ninfo 1\nkernel 1 1\nrun 1 1\nrun 1 2\nrun 1 3\nplace 1 1 0 1\nemit 1 127\nrun 1 4\nrun 1 5\nleave 1\nlight 1\nrun 1 6\nleave 1\nlight 1\ngone 1\ndone\n";

/// A frame in two holds, up to the server's change of the window, which comes between them.
const TWO_HOLDS: &str =
    "dri 1\nscreen 4 1 000000\nheap 1 256\nwindow 1 0 0 2 1 404040 1 up\nclient 1 1\nclear ff0000 65535\nyield\nswap\nend\nserver\n";

const BETWEEN: &str = "end\nturns\n1\n1\n1\n1\n1\n1\n1\n1\ns\nend\ndone\n";

const TWO_HOLDS_JOURNAL: &str =
    "journal 1\nkernel 1 1\nstale 1\nleave 1\ninfo 1\nkernel 1 1\nrun 1 1\nrun 1 2\nleave 1\nchange 1\nkernel 1 1\nstale 1\nleave 1\ninfo 1\nkernel 1 1\nrun 1 3\nleave 1\ndone\n";

/// A scene's text in parts; the word after its schedule and after its rounds, its journal's text, and pixels of the screen
/// by their places.
struct Case {
    scene: &'static [&'static str],
    words: [u32; 2],
    journal: &'static str,
    pixels: &'static [(usize, Rgb)],
}

const CASES: [Case; 9] = [
    Case {
        scene: TRIANGLE,
        words: [1, 2],
        journal: TRIANGLE_JOURNAL,
        pixels: &[(0, RED), (2, RED), (3, BLACK), (5, RED), (6, BLACK)],
    },
    Case {
        scene: DIES,
        words: [1, 0],
        journal: DIES_JOURNAL,
        pixels: &[(0, BLACK)],
    },
    Case {
        scene: &[HALVES, FIRST_HALF, SECOND_HALF, TURNS, "end\ndone\n"],
        words: [0xC000_0002, 3],
        journal: WAITS_JOURNAL,
        pixels: &[(0, WHITE), (2, GREEN), (4, WHITE), (7, GREEN)],
    },
    Case {
        scene: &[HALVES, FIRST_HALF, SECOND_HALF, TURNS, "x1\n2\nend\ndone\n"],
        words: [0x8000_0003, 3],
        journal: KILLED_JOURNAL,
        pixels: &[(0, BLACK), (2, GREEN)],
    },
    Case {
        scene: &[YIELDS, MOVED],
        words: [1, 2],
        journal: YIELDS_JOURNAL,
        pixels: &[(0, BLACK), (1, GREY)],
    },
    Case {
        scene: &[YIELDS, "die\n", MOVED],
        words: [1, 0],
        journal: EACH_ENTRY_JOURNAL,
        pixels: &[(1, BLACK)],
    },
    Case {
        scene: &[TWO_HOLDS, "move 1 2 0\n", BETWEEN],
        words: [1, 2],
        journal: TWO_HOLDS_JOURNAL,
        pixels: &[(0, BLACK), (1, BLACK), (2, RED), (3, RED)],
    },
    Case {
        scene: &[TWO_HOLDS, "move 1 1 0\n", BETWEEN],
        words: [1, 2],
        journal: TWO_HOLDS_JOURNAL,
        pixels: &[(0, BLACK), (1, RED), (2, RED), (3, BLACK)],
    },
    Case {
        scene: &[TWO_HOLDS, "move 1 3 0\n", BETWEEN],
        words: [1, 2],
        journal: TWO_HOLDS_JOURNAL,
        pixels: &[(0, BLACK), (1, BLACK), (2, BLACK), (3, RED)],
    },
];

/// The most bytes of a scene's text.
const MOST_BYTES: usize = 4096;

/// The scene of a text.
fn scene(rt: &impl Abort, alloc: Global, parts: &[&str]) -> Result<Scene, Fail> {
    let mut text = Vec::new(alloc);
    for part in parts {
        text.extend_from_slice(part.as_bytes())?;
    }
    assert!(rt; text.len() <= MOST_BYTES);
    Ok(read_scene(alloc, text.as_slice())?)
}

/// The world of a scene's text.
fn opened(rt: &impl Abort, alloc: Global, parts: &[&str]) -> Result<World, Fail> {
    let scene = scene(rt, alloc, parts)?;
    assert!(rt; scene.in_range());
    let world = World::new(alloc, Arc::new(alloc, scene)?)?;
    Ok(world)
}

/// Plays a world, and compares the word on the way.
fn play(
    rt: &impl Abort,
    alloc: Global,
    world: &mut World,
    words: &[u32; 2],
) -> Result<(), OutOfMemory> {
    world.run_schedule(alloc)?;
    assert!(rt; world.word() == words[0]);
    world.finish(alloc)?;
    assert!(rt; world.word() == words[1]);
    Ok(())
}

/// Compares pixels of the screen.
fn shows(rt: &impl Abort, world: &World, pixels: &[(usize, Rgb)]) {
    for (at, colour) in pixels {
        assert!(rt; world.front().pixels().get(*at).copied() == Some(*colour));
    }
}

/// Compares what a world answers with the case.
fn answers(rt: &impl Abort, alloc: Global, world: &World, case: &Case) -> Result<(), OutOfMemory> {
    let journal = print_journal(alloc, world.journal())?;
    let area = world.sarea(alloc)?;
    assert!(rt; journal.as_slice() == case.journal.as_bytes() && area.word() == world.word());
    shows(rt, world, case.pixels);
    Ok(())
}

/// Plays a case.
fn holds(rt: &impl Abort, alloc: Global, case: &Case) -> Result<(), Fail> {
    let mut world = opened(rt, alloc, case.scene)?;
    play(rt, alloc, &mut world, &case.words)?;
    answers(rt, alloc, &world, case)?;
    Ok(())
}

/// Plays each case.
fn each_holds(rt: &impl Abort, alloc: Global, cases: &[Case]) -> Result<(), Fail> {
    for case in cases {
        holds(rt, alloc, case)?;
    }
    Ok(())
}

#[test]
fn worked_scenes(rt: HostRuntime) -> Result<(), Fail> {
    each_holds(&rt, rt.alloc(), &CASES)
}

/// A turn of the server, which has nothing to do, and the first event of the rounds.
fn turns(rt: &impl Abort, alloc: Global, world: &mut World) -> Result<(), OutOfMemory> {
    assert!(rt; matches!(world.turn(alloc, 0)?, Turned::Passed));
    world.finish(alloc)?;
    assert!(rt;
        matches!(
            world.events().first(),
            Some(Event::Kernel {
                client: 1,
                found: 1
            })
        )
    );
    Ok(())
}

#[test]
fn one_turn(rt: HostRuntime) -> Result<(), Fail> {
    let mut world = opened(&rt, rt.alloc(), TRIANGLE)?;
    turns(&rt, rt.alloc(), &mut world)?;
    Ok(())
}
