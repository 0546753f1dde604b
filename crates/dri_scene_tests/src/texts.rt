//! A scene and a journal with each kind of line, read and printed. `tests/program` has the texts that are refused.

use dri_base::Bytes;
use dri_journal::{print_journal, read_journal};
use dri_scene::{print_scene, read_scene};
use std::alloc::Global;
use std::process::Abort;
use std::test::Fail;

/// A scene with each kind of line.
const SCENE: &[u8] =
    b"dri 1\nscreen 4 3 00a0ff\nheap 2 256\nwindow 1 -1 0 4 4 101010 1 up\nwindow 64 0 1024 1 1024 000000 0 down\nclient 1 1\ntexture 1 l8 2 1 00ff\ntexture 2 rgb565 1 1 0a0b\nset shade smooth\nset depth gequal\nset write on\nset blend add\nset texmode modulate\nset wrap clamp\nset bind 2\nset bind none\nset scissor 0 1 2048 3\nset scissor none\nclear 000000 65535\ntriangle 0 -32768 0 ff0000ff 0 0 64 0 0 ff0000ff 0 0 0 32767 65535 ff0000ff 65535 1\nyield\nswap\ndie\nend\nserver\nunmap 1\nmap 1\nmove 1 -5 6\nresize 64 2 3\nraise 64\nlower 1\nend\nturns\n1\ns\nx1\nend\ndone\n";

/// A journal with each kind of line, the numbers at the ends of their ranges.
const JOURNAL: &[u8] =
    b"journal 1\nkernel 1 33\nkernel 32 0\nstale 1\ninfo 1\nlight 1\nemit 1 127\nemit 1 1\nplace 1 64 63 64\nplace 1 1 0 1\nrun 1 100000\nrun 1 1\nleave 1\nchange 4096\nchange 1\ngone 32\ndone\n";

/// The scene, read and printed.
fn scene_again(alloc: Global) -> Result<Bytes, Fail> {
    let scene = read_scene(alloc, SCENE)?;
    Ok(print_scene(alloc, &scene)?)
}

/// The journal, read and printed.
fn journal_again(alloc: Global) -> Result<Bytes, Fail> {
    let entries = read_journal(alloc, JOURNAL)?;
    Ok(print_journal(alloc, entries.as_slice())?)
}

#[test]
fn read_and_printed(rt: HostRuntime) -> Result<(), Fail> {
    let scene = scene_again(rt.alloc())?;
    assert!(rt; scene.as_slice() == SCENE);
    let journal = journal_again(rt.alloc())?;
    assert!(rt; journal.as_slice() == JOURNAL);
    Ok(())
}
