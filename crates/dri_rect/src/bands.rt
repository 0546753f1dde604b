//! The walk down the bands of two regions.

ghost use Rattle.std.specs.Prelude.{◌≡◌, ◌++◌, ◌≤ℤ◌, IfOk, OnOk, take, drop, ◌≤◌, length, vec_len};
ghost use Rattle.dri_rect.specs.Pixels.{most};
ghost use Rattle.dri_rect.specs.Walk.{IsBands, IsCut, CutsBand, IsAnswer, Split, StretchDown, LaterDown, ReachesDown, AheadDown, lowered, joined, joined_start, same_columns, begins, IsRegion, IsRest, IsTop, IsStart};
ghost use Rattle.std.specs.Option.{IfSome};

use crate::operation::Operation;
use crate::rows::{BEHIND, LEAST, combine_rows, greater, is_done, is_same_row, lesser};
use dri_base::{OutOfMemory, Rect};
use std::alloc::Global;

/// The bands that a walk has not passed: the rectangles of the first one, and those of the bands below it.
#[derive(Clone, Copy)]
struct Bands<'a> {
    first: &'a [Rect],
    below: &'a [Rect],
}

/// Whether the rectangle at the place begins at the line.
fn begins_at(rects: &[Rect], n: usize, top: i32) -> bool
    ensures { result ≡ begins (drop n rects.now) top }
{
    if n < rects.len() {
        rects[n].y1 == top
    } else {
        false
    }
}

/// The first rectangles, those that begin at the line, and those behind them.
fn split_band(rects: &[Rect], top: i32) -> (&[Rect], &[Rect])
    ensures { Split rects.now result.0.now result.1.now top }
{
    let mut n = 0;
    while begins_at(rects, n, top) {
        n += 1;
    }
    rects.split_at(n)
}

/// All bands of a region.
fn bands_of(rects: &[Rect]) -> Bands<'_>
    requires { IsBands rects.now }
    ensures { IsCut rects.now result.first.now result.below.now }
{
    match rects.split_first() {
        None => Bands {
            first: rects,
            below: rects,
        },
        Some((head, _)) => {
            let (first, below) = split_band(rects, head.y1);
            Bands { first, below }
        }
    }
}

/// The row at a line, and a line below it up to which it stays.
fn row_at(bands: Bands<'_>, y: i32) -> (&[Rect], i32)
    requires bands { IsBands (bands.first.now ++ bands.below.now) }
    requires cut { CutsBand bands.first.now bands.below.now }
    requires ahead { AheadDown bands.first.now y }
    requires high { y ≤ℤ most }
    ensures { StretchDown (bands.entry.first.now ++ bands.entry.below.now) y result.0.now result.1 }
{
    match bands.first.split_first() {
        None => (bands.first, BEHIND),
        Some((head, _)) => {
            if head.y1 <= y {
                (bands.first, head.y2)
            } else {
                (bands.first.split_at(0).0, head.y1)
            }
        }
    }
}

/// The bands that end below a line, where the first one ends there or below.
fn pass(bands: Bands<'_>, y: i32) -> Bands<'_>
    requires bands { IsBands (bands.first.now ++ bands.below.now) }
    requires cut { CutsBand bands.first.now bands.below.now }
    requires reaches { ReachesDown bands.first.now y }
    ensures later { LaterDown (bands.entry.first.now ++ bands.entry.below.now) (result.first.now ++ result.below.now) y }
    ensures cut { CutsBand result.first.now result.below.now }
{
    match bands.first.split_first() {
        None => bands,
        Some((head, _)) => {
            if head.y2 <= y {
                bands_of(bands.below)
            } else {
                bands
            }
        }
    }
}

/// The first line of some bands, or the least line, where there are none.
#[tactic(auto, using(crate::proofs::BandWalks::top_none))]
fn top_of(rects: &[Rect]) -> i32
    requires { IsBands rects.now }
    ensures { IsTop rects.now result }
{
    match rects.split_first() {
        None => LEAST,
        Some((head, _)) => head.y1,
    }
}

/// The line at which the walk begins: nothing of the answer is above it.
fn first_line(operation: Operation, first: &[Rect], second: &[Rect]) -> i32
    requires first { IsBands first.now }
    requires second { IsBands second.now }
    ensures { IsStart operation first.now second.now result }
{
    match operation {
        Operation::Unite => lesser(top_of(first), top_of(second)),
        Operation::Subtract => top_of(first),
        Operation::Intersect => greater(top_of(first), top_of(second)),
    }
}

/// The bands without those that end above a line.
fn skip(rects: &[Rect], y: i32) -> &[Rect]
    requires { IsBands rects.now }
    ensures { LaterDown rects.now result.now y }
{
    let mut rest = rects;
    while let Some((head, others)) = rest.split_first() {
        if y < head.y2 {
            return rest;
        }
        rest = others;
    }
    rest
}

/// The bands of one, where the other is over and these begin below a line.
fn rest_of<'a>(above: Bands<'a>, below: Bands<'a>, y: i32) -> Option<Bands<'a>>
    requires above { CutsBand above.first.now above.below.now }
    requires below { CutsBand below.first.now below.below.now }
    ensures { IfSome result (λ rest. IsRest (above.entry.first.now ++ above.entry.below.now) (below.entry.first.now ++ below.entry.below.now) (rest.first.now ++ rest.below.now) y) }
{
    if above.first.is_empty() {
        let (head, _) = below.first.split_first()?;
        return if y < head.y1 { Some(below) } else { None };
    }
    if below.first.is_empty() {
        let (head, _) = above.first.split_first()?;
        return if y < head.y1 { Some(above) } else { None };
    }
    None
}

/// Puts bands last, as they are.
fn put_bands(bands: Bands<'_>, out: &mut Vec<Rect>) -> Result<(), OutOfMemory>
    ensures { OnOk result (out.new.items ≡ out.old.items ++ (bands.entry.first.now ++ bands.entry.below.now)) }
{
    out.extend_from_slice(bands.first)?;
    out.extend_from_slice(bands.below)?;
    Ok(())
}

/// The bands with another last line.
fn lower(out: &mut Vec<Rect>, start: usize, bottom: i32)
    requires { start ≤ vec_len out.old }
    ensures { out.new.items ≡ take start out.old.items ++ lowered bottom (drop start out.old.items) }
{
    let mut i = start;
    while i < out.len() {
        out[i].y2 = bottom;
        i += 1;
    }
}

/// Whether the last row, which begins at a place, has the columns of the row before it, which begins at another.
fn repeats(out: &[Rect], start: usize, fresh: usize) -> bool
    requires start { start ≤ fresh }
    requires fresh { fresh ≤ length out.now }
    ensures { result ≡ same_columns (drop start (take fresh out.now)) (drop fresh out.now) }
{
    let (front, last) = out.split_at(fresh);
    is_same_row(front.split_at(start).1, last)
}

/// Makes one band of the last two, where they have the same columns. Answers where the last band begins.
fn settle(out: &mut Vec<Rect>, start: usize, fresh: usize, bottom: i32) -> usize
    requires start { start ≤ fresh }
    requires fresh { fresh ≤ vec_len out.old }
    ensures items { out.new.items ≡ joined out.old.items start fresh bottom }
    ensures start { result ≡ joined_start out.old.items start fresh }
{
    if repeats(out.as_slice(), start, fresh) {
        out.truncate(fresh);
        lower(out, start, bottom);
        start
    } else {
        fresh
    }
}

/// The operation on two regions, by one walk over the bands of both. Bands of which nothing can come, since they end above the
/// other's first line, are skipped. Where one of the two is over, what is left of the other is copied whole. Where nothing
/// can come it takes no memory.
#[tactic(auto, using(crate::proofs::BandWalks::no_answer))]
pub fn combine(
    alloc: Global,
    operation: Operation,
    first: &[Rect],
    second: &[Rect],
) -> Result<Vec<Rect>, OutOfMemory>
    requires first { IsRegion first.now }
    requires second { IsRegion second.now }
    ensures { IfOk result (λ out. IsAnswer operation first.now second.now out.items) }
{
    if is_done(operation, first, second) {
        return Ok(Vec::new(alloc));
    }
    let mut out = Vec::with_capacity(alloc, first.len() + second.len())?;
    let mut y = first_line(operation, first, second);
    let mut above = bands_of(skip(first, y));
    let mut below = bands_of(skip(second, y));
    let mut start = 0;
    while !is_done(operation, above.first, below.first) {
        if let Some(rest) = rest_of(above, below, y) {
            put_bands(rest, &mut out)?;
            return Ok(out);
        }
        let (one, one_end) = row_at(above, y);
        let (other, other_end) = row_at(below, y);
        let bottom = lesser(one_end, other_end);
        let fresh = out.len();
        combine_rows(operation, one, other, y, bottom, &mut out)?;
        start = settle(&mut out, start, fresh, bottom);
        y = bottom;
        above = pass(above, y);
        below = pass(below, y);
    }
    Ok(out)
}
