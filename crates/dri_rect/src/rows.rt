//! The walks to the right over two rows of columns, one for each operation. A row is a list of rectangles from left to right
//! that don't touch; the lines of the two are not looked at, and what is written has the lines that are given.

ghost use Rattle.std.specs.Prelude.{◌≡◌, ◌∷◌, ◌++◌, ◌<ℤ◌, ◌&&◌, ◌||◌, not, true, OnOk, IfOk};
ghost use Rattle.std.specs.Option.{MatchOption};
ghost use Rattle.dri_rect.specs.Walk.{IsRow, From, IsLesser, Added, row, answer, lesser_of, greater_of, put, placed, same_columns, both_empty, is_done, IsLevel, IsPicked, widened, wide_from, wide_to};

use crate::operation::Operation;
use dri_base::{OutOfMemory, Rect};

/// The least coordinate.
pub const LEAST: i32 = -4096;

/// A place behind every coordinate.
pub const BEHIND: i32 = 4097;

/// The columns from x1 up to, and without, x2.
#[derive(Clone, Copy)]
struct Columns {
    x1: i32,
    x2: i32,
}

/// The columns of a rectangle.
fn columns_of(rect: &Rect) -> Columns
    ensures x1 { result.x1 ≡ rect.now.x1 }
    ensures x2 { result.x2 ≡ rect.now.x2 }
{
    Columns {
        x1: rect.x1,
        x2: rect.x2,
    }
}

/// The lesser of two places.
pub fn lesser(first: i32, second: i32) -> i32
    ensures lesser { IsLesser first second result }
    ensures value { result ≡ lesser_of first second }
{
    if first < second { first } else { second }
}

/// The greater of two places.
pub fn greater(first: i32, second: i32) -> i32
    ensures { result ≡ greater_of first second }
{
    if first < second { second } else { first }
}

/// Whether nothing is left.
pub fn is_over(left: &[Rect], right: &[Rect]) -> bool
    ensures { result ≡ both_empty left.now right.now }
{
    left.is_empty() && right.is_empty()
}

/// Whether nothing more can come of what is left.
pub fn is_done(operation: Operation, left: &[Rect], right: &[Rect]) -> bool
    ensures { result ≡ is_done operation left.now right.now }
{
    match operation {
        Operation::Unite => is_over(left, right),
        Operation::Subtract => left.is_empty(),
        Operation::Intersect => {
            if left.is_empty() {
                return true;
            }
            right.is_empty()
        }
    }
}

/// Puts columns last, between two lines, if there are any.
fn put(into: &mut Vec<Rect>, x1: i32, x2: i32, top: i32, bottom: i32) -> Result<(), OutOfMemory>
    ensures { OnOk result (into.new.items ≡ put into.old.items top bottom x1 x2) }
{
    if x1 < x2 {
        into.push(Rect {
            x1,
            y1: top,
            x2,
            y2: bottom,
        })?;
    }
    Ok(())
}

/// The columns that begin first in two rows, and what stays of both; `None` where nothing is left.
#[tactic(auto, using(crate::proofs::Uniting::pick_none, crate::proofs::Uniting::pick_alone, crate::proofs::Uniting::pick_last))]
fn pick<'a>(left: &'a [Rect], right: &'a [Rect]) -> Option<(Columns, &'a [Rect], &'a [Rect])>
    requires left { IsRow left.now }
    requires right { IsRow right.now }
    ensures { MatchOption result (both_empty left.now right.now ≡ true) (λ p. IsPicked left.now right.now p.0.x1 p.0.x2 p.1.now p.2.now) }
{
    let Some((one, more)) = left.split_first() else {
        let (other, others) = right.split_first()?;
        return Some((columns_of(other), left, others));
    };
    let Some((other, others)) = right.split_first() else {
        return Some((columns_of(one), more, right));
    };
    if other.x1 < one.x1 {
        return Some((columns_of(other), left, others));
    }
    Some((columns_of(one), more, right))
}

/// Goes on with columns that begin where the open ones begin or behind: where they touch these they are joined to them, else
/// the open ones end. Answers the open columns.
fn widen(
    into: &mut Vec<Rect>,
    begun: Columns,
    next: Columns,
    top: i32,
    bottom: i32,
) -> Result<Columns, OutOfMemory>
    ensures items { OnOk result (into.new.items ≡ widened into.old.items top bottom begun.x1 begun.x2 next.x1) }
    ensures x1 { IfOk result (λ columns. columns.x1 ≡ wide_from begun.x1 begun.x2 next.x1) }
    ensures x2 { IfOk result (λ columns. columns.x2 ≡ wide_to begun.x2 next.x1 next.x2) }
{
    if next.x1 <= begun.x2 {
        return Ok(Columns {
            x1: begun.x1,
            x2: greater(begun.x2, next.x2),
        });
    }
    put(into, begun.x1, begun.x2, top, bottom)?;
    Ok(next)
}

/// The columns of either row. It takes the rectangle that begins first, again and again.
fn unite_rows(
    first: &[Rect],
    second: &[Rect],
    top: i32,
    bottom: i32,
    into: &mut Vec<Rect>,
) -> Result<(), OutOfMemory>
    requires first { IsRow first.now }
    requires second { IsRow second.now }
    ensures { OnOk result (Added into.old.items into.new.items top bottom (λ z. row first.now z || row second.now z)) }
{
    let mut left = first;
    let mut right = second;
    let mut begun = Columns {
        x1: LEAST,
        x2: LEAST,
    };
    while let Some((next, more, others)) = pick(left, right) {
        begun = widen(into, begun, next, top, bottom)?;
        left = more;
        right = others;
    }
    put(into, begun.x1, begun.x2, top, bottom)?;
    Ok(())
}

/// The first rectangle of a row and those behind it, where it begins before a place.
fn first_before(rects: &[Rect], end: i32) -> Option<(&Rect, &[Rect])>
    requires { IsRow rects.now }
    ensures { MatchOption result (From rects.now end) (λ p. (rects.now ≡ p.0.now ∷ p.1.now) × (p.0.now.x1 <ℤ end)) }
{
    let (first, others) = rects.split_first()?;
    if first.x1 < end {
        Some((first, others))
    } else {
        None
    }
}

/// The columns of the first row that the second lacks.
fn subtract_rows(
    first: &[Rect],
    second: &[Rect],
    top: i32,
    bottom: i32,
    into: &mut Vec<Rect>,
) -> Result<(), OutOfMemory>
    requires first { IsRow first.now }
    requires second { IsRow second.now }
    ensures { OnOk result (Added into.old.items into.new.items top bottom (λ z. row first.now z && not (row second.now z))) }
{
    let mut left = first;
    let mut right = second;
    let mut x = LEAST;
    while let Some((one, more)) = left.split_first() {
        let from = greater(x, one.x1);
        let Some((other, others)) = first_before(right, one.x2) else {
            put(into, from, one.x2, top, bottom)?;
            left = more;
            continue;
        };
        put(into, from, other.x1, top, bottom)?;
        x = other.x2;
        if other.x2 < one.x2 {
            right = others;
        } else {
            left = more;
        }
    }
    Ok(())
}

/// The columns of both rows.
fn intersect_rows(
    first: &[Rect],
    second: &[Rect],
    top: i32,
    bottom: i32,
    into: &mut Vec<Rect>,
) -> Result<(), OutOfMemory>
    requires first { IsRow first.now }
    requires second { IsRow second.now }
    ensures { OnOk result (Added into.old.items into.new.items top bottom (λ z. row first.now z && row second.now z)) }
{
    let mut left = first;
    let mut right = second;
    while let Some((one, more)) = left.split_first() {
        let Some((other, others)) = right.split_first() else {
            return Ok(());
        };
        let from = greater(one.x1, other.x1);
        put(into, from, lesser(one.x2, other.x2), top, bottom)?;
        if one.x2 < other.x2 {
            left = more;
        } else {
            right = others;
        }
    }
    Ok(())
}

/// Puts a row last, between two lines.
fn place(row: &[Rect], top: i32, bottom: i32, into: &mut Vec<Rect>) -> Result<(), OutOfMemory>
    ensures { OnOk result (into.new.items ≡ into.old.items ++ placed top bottom row.now) }
{
    for rect in row {
        into.push(Rect {
            x1: rect.x1,
            y1: top,
            x2: rect.x2,
            y2: bottom,
        })?;
    }
    Ok(())
}

/// The same, at once where the row stands between these lines.
fn copy_row(row: &[Rect], top: i32, bottom: i32, into: &mut Vec<Rect>) -> Result<(), OutOfMemory>
    requires { IsLevel row.now }
    ensures { OnOk result (into.new.items ≡ into.old.items ++ placed top bottom row.now) }
{
    if let Some((head, _)) = row.split_first() {
        if head.y1 == top && head.y2 == bottom {
            into.extend_from_slice(row)?;
            return Ok(());
        }
    }
    place(row, top, bottom, into)?;
    Ok(())
}

/// The operation on two rows, put last between two lines. Where one of them is empty there is no walk. It stands alone in
/// the program, so that its loops have the registers.
#[inline(never)]
#[tactic(auto, using(crate::proofs::RowWalks::unite_first, crate::proofs::RowWalks::unite_second, crate::proofs::RowWalks::subtract_first, crate::proofs::RowWalks::nothing_added))]
pub fn combine_rows(
    operation: Operation,
    first: &[Rect],
    second: &[Rect],
    top: i32,
    bottom: i32,
    into: &mut Vec<Rect>,
) -> Result<(), OutOfMemory>
    requires first { IsRow first.now }
    requires second { IsRow second.now }
    requires level { IsLevel first.now }
    requires level_second { IsLevel second.now }
    ensures { OnOk result (Added into.old.items into.new.items top bottom (λ z. answer operation (row first.now z) (row second.now z))) }
{
    if is_done(operation, first, second) {
        return Ok(());
    }
    match operation {
        Operation::Intersect => { intersect_rows(first, second, top, bottom, into) }
        Operation::Unite => {
            if second.is_empty() {
                return copy_row(first, top, bottom, into);
            }
            if first.is_empty() {
                return copy_row(second, top, bottom, into);
            }
            unite_rows(first, second, top, bottom, into)
        }
        Operation::Subtract => {
            if second.is_empty() {
                return copy_row(first, top, bottom, into);
            }
            subtract_rows(first, second, top, bottom, into)
        }
    }
}

/// Whether two rows have the same columns.
pub fn is_same_row(first: &[Rect], second: &[Rect]) -> bool
    ensures { result ≡ same_columns first.now second.now }
{
    let mut left = first;
    let mut right = second;
    while let Some((one, more)) = left.split_first() {
        match right.split_first() {
            None => return false,
            Some((other, others)) => {
                if one.x1 != other.x1 || one.x2 != other.x2 {
                    return false;
                }
                left = more;
                right = others;
            }
        }
    }
    right.is_empty()
}
