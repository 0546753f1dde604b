//! The program that the benchmark times: parts of the repository, each run a number of times.
#![tactic(auto)]

mod boards;
mod contend;
mod drawing;
mod load;
mod opened;
mod pairs;
mod regions;
mod sixteen;
mod tally;

use crate::boards::Arrangement;
use crate::drawing::Work;
use crate::regions::Operation;
use std::process::ExitCode;
use std::{env, io};

/// The status of words of no form.
const USAGE: u8 = 2;

/// That of want of memory.
const NO_MEMORY: u8 = 7;

/// A part, and how often it is run.
#[derive(Clone, Copy, Drop)]
enum Part {
    Pairs(u32),
    Contend(u32),
    Drawing(Work, u32),
    Sixteen(Work, u32),
    Regions(Operation, u32, u32, u32),
    Boards(Arrangement, u32, u32),
}

/// An operation by its word.
fn operation_of(word: &str) -> Option<Operation> {
    match word {
        "unite" => Some(Operation::Unite),
        "subtract" => Some(Operation::Subtract),
        "intersect" => Some(Operation::Intersect),
        _ => None,
    }
}

/// How windows stand, by a word.
fn arrangement_of(word: &str) -> Option<Arrangement> {
    match word {
        "overlap" => Some(Arrangement::Overlapping),
        "apart" => Some(Arrangement::Apart),
        _ => None,
    }
}

/// The part of a word with more behind colons: an operation with two counts, an arrangement with one, the card of sixteen bits with
/// its work.
fn part_with_counts(word: &str, times: u32) -> Option<Part> {
    let (name, counts) = word.split_once(':')?;
    if name == "sixteen" {
        return Some(Part::Sixteen(Work::of(counts)?, times));
    }
    if let Some(arrangement) = arrangement_of(name) {
        return Some(Part::Boards(arrangement, counts.parse().ok()?, times));
    }
    let (first, second) = counts.split_once(':')?;
    Some(Part::Regions(
        operation_of(name)?,
        first.parse().ok()?,
        second.parse().ok()?,
        times,
    ))
}

/// The part that two words name, a part and a number; `None` where they are of no form.
fn part_of(words: &[String]) -> Option<Part> {
    if words.len() != 2 {
        return None;
    }
    let times = words[1].parse::<u32>().ok()?;
    match words[0].as_str() {
        "pairs" => Some(Part::Pairs(times)),
        "contend" => Some(Part::Contend(times)),
        name => match Work::of(name) {
            Some(work) => Some(Part::Drawing(work, times)),
            None => part_with_counts(name, times),
        },
    }
}

/// The words of the command line, without the program's name.
fn words_of(rt: &HostRuntime) -> io::Result<Vec<String>> {
    let mut words = Vec::new(rt.alloc());
    for word in env::args(rt)?.skip(1) {
        words.push(word)?;
    }
    Ok(words)
}

/// Runs the parts, and prints for each what its holds have left.
fn main(rt: HostRuntime) -> io::Result<ExitCode> {
    let words = words_of(&rt)?;
    for words in words.as_slice().chunks(2) {
        let Some(part) = part_of(words) else {
            eprintln!(rt;
                "usage: dri_bench [PART TIMES].., with PART pairs, contend, flat, smooth, blended, textured, cells, tiny, row, nothing, sliver, clear, swap, move, load, sixteen:PART, unite:N:N, subtract:N:N, intersect:N:N, overlap:N or apart:N"
            )?;
            return Ok(ExitCode::from(USAGE));
        };
        let left = match part {
            Part::Pairs(times) => pairs::run(&rt, rt.alloc(), times),
            Part::Contend(times) => contend::run(&rt, rt.alloc(), times),
            Part::Drawing(work, times) => drawing::run(rt.alloc(), work, times),
            Part::Sixteen(work, times) => sixteen::run(rt.alloc(), work, times),
            Part::Regions(operation, first, second, times) => {
                regions::run(rt.alloc(), operation, first, second, times)
            }
            Part::Boards(arrangement, count, times) => {
                boards::run(rt.alloc(), arrangement, count, times)
            }
        };
        let Some(left) = left else {
            return Ok(ExitCode::from(NO_MEMORY));
        };
        println!(rt; "{left}")?;
    }
    Ok(ExitCode::from(0))
}
