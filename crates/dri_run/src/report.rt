//! The lines that a replay gives: a report, all of it or the counts of its frames, and the counts of a card or of a ring. A line is built in
//! a buffer of fixed size, so it takes no memory.

ghost use Rattle.std.specs.Prelude.{◌≡◌, ◌≤◌, IfOk, length};
ghost use Rattle.dri_run.specs.CheckedRun.{report_line, whole_word};
ghost use Rattle.dri_run.specs.FlippedRun.{flip_line};
ghost use Rattle.dri_run.specs.MadeScene.{frames_line};
ghost use Rattle.dri_run.specs.RingedRun.{ring_line};

use crate::notice::push_number;
use arrayvec::ArrayString;
use dri_base::{Bytes, OutOfMemory};
use dri_journal::Report;
use std::alloc::Global;

/// A line of at most 256 bytes.
pub type ReportLine = ArrayString<256>;

/// The word that says whether nothing is left to do.
fn whole_word(whole: bool) -> &'static str
    ensures value { result.now ≡ whole_word whole }
    ensures short { length result.now ≤ 8 }
{
    if whole { "whole" } else { "part" }
}

/// The line of a report.
pub fn report_line(report: &Report) -> ReportLine
    ensures { result.bytes ≡ report_line report.now }
{
    let mut line = ReportLine::new();
    line.push_str("entries ");
    push_number(&mut line, report.entries);
    line.push_str(" frames ");
    push_number(&mut line, report.frames);
    line.push_str(" stood ");
    push_number(&mut line, report.stood);
    line.push_str(" ");
    line.push_str(whole_word(report.whole));
    line.push_str("\n");
    line
}

/// The line of the frames that ran and of those that stood.
pub fn frames_line(report: &Report) -> ReportLine
    ensures { result.bytes ≡ frames_line report.now }
{
    let mut line = ReportLine::new();
    line.push_str("frames ");
    push_number(&mut line, report.frames);
    line.push_str(" stood ");
    push_number(&mut line, report.stood);
    line.push_str("\n");
    line
}

/// The line of the flips and the copies of a card that flips.
pub fn flip_line(flips: u32, copies: u32) -> ReportLine
    ensures { result.bytes ≡ flip_line flips copies }
{
    let mut line = ReportLine::new();
    line.push_str("flips ");
    push_number(&mut line, flips);
    line.push_str(" copies ");
    push_number(&mut line, copies);
    line.push_str("\n");
    line
}

/// The line of the jobs that were put into a ring, of the waits until it was idle, and of the most that were pending.
pub fn ring_line(puts: u32, idles: u32, most: u32) -> ReportLine
    ensures { result.bytes ≡ ring_line puts idles most }
{
    let mut line = ReportLine::new();
    line.push_str("puts ");
    push_number(&mut line, puts);
    line.push_str(" idles ");
    push_number(&mut line, idles);
    line.push_str(" most ");
    push_number(&mut line, most);
    line.push_str("\n");
    line
}

/// The bytes of a line.
pub fn bytes_of(alloc: Global, line: &ReportLine) -> Result<Bytes, OutOfMemory>
    ensures { IfOk result (λ b. b ≡ line.now.bytes) }
{
    let mut bytes = Vec::new(alloc);
    bytes.extend_from_slice(line.as_str().as_bytes())?;
    Ok(Bytes::from_vec(bytes))
}
