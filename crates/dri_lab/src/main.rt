//! The laboratory's program: its top call over standard input, standard output as picture and standard error as notes.
#![tactic(auto)]

use dri_base::OutOfMemory;
use dri_io::{StdSink, StdSource};
use dri_lab_run::{LabStatus, drive, tell};
use std::io::ErrorKind;
use std::process::ExitCode;
use std::{env, io};

/// The words of the command line, without the program's name.
fn collected(rt: &HostRuntime) -> io::Result<Vec<String>> {
    let mut words = Vec::new(rt.alloc());
    for word in env::args(rt)?.skip(1) {
        words.push(word)?;
    }
    Ok(words)
}

/// The words that the program goes by. Words that are no text count as words of no form.
fn words_of(rt: &HostRuntime) -> Result<Vec<String>, OutOfMemory> {
    match collected(rt) {
        Ok(words) => Ok(words),
        Err(fault) => {
            if fault.kind() == ErrorKind::OutOfMemory {
                Err(OutOfMemory)
            } else {
                Ok(Vec::new(rt.alloc()))
            }
        }
    }
}

/// Does what the words say, and ends with the status's number.
fn main(rt: HostRuntime) -> ExitCode {
    let mut input = StdSource::new(rt.stdin());
    let mut picture = StdSink::new(rt.stdout());
    let mut notes = StdSink::new(rt.stderr());
    let status = match words_of(&rt) {
        Ok(words) => drive(
            rt.alloc(),
            words.as_slice(),
            &mut input,
            &mut picture,
            &mut notes,
        ),
        Err(error) => {
            let status = LabStatus::from(error);
            tell(status, &mut notes);
            status
        }
    };
    ExitCode::from(status.code())
}
