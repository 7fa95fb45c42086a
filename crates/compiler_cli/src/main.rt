//! The program: it reads a DXBC container from standard input or a file, translates it under its default binding map,
//! a binding text or a root signature, and writes a SPIR-V module to standard output or a file, or one line that names
//! the first broken rule.
//!
//! `run` does all that the program does, over any desk and sinks. Its contract cites the definitions
//! in `specs/`: `Output` for the rules of a job and what it makes, `Run` for what is left, `Texts` for the lines; and
//! in `command_line`, which reads the words, `Job` for what they ask for.
#![tactic(auto)]

mod failure;
mod laws;
mod report;
mod run;
mod streams;
mod translating;

use crate::failure::Failure;
use crate::report::{report, report_usage};
pub use failure::Status;
pub use laws::run_laws;
use outside::{FileDesk, StdSink, Words};
pub use run::run;
use std::alloc::AllocError;
use std::io::ErrorKind;
use std::process::ExitCode;

/// The words behind the program's name. `None` where the system has words that are no text.
fn words(rt: &HostRuntime) -> Result<Option<Words>, AllocError> {
    let mut list = Vec::new(rt.alloc());
    match std::env::args(rt) {
        Ok(arguments) => {
            for argument in arguments.skip(1) {
                list.push(argument)?;
            }
            Ok(Some(Words { list }))
        }
        Err(error) => match error.kind() {
            ErrorKind::OutOfMemory => Err(AllocError),
            _ => Ok(None),
        },
    }
}

/// Does what the words of the process ask for, over its files and streams.
fn start(rt: &HostRuntime) -> Result<Status, AllocError> {
    let mut desk = FileDesk::make(rt.clone()?);
    let mut out = StdSink::out(rt.clone()?);
    let mut err = StdSink::err(rt.clone()?);
    let status = match words(rt) {
        Ok(Some(words)) => run(rt.alloc(), &words, &mut desk, &mut out, &mut err),
        Ok(None) => report_usage(&mut err),
        Err(_) => report(&mut err, Failure::NoMemory),
    };
    Ok(status)
}

/// The exit status of an answer.
fn code(status: Status) -> ExitCode {
    match status {
        Status::Ok => ExitCode::from(0),
        Status::Refused => ExitCode::from(1),
        Status::Usage => ExitCode::from(2),
        Status::Fault => ExitCode::from(3),
        Status::NoMemory => ExitCode::from(4),
    }
}

fn main(rt: HostRuntime) -> ExitCode {
    match start(&rt) {
        Ok(status) => code(status),
        Err(_) => code(Status::NoMemory),
    }
}

#[cfg(test)]
mod tests;
