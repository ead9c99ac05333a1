//! `rdcsign`: whether asserting an asynchronous reset can disturb a flop that is still running.
//!
//! `main` makes the shelf of the system's files and the sink of standard output, and ends with the status of the one
//! public call, `signoff` (`specs/Signoff.antt`): how a call ends, what it writes, and when each status comes.
//! The program: stands on every other crate.
#![tactic(auto)]

mod checking;
mod conclusion;
mod faults;
mod loading;
mod origin;
mod plain;
mod refusal;
mod report;
mod request;
mod signing;
mod verdict;

use conclusion::refuse;
use rdc_outside::{DiskShelf, OutSink, Status};
use refusal::Refusal;
use signing::signoff;
use std::process::ExitCode;
use std::rt::Env;
use std::{env, io};

/// The words behind the program's name.
fn words_of<R: Env + AllocGlobal>(rt: &R) -> io::Result<Vec<String>> {
    Ok(env::args(rt)?.skip(1).collect(rt.alloc())?)
}

/// Signs off what the command line asks for. Words that are no text ask for nothing.
fn run(rt: HostRuntime) -> Status {
    let alloc = rt.alloc();
    let mut out = OutSink::new(rt);
    match words_of(&rt) {
        Ok(words) => signoff(alloc, &words, &mut DiskShelf::new(rt), &mut out),
        Err(error) if error.kind() == io::ErrorKind::OutOfMemory => {
            refuse(&mut out, Refusal::Memory)
        }
        Err(_) => refuse(&mut out, Refusal::Usage),
    }
}

fn main(rt: HostRuntime) -> ExitCode {
    ExitCode::from(run(rt).number())
}

#[cfg(test)]
mod tests;
