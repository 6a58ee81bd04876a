//! The program: the commands over files and the standard streams.
//!
//! The words are the program's arguments, and the exit status is the command's. Class 0 has a releaser that
//! answers up to 65,536 bytes as they are; no other class has one. Here is all that is
//! trusted of the outside: a store over files and sinks over the standard streams, which tell nothing
//! of what they hold and count their faults.
#![tactic(auto)]

mod files;
mod pieces;
mod streams;
#[cfg(test)]
mod tests;

use confllvm_top::{Status, confllvm};
use cv_io::{Sink, Trusted, XorPad};
use cv_word::NoMemory;
use files::FileStore;
use std::alloc::Global;
use std::process::ExitCode;
use std::{env, io};
use streams::Stream;

/// How many bytes the program's one releaser, that of class 0, answers. It answers what it is asked with.
const PAD: usize = 65_536;

fn main(rt: HostRuntime) -> ExitCode {
    let mut store = FileStore::new(rt);
    let mut out = Stream::new(rt.stdout());
    let mut err = Stream::new(rt.stderr());
    let words = match words(rt) {
        Ok(words) => words,
        Err(error) => return ended(unread(&error, &mut err)),
    };
    let Ok(pad) = zero_pad(rt.alloc()) else {
        return ended(out_of_memory(&mut err));
    };
    let Ok(releaser) = Box::new(rt.alloc(), pad) else {
        return ended(out_of_memory(&mut err));
    };
    let mut trusted: Vec<Option<Box<dyn Trusted>>> = Vec::new(rt.alloc());
    match trusted.push(Some(releaser)) {
        Ok(()) => ended(confllvm(
            rt.alloc(),
            &words,
            &mut store,
            &mut out,
            &mut err,
            &mut trusted,
        )),
        Err(_error) => ended(out_of_memory(&mut err)),
    }
}

/// The exit status.
fn ended(status: Status) -> ExitCode {
    ExitCode::from(status.code())
}

/// The releaser of class 0.
fn zero_pad(alloc: Global) -> Result<XorPad, NoMemory> {
    let pad = vec![in alloc; 0u8; PAD]?;
    XorPad::new(alloc, pad, Vec::new(alloc))
}

/// The words after the program's name.
fn words(rt: HostRuntime) -> io::Result<Vec<String>> {
    let mut words = Vec::new(rt.alloc());
    for word in env::args(&rt)?.skip(1) {
        words.push(word)?;
    }
    Ok(words)
}

/// How the program ends where its words can't be read: `Usage` where one is no text.
fn unread<E: Sink>(error: &io::Error, err: &mut E) -> Status {
    if error.kind() == io::ErrorKind::OutOfMemory {
        out_of_memory(err)
    } else {
        let _ = err.put(b"usage fault\n");
        Status::Usage
    }
}

/// How the program ends where memory is refused before it does a command.
fn out_of_memory<E: Sink>(err: &mut E) -> Status {
    let _ = err.put(b"no memory\n");
    Status::NoMemory
}
