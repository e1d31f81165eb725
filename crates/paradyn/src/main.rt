//! The program: it makes the real files and sinks and hands them to the top call.
#![tactic(auto)]

use headline::{Words, log_name, run_program};
use outside::{DropSink, FileSink, OpenGate, OsFiles, StdSink};
use pn_types::NoMemory;
use std::alloc::Global;
use std::process::ExitCode;
use std::{env, io};

/// Returns the words of the command line, without the program's name.
fn read_words(rt: &HostRuntime) -> Result<Vec<String>, io::Error> {
    let mut words = Vec::new(rt.alloc());
    for word in env::args(rt)?.skip(1) {
        words.push(word)?;
    }
    Ok(words)
}

/// Returns the words, as far as they could be read.
fn words(rt: &HostRuntime) -> Words {
    match read_words(rt) {
        Ok(words) => Words::Read(words),
        Err(fault) if fault.kind() == io::ErrorKind::OutOfMemory => Words::NoMemory,
        Err(_) => Words::NotText,
    }
}

/// Returns the name of the log's file, if one is asked for.
fn log_file(alloc: Global, words: &Words) -> Result<Option<String>, NoMemory> {
    let Words::Read(words) = words else {
        return Ok(None);
    };
    match log_name(words) {
        Some(name) => Ok(Some(String::from_str(alloc, name)?)),
        None => Ok(None),
    }
}

fn main(rt: HostRuntime) -> ExitCode {
    let alloc = rt.alloc();
    let mut words = words(&rt);
    let name = match log_file(alloc, &words) {
        Ok(name) => name,
        Err(_) => {
            words = Words::NoMemory;
            None
        }
    };
    let mut files = OsFiles::new(rt);
    let mut out = StdSink::new(rt);
    match name {
        Some(name) => {
            let mut log = FileSink::new(rt, name);
            run_program(
                &rt, alloc, &words, &mut files, &mut out, &mut log, &OpenGate,
            )
        }
        None => run_program(
            &rt,
            alloc,
            &words,
            &mut files,
            &mut out,
            &mut DropSink,
            &OpenGate,
        ),
    }
}
