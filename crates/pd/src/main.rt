//! The program that people type: it reads what they want, and hands the real files and sinks to the call that serves it.
#![tactic(auto)]

ghost use Rattle.std.specs.Prelude.{◌≤◌};

mod standard_input;
mod stderr_sink;
mod terminal;
mod text_sink;
mod ticker;

use crate::standard_input::{files_with_input, name_input};
use crate::stderr_sink::StderrSink;
use crate::terminal::{STANDARD_ERROR, STANDARD_OUTPUT, is_terminal};
use crate::text_sink::{Place, TextSink};
use crate::ticker::Ticker;
use command_words::read_request;
use headline::{faults_text, log_name};
use outside::{FileSink, OsFiles};
use pd_hints::{check, remarks};
use pd_run::{Kind, Screen, log_kind, may_write, serve_words, status_meaning, written_kind};
use pd_words::{CheckWords, Serving, Wish, read_wish};
use pn_types::{MAX_HARTS, NoMemory};
use refusals::Refusal;
use std::process::ExitCode;
use std::sync::Wait;
use std::thread::Threads;
use std::{env, io};
use std_input::STANDARD_INPUT;

/// The status of words that are wrong, and of a file that isn't written over.
const WRONG: u8 = 2;

/// The status where not all could be written.
const NOT_WRITTEN: u8 = 7;

/// The status where memory ran out.
const NO_MEMORY: u8 = 8;

/// Returns the words of the command line, without the program's name.
fn read_words(rt: &HostRuntime) -> Result<Vec<String>, io::Error> {
    let mut words = Vec::new(rt.alloc());
    for word in env::args(rt)?.skip(1) {
        words.push(word)?;
    }
    Ok(words)
}

/// Says why nothing was done.
fn refuse(rt: &HostRuntime, why: &str) -> u8 {
    match eprintln!(rt; "pd: {why}") {
        Ok(()) | Err(_) => WRONG,
    }
}

/// Says on standard error what a text tells a person. Nothing depends on whether it is read.
fn say(rt: &HostRuntime, text: &str) {
    let _ = eprint!(rt; "{text}");
}

/// Returns whether a file may be written, if one is named, and says why where it may not.
fn may_write_to(rt: &HostRuntime, name: Option<&str>, kind: Kind, force: bool) -> bool {
    let Some(name) = name else {
        return true;
    };
    if force || may_write(&mut OsFiles::new(*rt), name, kind) {
        return true;
    }
    let what = kind.what();
    let _ = eprintln!(rt;
        "pd: {name} is there and isn't {what}: nothing was done. With --force it is written over."
    );
    false
}

/// Returns the file of a name, or the other place where none is named.
fn place_of(rt: &HostRuntime, name: Option<&str>, other: Place) -> Result<Place, NoMemory> {
    match name {
        Some(name) => Ok(Place::File(FileSink::new(*rt, String::from_str(rt.alloc(), name)?))),
        None => Ok(other),
    }
}

/// Serves words with the places of their output and their log, and says what there is to say of it.
fn serve_to<R: Threads + Wait + Sync>(
    rt: &HostRuntime,
    threads: &R,
    serving: &Serving,
    out: Place,
    log: Place,
) -> Result<u8, NoMemory> {
    let alloc = rt.alloc();
    let words = serving.words.as_slice();
    let mut files = files_with_input(rt, name_input(words))?;
    let mut screen = Screen {
        out: TextSink::new(*rt, out),
        err: StderrSink::new(*rt),
    };
    let mut log = TextSink::new(*rt, log);
    let ticker = Ticker::new(*rt, !serving.quiet && is_terminal(rt, STANDARD_ERROR));
    let shown = serve_words(
        threads,
        alloc,
        words,
        &mut files,
        &mut screen,
        &mut log,
        &ticker,
    );
    if shown.status == NOT_WRITTEN && !screen.out.is_closed() {
        say(rt, status_meaning(NOT_WRITTEN));
    }
    if shown.status != 0 || !serving.quiet {
        // What was done stays done, also where there is no memory to remark on it.
        if let Ok(text) = remarks(alloc, shown.status, &shown.texts, words, &mut files) {
            say(rt, &text);
        }
    }
    Ok(shown.status)
}

/// Serves what was asked for, where no file is lost by it.
fn serve<R: Threads + Wait + Sync>(
    rt: &HostRuntime,
    threads: &R,
    serving: &Serving,
) -> Result<u8, NoMemory> {
    let words = serving.words.as_slice();
    let output = serving.output.as_ref().map(|name| name.as_str());
    let log = log_name(words);
    if output.is_some() && output == log {
        return Ok(refuse(rt, "two texts can't go to one file"));
    }
    // The words are a request: only memory can be missing.
    let Ok(request) = read_request(rt.alloc(), words) else {
        return Err(NoMemory {});
    };
    let free = may_write_to(rt, output, written_kind(&request), serving.force)
        && may_write_to(rt, log, log_kind(&request), serving.force);
    if !free {
        return Ok(WRONG);
    }
    let out = place_of(rt, output, Place::Screen)?;
    let log = place_of(rt, log, Place::Nowhere)?;
    serve_to(rt, threads, serving, out, log)
}

/// Prints a text that was asked for.
fn print(rt: &HostRuntime, text: &str) -> u8 {
    match print!(rt; "{text}") {
        Ok(()) => 0,
        Err(fault) => {
            if fault.kind() != io::ErrorKind::BrokenPipe {
                say(rt, status_meaning(NOT_WRITTEN));
            }
            NOT_WRITTEN
        }
    }
}

/// Returns how many harts a check is for.
fn harts_of(wanted: &CheckWords) -> u32
    ensures { result ≤ MAX_HARTS }
{
    if wanted.harts <= MAX_HARTS {
        wanted.harts
    } else {
        MAX_HARTS
    }
}

/// Prints what would mislead in a program and a configuration.
fn look_over(rt: &HostRuntime, wanted: &CheckWords) -> Result<u8, NoMemory> {
    let alloc = rt.alloc();
    let conf = wanted.conf.as_ref().map(|name| name.as_str());
    let is_read = wanted.program.as_str() == STANDARD_INPUT || conf == Some(STANDARD_INPUT);
    let mut files = files_with_input(rt, is_read)?;
    match check(alloc, &wanted.program, conf, harts_of(wanted), &mut files) {
        Ok(text) => Ok(print(rt, &text)),
        Err(Refusal::Fault(fault)) => {
            let line = faults_text(alloc, &fault)?;
            say(rt, &String::from_utf8_lossy(alloc, &line)?);
            Ok(fault.status())
        }
        Err(Refusal::NoMemory) => Err(NoMemory {}),
    }
}

/// Does what the words ask for.
fn answer<R: Threads + Wait + Sync>(
    rt: &HostRuntime,
    threads: &R,
    words: &[String],
) -> Result<u8, NoMemory> {
    match read_wish(rt.alloc(), words, is_terminal(rt, STANDARD_OUTPUT))? {
        Wish::Print(text) => Ok(print(rt, &text)),
        Wish::Wrong(text) => {
            say(rt, &text);
            Ok(WRONG)
        }
        Wish::Check(wanted) => look_over(rt, &wanted),
        Wish::Serve(serving) => serve(rt, threads, &serving),
    }
}

fn main(rt: HostRuntime) -> ExitCode {
    let status = match read_words(&rt) {
        Ok(words) => answer(&rt, &rt, &words).unwrap_or(NO_MEMORY),
        Err(fault) if fault.kind() == io::ErrorKind::OutOfMemory => NO_MEMORY,
        Err(_) => refuse(&rt, "a word isn't UTF-8"),
    };
    if status == NO_MEMORY {
        say(&rt, status_meaning(NO_MEMORY));
    }
    ExitCode::from(status)
}
