//! Which files a call of `pd` may write.

use crate::case::Case;
use crate::given::Given;
use command_words::{Request, read_request};
use headline::log_name;
use outside::{MemFiles, OpenGate};
use pd_run::{Kind, Screen, log_kind, may_write, serve_words, written_kind};
use pd_words::{Serving, Wish, read_wish};
use pn_types::NoMemory;
use std::alloc::Global;
use std::io;
use std::sync::Wait;
use std::thread::Threads;

/// A file that a call writes.
#[derive(Clone, Copy, Drop)]
struct Written<'a> {
    /// Whether it takes the output or the log.
    what: &'static str,
    name: &'a str,
    kind: Kind,
    /// What the call writes there.
    bytes: &'a [u8],
}

/// Returns whether a file may be written, as the word of an answer.
fn answer_of(files: &mut MemFiles, written: &Written<'_>, force: bool) -> &'static str {
    if force || may_write(files, written.name, written.kind) {
        "yes"
    } else {
        "no"
    }
}

/// Prints of which kind a file is, whether it may be written, and whether it may be written once more after that.
fn print_guard(
    rt: HostRuntime,
    alloc: Global,
    case: &Case,
    written: &Written<'_>,
    force: bool,
) -> io::Result<()> {
    let mut files = case.files(alloc)?;
    let first = answer_of(&mut files, written, force);
    Given::of(alloc, written.name, written.bytes)?.give(alloc, &mut files)?;
    let again = answer_of(&mut files, written, false);
    let what = written.what;
    let name = written.name;
    let kind = written.kind.what();
    println!(rt; "{what} {name}, {kind}: {first}, again {again}")
}

/// Prints of each file that a request writes whether it may be written.
fn print_guards<R: Threads + Wait + Sync>(
    rt: HostRuntime,
    threads: &R,
    alloc: Global,
    case: &Case,
    serving: &Serving,
    request: &Request<'_>,
) -> io::Result<()> {
    let mut files = case.files(alloc)?;
    let mut screen = Screen {
        out: case.sink(alloc, &[])?,
        err: case.sink(alloc, &[])?,
    };
    let mut log = case.sink(alloc, &[])?;
    let words = serving.words.as_slice();
    let shown = serve_words(
        threads,
        alloc,
        words,
        &mut files,
        &mut screen,
        &mut log,
        &OpenGate,
    );
    let status = shown.status;
    println!(rt; "status {status}")?;
    if let Some(name) = &serving.output {
        let written = Written {
            what: "output",
            name,
            kind: written_kind(request),
            bytes: screen.out.bytes(),
        };
        print_guard(rt, alloc, case, &written, serving.force)?;
    }
    if let Some(name) = log_name(words) {
        let written = Written {
            what: "log",
            name,
            kind: log_kind(request),
            bytes: log.bytes(),
        };
        print_guard(rt, alloc, case, &written, serving.force)?;
    }
    Ok(())
}

/// Prints which files these words of `pd` may write: first as the files of the case are, and then after they were written.
pub fn answer_guard<R: Threads + Wait + Sync>(
    rt: HostRuntime,
    threads: &R,
    alloc: Global,
    case: &Case,
    words: &[String],
) -> io::Result<()> {
    let Wish::Serve(serving) = read_wish(alloc, words, false)? else {
        return println!(rt; "nothing is served\n");
    };
    match read_request(alloc, &serving.words) {
        Ok(request) => print_guards(rt, threads, alloc, case, &serving, &request)?,
        Err(_) => return Err(NoMemory {}.into()),
    }
    println!(rt; "")
}
