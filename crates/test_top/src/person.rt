//! What a person is shown: the words of `pd`.

ghost use Rattle.std.specs.Prelude.{◌≤◌};

use crate::case::Case;
use crate::served::print_bytes;
use headline::faults_text;
use outside::OpenGate;
use pd_hints::{check, remarks};
use pd_run::{Screen, serve_words};
use pd_words::{CheckWords, Wish, read_wish};
use pn_types::{MAX_HARTS, NoMemory};
use refusals::Refusal;
use std::alloc::Global;
use std::io;
use std::sync::Wait;
use std::thread::Threads;

/// What a person is shown of words.
#[derive(Drop)]
struct Sight {
    status: u8,
    // How many bytes standard output gained, and the first line of them.
    count: usize,
    front: String,
    // What standard error gained.
    err: String,
}

/// Returns the sight of a text on standard output, and of one on standard error.
fn text_sight(alloc: Global, out: &str, err: String) -> Result<Sight, NoMemory> {
    Ok(Sight {
        status: 0,
        count: out.len(),
        front: String::from_str(alloc, out.lines().next().unwrap_or(""))?,
        err,
    })
}

/// Returns the sight of a status and a text on standard error.
fn fault_sight(alloc: Global, status: u8, err: String) -> Sight {
    Sight {
        status,
        count: 0,
        front: String::new(alloc),
        err,
    }
}

/// Serves words of `paradyn` for a person.
fn serve<R: Threads + Wait + Sync>(
    threads: &R,
    alloc: Global,
    case: &Case,
    words: &[String],
) -> Result<Sight, NoMemory> {
    let mut files = case.files(alloc)?;
    let mut screen = Screen {
        out: case.sink(alloc, &[])?,
        err: case.sink(alloc, &[])?,
    };
    let mut log = case.sink(alloc, &[])?;
    let shown = serve_words(
        threads,
        alloc,
        words,
        &mut files,
        &mut screen,
        &mut log,
        &OpenGate,
    );
    let remarks = remarks(alloc, shown.status, &shown.texts, words, &mut files)?;
    if shown.status == 0 {
        let out = String::from_utf8_lossy(alloc, shown.texts.out.as_slice())?;
        return text_sight(alloc, &out, remarks);
    }
    let mut err = String::from_utf8_lossy(alloc, screen.err.bytes())?;
    err.push_str(&remarks)?;
    Ok(fault_sight(alloc, shown.status, err))
}

/// Returns how many harts a check is for.
fn harts_of(wanted: &CheckWords) -> u32
    ensures { result ≤ MAX_HARTS }
{
    if wanted.harts <= MAX_HARTS {
        wanted.harts
    } else {
        MAX_HARTS
    }
}

/// Looks a program and a configuration over.
fn look_over(alloc: Global, case: &Case, wanted: &CheckWords) -> Result<Sight, NoMemory> {
    let mut files = case.files(alloc)?;
    let conf = wanted.conf.as_ref().map(|name| name.as_str());
    match check(alloc, &wanted.program, conf, harts_of(wanted), &mut files) {
        Ok(text) => Ok(fault_sight(alloc, 0, text)),
        Err(Refusal::Fault(fault)) => {
            let line = faults_text(alloc, &fault)?;
            Ok(fault_sight(
                alloc,
                fault.status(),
                String::from_utf8_lossy(alloc, &line)?,
            ))
        }
        Err(Refusal::NoMemory) => Err(NoMemory {}),
    }
}

/// Returns what a person is shown of these words of `pd`.
fn seen<R: Threads + Wait + Sync>(
    threads: &R,
    alloc: Global,
    case: &Case,
    words: &[String],
) -> Result<Sight, NoMemory> {
    match read_wish(alloc, words, false)? {
        Wish::Print(text) => text_sight(alloc, &text, String::new(alloc)),
        Wish::Wrong(text) => Ok(fault_sight(alloc, 2, text)),
        Wish::Check(wanted) => look_over(alloc, case, &wanted),
        Wish::Serve(serving) => serve(threads, alloc, case, &serving.words),
    }
}

/// Prints what a person is shown of these words of `pd`: the status, how many bytes standard output gained and the first line of them,
/// and what standard error gained, or what a look-over found.
pub fn answer_person<R: Threads + Wait + Sync>(
    rt: HostRuntime,
    threads: &R,
    alloc: Global,
    case: &Case,
    words: &[String],
) -> io::Result<()> {
    let sight = seen(threads, alloc, case, words)?;
    let Sight {
        status,
        count,
        front,
        err,
    } = &sight;
    println!(rt; "status {status} out {count} {front}")?;
    print_bytes(rt, err.as_bytes());
    println!(rt; "")
}
