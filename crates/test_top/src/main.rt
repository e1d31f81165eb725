//! Runs the top call over files and sinks in memory, as the lines of the standard input say, and prints the status and
//! what the sinks gained.
//!
//! - `new`: no files, no words, sinks that take everything.
//! - `file NAME`: a file without bytes so far. `absent NAME`: a name that can't be read.
//! - `|TEXT`: TEXT and a line's end after the last file's bytes. `hex DIGITS`: these bytes. `fill COUNT DIGITS`: COUNT times
//!   these bytes. `cut COUNT`: only the first COUNT bytes stay. `byte PLACE DIGITS`: the bytes from that place on are these.
//! - `fail NUMBER`: this reading of the last file fails, counted from 0.
//! - `piece COUNT`: a writing takes at most COUNT bytes. `fail-out NUMBER`, `fail-log NUMBER`: this writing fails.
//! - `words WORDS`: the words, between single spaces, are served, and of the log that is left the first 64 bytes are printed. `not-text`:
//!   words that aren't text are served.
//! - `begin COUNT WORDS`: these words are served, and only COUNT bytes of what the output gained are printed.
//! - `keep NAME WORDS`: these words are served, and the log that they leave isn't printed, but is the file NAME from then on.
//! - `meet NAME WORDS`: the same, and two workers meet before the second quantum of each, or under `visi` the run before its second quantum
//!   and a view after its second sample; of what is left only the status is printed, and whether they met. `compare WORDS`: these words
//!   are served, and it is printed whether the output gains the same as then.
//! - `count WORDS`: these words are served by two workers, and it is printed whether each asked for a quantum as often as the log that is
//!   left says, with the numbers from 0 on.
//! - `deliver LOG OUTPUT`: these two texts are delivered, and what the log and the output gained is printed.
//! - `row OPTIONS`: the program `p` under the configuration `c` is run with these options, and replayed; by the calls of a session alone
//!   it is run along the log that `run` left. The session's report is printed, and whether the commands' are the same.
//! - `pd WORDS`: what a person is shown who types these words of `pd`: the status, how much standard output gained and its first line, and
//!   what standard error gained.
//! - `guard WORDS`: which files these words of `pd` write, of which kinds, and whether each may be written, and written once more after that.
//!
//! Other lines say nothing.
#![tactic(auto)]

mod along;
mod case;
mod given;
mod guards;
mod line;
mod meeting;
mod person;
mod served;
mod tally;

use crate::case::Case;
use crate::line::Line;
use std::alloc::Global;
use std::io;
use std::sync::Wait;
use std::thread::Threads;

/// Takes up a line, or prints it and what comes of it.
fn answer<R: Threads + Wait + Sync>(
    rt: HostRuntime,
    threads: &R,
    alloc: Global,
    case: &mut Case,
    text: &str,
) -> io::Result<()> {
    match Line::of(text) {
        Line::Given(word, rest) => Ok(case.take(alloc, word, rest)?),
        Line::Call(call) => {
            println!(rt; "{text}")?;
            case.answer(rt, threads, alloc, call)
        }
        Line::Nothing => Ok(()),
    }
}

fn main(rt: HostRuntime) -> io::Result<()> {
    let alloc = rt.alloc();
    let mut case = Case::new(alloc);
    for line in rt.lines(alloc) {
        answer(rt, &rt, alloc, &mut case, line?.as_str())?;
    }
    Ok(())
}
