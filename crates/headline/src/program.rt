//! The program as a call: words, files and sinks in, a status out.

ghost use Rattle.std.specs.Prelude.{◌≡◌, MatchOption, map, string_bytes};
ghost use Rattle.std.specs.Process.{exit_status};
ghost use Rattle.headline.specs.Program.{IsTold, words_read};

use crate::laws::owed_is_honest;
use crate::top::paradyn;
use outside::{Files, Gate, Sink};
use std::alloc::Global;
use std::process::ExitCode;
use std::sync::Wait;
use std::thread::Threads;
use whole_run::Progress;

/// The words of the command line without the program's name, as far as they could be read.
#[derive(Drop)]
pub enum Words {
    /// All of them.
    Read(Vec<String>),
    /// One of them isn't text, so they are no command.
    NotText,
    /// Memory ran out before all were read.
    NoMemory,
}

/// Does what `paradyn` does, and proves what its texts tell.
fn tell<R: Threads + Wait + Sync, F: Files, K: Sink, L: Sink, G: Gate + Progress + Sync>(
    rt: &R,
    alloc: Global,
    words: &[String],
    files: &mut F,
    out: &mut K,
    log: &mut L,
    gate: &G,
) -> u8
    ensures { IsTold F.holds F.faults files.old files.new
        (map string_bytes words.now) K.has K.faults out.old out.new L.has L.faults log.old log.new result }
{
    owed_is_honest::<F>();
    paradyn(rt, alloc, words, files, out, log, gate)
}

/// Serves the words of a command line, and returns the status with which the program ends. With status 0 the texts that the sinks
/// gained tell of the files that the words name what the headline says of the command.
pub fn run_program<R: Threads + Wait + Sync, F: Files, K: Sink, L: Sink, G: Gate + Progress + Sync>(
    rt: &R,
    alloc: Global,
    words: &Words,
    files: &mut F,
    out: &mut K,
    log: &mut L,
    gate: &G,
) -> ExitCode
    // Where memory ran out before the words were read, nothing was read or written.
    ensures { MatchOption (words_read words.now) ((exit_status result ≡ 8)
        × (out.new ≡ out.old) × (log.new ≡ log.old) × (files.new ≡ files.old))
        (λ read. IsTold F.holds F.faults files.old files.new read K.has K.faults out.old out.new L.has L.faults log.old log.new
        (exit_status result)) }
{
    match words {
        Words::Read(words) => ExitCode::from(tell(rt, alloc, words, files, out, log, gate)),
        Words::NotText => ExitCode::from(tell(rt, alloc, &Vec::new(alloc), files, out, log, gate)),
        Words::NoMemory => ExitCode::from(8),
    }
}
