//! How served words ended, and what is printed of it.

use hex::encode;
use outside::{MemSink, StdSink, write_all};
use std::alloc::Global;
use std::io;
use std::process::ExitCode;

/// How many bytes of a log are printed.
const LOG_FRONT: usize = 64;

/// How words that were served ended, and what the sinks have.
pub struct Served {
    pub exit: ExitCode,
    pub out: MemSink,
    pub log: MemSink,
}

// Its drop is a function of its own, so that callers need not prove the drops of both sinks.
impl Drop for Served {
    fn drop(self) {
        let Served {
            exit: _,
            out: _,
            log: _,
        } = self;
    }
}

/// Prints bytes as they are.
pub fn print_bytes(rt: HostRuntime, bytes: &[u8]) {
    let mut printed = StdSink::new(rt);
    let _ = write_all(&mut printed, bytes);
}

/// Prints what a sink has.
pub fn print_sink(rt: HostRuntime, name: &str, sink: &MemSink) -> io::Result<()> {
    print!(rt; "{name} '")?;
    print_bytes(rt, sink.bytes());
    println!(rt; "'")
}

/// Prints the report of a session, and whether `run` and `replay` print the same.
pub fn print_report(rt: HostRuntime, report: &[u8], run: &[u8], replay: &[u8]) -> io::Result<()> {
    let by_run = sameness(report, run);
    let by_replay = sameness(report, replay);
    println!(rt; "run {by_run} replay {by_replay}")?;
    print_bytes(rt, report);
    println!(rt; "")
}

/// Says whether two slices have the same bytes.
pub fn sameness(bytes: &[u8], others: &[u8]) -> &'static str {
    if bytes == others { "same" } else { "other" }
}

impl Served {
    /// Prints how the program ended, and what the output gained, at most `most` bytes.
    pub fn print_output(&self, rt: HostRuntime, most: usize) -> io::Result<()> {
        let exit = self.exit;
        let out = self.out.bytes();
        let count = out.len();
        let logged = self.log.bytes().len();
        println!(rt; "{exit:?} out {count} log {logged}")?;
        print_bytes(rt, &out[..count.min(most)]);
        Ok(())
    }

    /// Prints the front of what the log gained, and an empty line.
    pub fn print_log(&self, rt: HostRuntime, alloc: Global) -> io::Result<()> {
        let log = self.log.bytes();
        if log.is_empty() {
            return println!(rt; "");
        }
        let digits = encode(alloc, &log[..log.len().min(LOG_FRONT)])?;
        println!(rt; "log {}\n", digits.as_str())
    }

    /// Prints how the program ended, and whether its two workers met.
    pub fn print_meeting(&self, rt: HostRuntime, met: bool) -> io::Result<()> {
        let exit = self.exit;
        let met = if met { "met" } else { "missed" };
        println!(rt; "{exit:?} {met}\n")
    }

    /// Prints how the program ended, and whether each call was counted.
    pub fn print_counted(&self, rt: HostRuntime, counted: bool) -> io::Result<()> {
        let exit = self.exit;
        let counted = if counted { "counted" } else { "miscounted" };
        println!(rt; "{exit:?} {counted}\n")
    }

    /// Prints how the program ended, and whether the output gained these bytes.
    pub fn print_compared(&self, rt: HostRuntime, report: &[u8]) -> io::Result<()> {
        let exit = self.exit;
        let same = sameness(self.out.bytes(), report);
        println!(rt; "{exit:?} {same} report\n")
    }
}
