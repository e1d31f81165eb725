//! The answer to a row is what bytes are as a log, or what the histogram of samples is:
//!
//! - `log DIGITS`: the settings and quanta of these bytes, and the bytes that are written of them; or the fault;
//! - `hist BINS SUM ..`: the width and the bins of samples of these sums, the first from tick 0 to tick 10, the next from
//!   there to tick 20, and so on.

use crate::starts::start_text;
use fold_hist::Hist;
use hex::{decode, encode};
use pn_types::{NoMemory, Quantum, Settings};
use quanta_log::{LogError, LogFault, read, write};
use std::alloc::Global;
use std::io;

/// The settings and quanta of a log.
fn parts_text(alloc: Global, settings: &Settings, quanta: &[Quantum]) -> Result<String, NoMemory> {
    let harts = settings.harts;
    let budget = settings.budget;
    let bins = settings.bins;
    let width = settings.width;
    let start = start_text(settings.start);
    let instruments = settings.instruments;
    let mut text = format!(in alloc;
        "harts {harts} budget {budget} bins {bins} width {width} {start} {instruments}"
    )?;
    for quantum in quanta {
        let worker = quantum.worker;
        let hart = quantum.hart;
        let turns = quantum.turns;
        let owns = quantum.owns;
        let entry = format!(in alloc; " ({worker} {hart} {turns} {owns})")?;
        text.push_str(entry.as_str())?;
    }
    Ok(text)
}

/// Why bytes are no log.
fn fault_text(alloc: Global, fault: LogFault) -> Result<String, NoMemory> {
    match fault {
        LogFault::BadHead => String::from_str(alloc, "bad head"),
        LogFault::Short(place) => format!(in alloc; "short {place}"),
        LogFault::BadField(place) => format!(in alloc; "bad field {place}"),
        LogFault::Trailing(place) => format!(in alloc; "trailing {place}"),
    }
}

/// What bytes are as a log.
fn log_text(alloc: Global, bytes: &[u8]) -> Result<String, NoMemory> {
    match read(alloc, bytes) {
        Ok((settings, quanta)) => {
            let parts = parts_text(alloc, &settings, &quanta)?;
            let log = write(alloc, &settings, &quanta)?;
            let digits = encode(alloc, log.as_slice())?;
            format!(in alloc; "{parts} {digits}")
        }
        Err(LogError::NoMemory) => Err(NoMemory {}),
        Err(LogError::Fault(fault)) => fault_text(alloc, fault),
    }
}

/// The sums that words give.
fn sums_of(alloc: Global, words: &str) -> Result<Vec<u64>, NoMemory> {
    let mut sums = Vec::new(alloc);
    for word in words.split(' ') {
        if let Ok(sum) = word.parse() {
            sums.push(sum)?;
        }
    }
    Ok(sums)
}

/// The histogram of samples of these sums.
fn hist_of(alloc: Global, bins: u16, sums: &[u64]) -> Result<Hist, NoMemory> {
    let mut hist = Hist::new(alloc, u32::from(bins).max(1))?;
    for i in 0..sums.len().min(1_000_000) {
        let from = 10 * i as u64;
        hist.push(sums[i], from, from + 10);
    }
    Ok(hist)
}

/// The width and bins of a histogram.
fn hist_text(alloc: Global, hist: &Hist) -> Result<String, NoMemory> {
    let width = hist.width();
    let mut text = format!(in alloc; "width {width}")?;
    for bin in hist.bins() {
        let from = bin.from;
        let to = bin.to;
        let sum = bin.sum;
        let entry = format!(in alloc; " ({from} {to} {sum})")?;
        text.push_str(entry.as_str())?;
    }
    Ok(text)
}

/// The answer to a row.
fn answer_text(alloc: Global, row: &str) -> Result<String, NoMemory> {
    match row.split_once(' ') {
        Some(("log", digits)) => match decode(alloc, digits) {
            Ok(bytes) => log_text(alloc, &bytes),
            Err(_) => String::from_str(alloc, "no bytes"),
        },
        Some(("hist", words)) => {
            let (bins, sums) = words.split_once(' ').unwrap_or((words, ""));
            let sums = sums_of(alloc, sums)?;
            let hist = hist_of(alloc, bins.parse().unwrap_or(1), &sums)?;
            hist_text(alloc, &hist)
        }
        _ => String::from_str(alloc, "no words"),
    }
}

/// Prints the answer to a row.
///
/// # Errors
///
/// Where the output can't be written, or memory runs out.
pub fn answer(rt: &impl Print, alloc: Global, row: &str) -> io::Result<()> {
    let text = answer_text(alloc, row)?;
    println!(rt; "{text}")
}
