//! Logs from files.

ghost use Rattle.std.specs.Prelude.{◌≡◌, ◌≤◌, IfOk, length};
ghost use Rattle.commands.specs.Logs.{misfit_fault, version_in, IsLog, MeansLog};
ghost use Rattle.commands.specs.FileReadings.{reads, Looks};
ghost use Rattle.pn_types.specs.declared.limits.TheConstants.{MAX_QUANTA};
ghost use Rattle.quanta_log.specs.Fields.{entry_len, head_len, log_len};
ghost use Rattle.quanta_log.specs.Meaning.{begins_as};
ghost use Rattle.quanta_log.specs.Spelling.{CanSpell};
ghost use Rattle.quanta_log.specs.declared.version.Version.TheVariants as version;
ghost use Rattle.refusals.specs.Refusals.{Comes};
ghost use Rattle.whole_run.specs.Replayed.{NamesQuantum};

use crate::files::read_file;
use outside::Files;
use pn_types::{Quantum, Seq, Settings};
use quanta_log::{LogError, Version, read};
use refusals::{Fault, LogCause, Refusal, bad_log};
use std::alloc::Global;
use whole_run::Misfit;

/// The greatest length of a log in bytes.
pub const LOG_LIMIT: u64 = 268_435_496;

/// A log of a run.
#[derive(Drop)]
pub struct Log {
    /// The numbers of the run.
    pub settings: Settings,
    /// Its quanta.
    pub quanta: Seq<Quantum>,
    /// The version of the log's form.
    pub version: Version,
}

/// Returns whether bytes begin as a log of the version that is written, or are the beginning of one.
fn is_written_now(bytes: &[u8]) -> bool
    ensures { result ≡ begins_as version.Two bytes.now }
{
    b"PDYNLOG2".starts_with(&bytes[..bytes.len().min(8)])
}

/// Returns the version of a log's bytes.
fn version(bytes: &[u8]) -> Version
    ensures { result ≡ version_in bytes.now }
{
    if is_written_now(bytes) {
        Version::Two
    } else {
        Version::One
    }
}

/// Returns the log of bytes.
fn log_of(alloc: Global, bytes: &[u8]) -> Result<Log, Refusal>
    ensures log { Comes result (MeansLog bytes.now) }
    ensures spelled { IfOk result (λ log. CanSpell version.Two log.settings log.quanta) }
{
    match read(alloc, bytes) {
        Ok((settings, quanta)) => Ok(Log {
            settings,
            quanta: Seq::from_vec(quanta),
            version: version(bytes),
        }),
        Err(LogError::NoMemory) => Err(Refusal::NoMemory),
        Err(LogError::Fault(fault)) => Err(bad_log(fault)),
    }
}

/// Reads a log.
///
/// # Errors
///
/// `Refusal::NoMemory` where memory runs out, or the first fault that is due.
pub fn read_log<F: Files>(alloc: Global, files: &mut F, name: &str) -> Result<Log, Refusal>
    ensures log { Comes result (IsLog (reads (F.holds files.old) (F.faults files.old) (F.faults files.new)) name.now) }
    ensures spelled { IfOk result (λ log. CanSpell version.Two log.settings log.quanta) }
    ensures looks { Looks F.holds F.faults files.old files.new result }
{
    let too_long = Fault::BadLog(LOG_LIMIT, LogCause::TooLong);
    let bytes = read_file(alloc, files, name, LOG_LIMIT, too_long)?;
    log_of(alloc, bytes.as_slice())
}

/// Returns the lengths in bytes of a version's head and entries.
fn lengths(version: Version) -> (u64, u64)
    ensures { (result.0 ≡ head_len version) × (result.1 ≡ entry_len version) }
{
    match version {
        Version::One => (40, 16),
        Version::Two => (48, 8),
    }
}

/// Returns the place of the first byte of the entry of a number.
fn entry_place(version: Version, number: u64) -> u64
    requires { number ≤ MAX_QUANTA }
    ensures { result ≡ log_len version number }
{
    let (head, entry) = lengths(version);
    head + number * entry
}

/// Returns why a log's quanta are no whole run.
pub fn misfit_fault(log: &Log, misfit: Misfit) -> Fault
    requires few { length log.now.quanta ≤ MAX_QUANTA }
    requires within { NamesQuantum (length log.now.quanta) misfit }
    ensures { result ≡ misfit_fault log.now misfit }
{
    let version = log.version;
    match misfit {
        Misfit::NotRunnable(number, hart) => {
            Fault::BadLog(entry_place(version, number), LogCause::NotRunnable(hart))
        }
        Misfit::OtherOwns(number, told, owns) => {
            Fault::BadLog(
                entry_place(version, number),
                LogCause::OtherOwns(told, owns),
            )
        }
        Misfit::Unfinished => {
            let end = entry_place(version, log.quanta.as_slice().len() as u64);
            Fault::BadLog(end, LogCause::Unfinished)
        }
    }
}
