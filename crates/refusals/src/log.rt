//! The faults of logs.

ghost use Rattle.std.specs.Prelude.{◌≡◌, ◌++◌, OnOk};
ghost use Rattle.refusals.specs.Faults.{log_text};

use pn_types::NoMemory;
use std::alloc::Global;

/// What is wrong with a log.
#[derive(Clone, Copy, PartialEq, Eq, Drop)]
pub enum LogCause {
    /// It doesn't begin as a log.
    BadHead,
    /// It ends before its head does or the quanta that it counts.
    Short,
    /// A number outside its range.
    BadField,
    /// Bytes after its last quantum.
    Trailing,
    /// It has more bytes than any log can have.
    TooLong,
    /// A quantum of this hart where it can take no turn.
    NotRunnable(u32),
    /// A quantum's own words differ: those of the log, and then those that the run executed.
    OtherOwns(u32, u32),
    /// Its quanta end before the run does.
    Unfinished,
}

/// Adds what is wrong with a log.
pub(crate) fn add_log(alloc: Global, line: &mut Vec<u8>, cause: LogCause) -> Result<(), NoMemory>
    ensures { OnOk result (line.new.items ≡ line.old.items ++ log_text cause) }
{
    match cause {
        LogCause::BadHead => line.extend_from_slice(b"bad head"),
        LogCause::Short => line.extend_from_slice(b"short"),
        LogCause::BadField => line.extend_from_slice(b"bad field"),
        LogCause::Trailing => line.extend_from_slice(b"trailing"),
        LogCause::TooLong => line.extend_from_slice(b"too long"),
        LogCause::NotRunnable(hart) => {
            line.extend_from_slice(format!(in alloc; "hart {hart} not runnable")?.as_bytes())
        }
        LogCause::OtherOwns(log, run) => {
            line.extend_from_slice(format!(in alloc; "owns {log} not {run}")?.as_bytes())
        }
        LogCause::Unfinished => line.extend_from_slice(b"unfinished"),
    }
}
