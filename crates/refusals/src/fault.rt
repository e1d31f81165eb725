//! Why a command is refused.

ghost use Rattle.std.specs.Prelude.{◌≡◌};
ghost use Rattle.refusals.specs.Faults.{fault_status};

use crate::configuration::ConfFault;
use crate::log::LogCause;
use crate::program::ProgramFault;
use pn_types::{PickCause, Text};

/// Why the top call has no text to give.
#[derive(Drop)]
pub enum Fault {
    /// The words are no command.
    Usage,
    /// The file of this name could not be read.
    FileFault(Text),
    /// The program is faulty.
    BadProgram(ProgramFault),
    /// The configuration is faulty.
    BadConf(ConfFault),
    /// The metric of this name can't be measured at the focus of this text.
    BadPick(Text, Text, PickCause),
    /// The log is faulty at this place, in bytes from its front.
    BadLog(u64, LogCause),
    /// This many basic blocks have a first word that can be moved, and a hart has fewer slots.
    TooManyBlocks(u32),
    /// The directives are faulty.
    BadDirectives(ConfFault),
    /// The report is faulty at this place, in bytes from its front.
    BadReport(u64),
    /// The second of two reports is faulty at this place, in bytes from its front.
    BadNewReport(u64),
    /// No procedure of the program has this name.
    NoProcedure(Text),
    /// The program has no line table.
    NoLines,
    /// The line table is faulty at this place, in bytes from its front.
    BadLines(u64),
}

impl Fault {
    /// Returns the status of the program.
    pub fn status(&self) -> u8
        ensures { result ≡ fault_status self.now }
    {
        match self {
            Fault::Usage => 2,
            Fault::FileFault(_) => 3,
            Fault::BadProgram(_) => 4,
            Fault::BadConf(_) => 5,
            Fault::BadPick(_, _, _) => 6,
            Fault::BadLog(_, _) => 9,
            Fault::TooManyBlocks(_) => 11,
            Fault::BadDirectives(_) => 12,
            Fault::BadReport(_) | Fault::BadNewReport(_) => 13,
            Fault::NoProcedure(_) => 14,
            Fault::NoLines | Fault::BadLines(_) => 15,
        }
    }
}
