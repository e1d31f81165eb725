//! What is wrong with a configuration.

use pn_types::NoMemory;

/// What is wrong with an item.
#[derive(Clone, Copy, Debug, PartialEq, Eq, Drop)]
pub enum CheckKind {
    /// It names what doesn't stand in the configuration, or a variable that isn't its own.
    UnknownName,
    /// An item before it has the same name, or asks for the same.
    TwiceNamed,
    /// What it names can't be used so, or a number is out of its range.
    WrongKind,
    /// It is a hypothesis that is its own ancestor.
    CyclicParent,
    /// Its focus selects nothing in the tree.
    BadFocus,
}

/// The first faulty item of a configuration.
#[derive(Clone, Copy, Debug, PartialEq, Eq, Drop)]
pub struct CheckFault {
    /// The line at which it begins, from 1. An included item has the line of its include.
    pub line: u32,
    /// What is wrong with it.
    pub kind: CheckKind,
}

/// Why a configuration can't be used.
#[derive(Clone, Copy, Debug, PartialEq, Eq, Drop)]
pub enum CheckError {
    /// Memory ran out.
    NoMemory,
    /// The first faulty item.
    Fault(CheckFault),
}

impl From<NoMemory> for CheckError {
    ghost use Rattle.std.specs.Prelude.{◌≡◌};
    ghost use Rattle.mdl_check.specs.declared.fault.CheckError.TheVariants.{NoMemory};

    ghost from_gives = { λ _ e. e ≡ NoMemory };

    fn from(_error: NoMemory) -> CheckError {
        CheckError::NoMemory
    }
}
