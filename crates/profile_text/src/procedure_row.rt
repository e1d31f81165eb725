//! A row for each procedure of a program.

use pn_types::Proc;

/// A procedure with what a profile says of it.
#[derive(Clone, Copy, Drop)]
pub struct ProcedureRow<'a> {
    /// The procedure.
    pub proc: &'a Proc,
    /// How often its first word was executed, or less.
    pub entered: u64,
    /// How often all its words were executed, or less.
    pub ticks: u64,
}
