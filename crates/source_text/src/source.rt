//! Lines of a program's source.

/// A line of a source file.
#[derive(Clone, Copy, Debug, PartialEq, Eq, Drop)]
pub struct Source {
    /// Where the header of the file's unit is, in bytes from the front of `.debug_line`.
    pub unit: u64,
    /// The number of the file among those of the unit: from 1 on in version 4, from 0 on in version 5.
    pub file: u64,
    /// The line, from 1 on.
    pub line: u32,
}

/// How often words of one source were executed.
#[derive(Clone, Copy, Debug, PartialEq, Eq, Drop)]
pub struct SourceTicks {
    /// The source, where it is known.
    pub source: Option<Source>,
    /// How often its words were executed together, or less.
    pub ticks: u64,
}
