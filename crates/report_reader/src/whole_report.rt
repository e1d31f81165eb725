//! A report that was read.

use report::ReportParts;

/// A report. Of a node of its search it has what is printed: the numbers of its phase and its hypothesis, and how many samples
/// a node with a verdict took, are 0, and its focus is the whole program.
#[derive(Drop)]
pub struct Report {
    /// What it says of the run.
    pub parts: ReportParts,
    /// How many function symbols of the program are no procedures.
    pub skipped: u32,
}
