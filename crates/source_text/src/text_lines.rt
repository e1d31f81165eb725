//! What is looked up for a text by source lines.

use crate::files::SourceLines;
use line_table::{Row, UnitPaths};
use profile_text::ProfiledText;

/// A program's text with its profile and its source lines.
#[derive(Drop)]
pub struct TextLines<'a> {
    /// The text.
    pub text: &'a ProfiledText<'a>,
    /// Its source lines.
    pub lines: &'a SourceLines<'a>,
    /// Their units, by ascending place of their headers.
    pub units: Vec<&'a UnitPaths>,
    /// The rows of their line table, by ascending place.
    pub rows: Vec<Row>,
    /// The ticks of all harts.
    pub all: u64,
}
