//! Places of configurations and of directives, as faults tell them.

use crate::grammar::{Form, add_form};
use crate::source_lines::{add_line, add_line_at, line_at};
use pn_types::NoMemory;
use std::alloc::Global;

/// Where a text has a fault, and of which kind it is.
#[derive(Clone, Copy, Drop)]
pub(crate) struct TextPlace<'a> {
    /// The line, from 1, or 0 where none is told.
    pub(crate) line: u32,
    /// The column, from 1, or 0 where none is told.
    pub(crate) column: u32,
    /// The kind of the fault.
    pub(crate) kind: &'a str,
}

impl<'a> TextPlace<'a> {
    /// Returns the place that a fault tells: `line L column C: KIND`.
    pub(crate) fn of(fault: &'a str) -> Option<TextPlace<'a>> {
        let (line, rest) = fault.strip_prefix("line ")?.split_once(" column ")?;
        let (column, kind) = rest.split_once(": ")?;
        Some(TextPlace {
            line: line.parse().ok()?,
            column: column.parse().ok()?,
            kind,
        })
    }
}

/// What stands at a fault, and what is said of it.
struct Hint {
    begins: &'static [u8],
    says: &'static str,
}

/// What is said of an `else`.
const NO_ELSE: &str = "There is no else: write a second if.\n";

const HINTS: [Hint; 11] = [
    Hint {
        begins: b"#",
        says: "Comments begin with //.\n",
    },
    Hint {
        begins: b"/*",
        says: "Comments begin with //, and go on to the end of the line.\n",
    },
    Hint {
        begins: b"%",
        says: "There is no %: thresholds count in 1,000 ticks, so that 600 is 60 %.\n",
    },
    Hint {
        begins: b".",
        says: "Numbers are whole.\n",
    },
    Hint {
        begins: b"{",
        says: "There is no brace here, and statements need none around them.\n",
    },
    Hint {
        begins: b"else",
        says: NO_ELSE,
    },
    Hint {
        begins: b"+",
        says: "There is no +: c++ adds one.\n",
    },
    Hint {
        begins: b"-",
        says: "There is no -, and no number below 0: c-- takes one away.\n",
    },
    Hint {
        begins: b"&",
        says: "There is no and: write one if within the other.\n",
    },
    Hint {
        begins: b"|",
        says: "There is no or: write two statements.\n",
    },
    Hint {
        begins: b"'",
        says: "Put texts between double quotes.\n",
    },
];

/// Returns what is said of what stands in a line between two parts of it, or nothing.
fn hint_at(before: &[u8], part: &[u8]) -> &'static str {
    // It could be a variable's name, up to the word after it.
    if before.trim_ascii_end().ends_with(b"else") {
        return NO_ELSE;
    }
    match HINTS.iter().find(|hint| part.starts_with(hint.begins)) {
        Some(hint) => hint.says,
        None => "",
    }
}

/// Adds the line of a fault of form with a sign below it, and how that is written which stands there.
pub(crate) fn add_form_fault(
    alloc: Global,
    text: &mut String,
    forms: &[Form],
    source: &[u8],
    place: &TextPlace<'_>,
) -> Result<(), NoMemory> {
    if source.starts_with(b"\x7fELF") {
        return text.push_str(
            "That is a program (an ELF file) and not a text: the program comes first on the command line.\n",
        );
    }
    let line = line_at(source, place.line as usize).unwrap_or(b"");
    let column = place.column as usize;
    if line.trim_ascii().is_empty() {
        text.push_str("The file ends there, where more has to come.\n")?;
    } else {
        add_line_at(alloc, text, line, column)?;
    }
    let (before, part) = line.split_at(line.len().min(column.saturating_sub(1)));
    text.push_str(hint_at(before, part))?;
    if matches!(place.kind, "unexpected" | "bad byte") {
        return add_form(text, forms, source, place, part);
    }
    Ok(())
}

/// Adds the line at which a faulty item begins.
pub(crate) fn add_item_line(
    alloc: Global,
    text: &mut String,
    source: &[u8],
    place: &TextPlace<'_>,
) -> Result<(), NoMemory> {
    match line_at(source, place.line as usize) {
        Some(line) => add_line(alloc, text, line.trim_ascii()),
        None => Ok(()),
    }
}
