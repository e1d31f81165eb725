//! What of a report has to be heeded.

use crate::causes::cause_meaning;
use crate::texts::add;
use pn_text::next_line;
use pn_types::NoMemory;
use std::alloc::Global;
use std::str::from_utf8;

/// How a hart ended, and what that means.
struct End {
    word: &'static str,
    says: &'static str,
}

const ENDS: [End; 8] = [
    End {
        word: "budget",
        says: "its ticks were used up; give it more by --budget",
    },
    End {
        word: "cut",
        says: "the run had as many quanta as it can have; make them longer by --quantum",
    },
    End {
        word: "illegal",
        says: "that word is no instruction; compile all parts with -march=rv64ima",
    },
    End {
        word: "break",
        says: "that word is an ebreak, at which a program gives up",
    },
    End {
        word: "misaligned",
        says: "an address isn't a multiple of its size; look for a wrong pointer",
    },
    End {
        word: "access",
        says: "no memory is there; look for a null pointer, an index too large, a stack above 65,536 bytes, or gp unset (-mno-relax)",
    },
    End {
        word: "text-access",
        says: "instructions can't be read or written; give data an address of its own, as by -Wl,-Tdata=0x1000000",
    },
    End {
        word: "fetch-outside",
        says: "no instructions are there; look for a wrong function pointer, or a start that returns and doesn't exit",
    },
];

/// The lines of a report that are left.
#[derive(Drop)]
struct Lines<'a> {
    rest: &'a [u8],
}

impl<'a> Lines<'a> {
    /// Takes the next line; what isn't text is an empty one.
    fn next(&mut self) -> Option<&'a str> {
        let (line, rest) = next_line(self.rest)?;
        self.rest = rest;
        Some(from_utf8(line).unwrap_or(""))
    }

    /// Passes bytes.
    fn pass(&mut self, count: usize) {
        self.rest = self.rest.get(count..).unwrap_or(b"");
    }
}

/// What was read of a report so far.
#[derive(Drop)]
struct Reading {
    text: String,
    /// How many nodes the search has.
    nodes: usize,
    /// How many of them weren't tested.
    waiting: usize,
}

/// Adds how a hart ended, and what that means.
fn add_end<'t>(
    text: &mut String,
    number: &'t str,
    ticks: &'t str,
    end: &'t str,
    says: &'t str,
) -> Result<(), NoMemory> {
    add(
        text,
        "pd: hart {} ended after {} ticks by {}: {}\n",
        &[number, ticks, end, says],
    )
}

/// Adds why a request was refused, and what that means.
fn add_refusal<'t>(
    text: &mut String,
    request: &'t str,
    cause: &'t str,
    says: &'t str,
) -> Result<(), NoMemory> {
    add(text, "pd: refused {} ({}). {}\n", &[request, cause, says])
}

impl Reading {
    /// Takes up how a hart ended: its number, its ticks, and the end with its place.
    fn take_hart(&mut self, hart: &str) -> Result<(), NoMemory> {
        let Some((number, rest)) = hart.split_once(" ticks ") else {
            return Ok(());
        };
        let Some((ticks, end)) = rest.split_once(' ') else {
            return Ok(());
        };
        let word = end.split(' ').next();
        match ENDS.iter().find(|row| word == Some(row.word)) {
            Some(row) => add_end(&mut self.text, number, ticks, end, row.says),
            None => Ok(()),
        }
    }

    /// Takes up a line that isn't of the program's own output.
    fn take(&mut self, line: &str) -> Result<(), NoMemory> {
        if let Some(hart) = line.strip_prefix("hart ") {
            return self.take_hart(hart);
        }
        if line.starts_with("node ") {
            self.nodes = self.nodes.saturating_add(1);
            if line.contains(" waiting seen ") {
                self.waiting = self.waiting.saturating_add(1);
            }
        }
        match line
            .strip_prefix("refused ")
            .and_then(|request| request.rsplit_once(": "))
        {
            Some((request, cause)) => {
                add_refusal(&mut self.text, request, cause, cause_meaning(cause))
            }
            None => Ok(()),
        }
    }

    /// Adds a line where most nodes of the search weren't tested.
    fn add_search(&mut self, alloc: Global) -> Result<(), NoMemory> {
        if self.waiting <= self.nodes / 2 {
            return Ok(());
        }
        let waiting = self.waiting.to_string(alloc)?;
        let nodes = self.nodes.to_string(alloc)?;
        add(
            &mut self.text,
            "pd: {} of the search's {} tests weren't done when the run ended; take a longer run, a smaller --width or window, or a greater cost\n",
            &[waiting.as_str(), nodes.as_str()],
        )
    }
}

/// Returns what has to be heeded of a profile, of which this is the first line: that it leaves ticks unattributed.
fn profile_note(line: &str) -> &'static str {
    let is_profile = line.starts_with("profile harts ") || line.starts_with("ticks ");
    let is_exact = line.contains(" untold 0 ") || !line.contains(" untold");
    if is_profile && !is_exact {
        "pd: indirect jumps lead to words at which no block is known to begin; --also ADDR,.. says where, as in a jump table\n"
    } else {
        ""
    }
}

/// Returns the lines of a report, without its first one and those of the program's own output; none where the text is no report.
pub(crate) fn report_lines<'a>(alloc: Global, report: &'a [u8]) -> Result<Vec<&'a str>, NoMemory> {
    let mut lines = Lines { rest: report };
    let mut all = Vec::new(alloc);
    if lines.next() != Some("paradyn report 1") {
        return Ok(all);
    }
    for _ in 0..report.len() {
        let Some(line) = lines.next() else {
            break;
        };
        match line.strip_prefix("output ") {
            // The program's own bytes, and the line's end after them.
            Some(count) => lines.pass(count.parse().unwrap_or(0usize).saturating_add(1)),
            None => all.push(line)?,
        }
    }
    Ok(all)
}

/// Returns a line on each thing of a report that has to be heeded: requests that were refused, harts that were cut or that ended by a fault,
/// a search of which most wasn't tested, and a profile's unattributed ticks. Empty where there is none, and where the text is neither a
/// report nor a profile.
pub(crate) fn notes(alloc: Global, report: &[u8]) -> Result<String, NoMemory> {
    let lines = report_lines(alloc, report)?;
    let mut reading = Reading {
        text: String::new(alloc),
        nodes: 0,
        waiting: 0,
    };
    if lines.is_empty() {
        let first = Lines { rest: report }.next().unwrap_or("");
        reading.text.push_str(profile_note(first))?;
    }
    for line in &lines {
        reading.take(line)?;
    }
    reading.add_search(alloc)?;
    Ok(reading.text)
}
