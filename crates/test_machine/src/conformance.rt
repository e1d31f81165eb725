//! Compares what words mean here with what they mean elsewhere.
//!
//! A row has columns, which tabs separate and whose numbers are hexadecimal:
//!
//! - ten columns: what one instruction did on another machine ([`vector`]);
//! - five columns: whether a word is an instruction, and whether it names x31 ([`listed`]);
//! - two or three columns: words that an assembler made of a text, which ours has to make of it too ([`assembled`]).
//!
//! Each row that doesn't agree and each that can't be read is printed, and at the end the counts.

mod assembled;
mod columns;
mod counts;
mod executor;
mod line;
mod listed;
mod setting;
mod source;
mod vector;

use counts::Counts;
use executor::Machine;
use line::Line;
use pn_types::NoMemory;
use std::alloc::Global;
use std::io;

/// The machine on which words are executed, and what became of the rows so far.
#[derive(Drop)]
pub struct Judge {
    machine: Machine,
    counts: Counts,
}

impl Judge {
    /// A machine at its start, and no rows.
    ///
    /// # Errors
    ///
    /// `NoMemory` if memory runs out.
    pub fn new(alloc: Global) -> Result<Judge, NoMemory> {
        Ok(Judge {
            machine: Machine::new(alloc)?,
            counts: Counts::default(),
        })
    }

    /// Judges a row, counts it, and prints it where it doesn't agree.
    pub fn answer(&mut self, rt: &impl Print, alloc: Global, row: &str) -> io::Result<()> {
        let Some(line) = Line::parse(row) else {
            self.counts.add_unknown();
            return println!(rt; "not understood: {row}");
        };
        let agrees = line.agrees(alloc, &mut self.machine);
        self.counts.add(&line, agrees);
        if agrees {
            Ok(())
        } else {
            println!(rt; "disagrees: {row}")
        }
    }

    /// Prints the counts.
    pub fn print_counts(&self, rt: &impl Print) -> io::Result<()> {
        let counts = self.counts;
        println!(rt; "{counts}")
    }

    /// Every row could be read and agrees.
    pub fn all_agree(&self) -> bool {
        self.counts.all_agree()
    }
}
