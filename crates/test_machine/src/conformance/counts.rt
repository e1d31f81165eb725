//! How many rows there were, and how many agree.

ghost use Rattle.std.specs.Prelude.{◌≡◌, ◌↔◌, ◌+◌, IsTrue, min, if◌then◌else◌};

use crate::conformance::line::Line;
use std::fmt;

/// How many lines of a kind there were, and how many of them agree. Each count stops at its greatest number.
#[derive(Clone, Copy, Debug, Default, Drop)]
pub struct Tally {
    /// The lines.
    pub lines: u64,
    /// Those that agree.
    pub agree: u64,
}

/// What became of all lines.
#[derive(Clone, Copy, Debug, Default, Drop)]
pub struct Counts {
    /// Instructions that were executed.
    pub vectors: Tally,
    /// Words that were decoded.
    pub words: Tally,
    /// Lines that couldn't be read.
    pub unknown: u64,
}

impl Tally {
    /// Counts one more line.
    pub fn add(&mut self, agrees: bool)
        ensures lines { self.new.lines ≡ min (self.old.lines + 1) u64.MAX }
        ensures agree { self.new.agree ≡ (if agrees then min (self.old.agree + 1) u64.MAX else self.old.agree) }
    {
        self.lines = self.lines.saturating_add(1);
        if agrees {
            self.agree = self.agree.saturating_add(1);
        }
    }
}

impl Counts {
    /// Counts a line that could be read.
    pub fn add(&mut self, line: &Line<'_>, agrees: bool) {
        match line {
            Line::Vector(_) => self.vectors.add(agrees),
            Line::Listed(_) | Line::Assembled(_) => self.words.add(agrees),
        }
    }

    /// Counts a line that couldn't be read.
    pub fn add_unknown(&mut self)
        ensures { self.new ≡ record self.old { unknown = min (self.old.unknown + 1) u64.MAX } }
    {
        self.unknown = self.unknown.saturating_add(1);
    }

    /// Every line could be read and agrees.
    pub fn all_agree(&self) -> bool
        ensures { IsTrue result ↔ ((self.now.vectors.agree ≡ self.now.vectors.lines)
            × (self.now.words.agree ≡ self.now.words.lines) × (self.now.unknown ≡ 0)) }
    {
        self.vectors.agree == self.vectors.lines
            && self.words.agree == self.words.lines
            && self.unknown == 0
    }
}

impl fmt::Display for Tally {
    fn fmt<W: fmt::Write>(&self, f: &mut fmt::Formatter<W>) -> fmt::Result {
        let lines = self.lines;
        let agree = self.agree;
        write!(f, "{lines} agree {agree}")
    }
}

impl fmt::Display for Counts {
    fn fmt<W: fmt::Write>(&self, f: &mut fmt::Formatter<W>) -> fmt::Result {
        let vectors = self.vectors;
        let words = self.words;
        let unknown = self.unknown;
        write!(
            f,
            "vectors {vectors}\nwords {words}\nnot understood {unknown}"
        )
    }
}
