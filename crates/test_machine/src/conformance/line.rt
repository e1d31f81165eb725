//! Rows of each kind.

use crate::conformance::assembled::Assembled;
use crate::conformance::columns::Columns;
use crate::conformance::executor::Machine;
use crate::conformance::listed::Listed;
use crate::conformance::vector::Vector;
use std::alloc::Global;

/// What a row says.
#[derive(Clone, Copy, Debug, Drop)]
pub enum Line<'a> {
    /// Ten columns.
    Vector(Vector),
    /// Five columns.
    Listed(Listed),
    /// Two or three columns.
    Assembled(Assembled<'a>),
}

impl<'a> Line<'a> {
    /// Reads a row, of which the number of columns tells the kind. None where it has another number of columns, or
    /// one of them can't be read.
    pub fn parse(line: &'a str) -> Option<Line<'a>> {
        let mut columns = Columns::new(line);
        match line.split('\t').count() {
            10 => Some(Line::Vector(Vector::parse(&mut columns)?)),
            5 => Some(Line::Listed(Listed::parse(&mut columns)?)),
            2 | 3 => Some(Line::Assembled(Assembled::parse(&mut columns)?)),
            _ => None,
        }
    }

    /// Whether what the row says holds here.
    pub fn agrees(&self, alloc: Global, machine: &mut Machine) -> bool {
        match self {
            Line::Vector(vector) => machine.agrees(vector),
            Line::Listed(listed) => listed.agrees(),
            Line::Assembled(assembled) => assembled.agrees(alloc),
        }
    }
}
