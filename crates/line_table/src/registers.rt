//! The registers of a line program, and its rows.

ghost use Rattle.std.specs.Prelude.{◌≡◌};
ghost use Rattle.line_table.specs.Programs.{first_registers, after_instructions, after_lines, row_of, sets, appends, ends};

use crate::unit::UnitHeader;
use pn_types::Seq;

/// The registers of the state machine that rows show.
#[derive(Clone, Copy, Drop)]
pub(crate) struct Registers {
    /// The address of an instruction.
    pub address: u64,
    /// The number of a source file among those of the unit.
    pub file: u64,
    /// The line of the source file, from 1 on, or 0 where there is none. It counts modulo 2^32.
    pub line: u32,
}

/// A row of the line table: from its address to that of the next row, a program's code comes from this line.
#[derive(Clone, Copy, Debug, PartialEq, Eq, Drop)]
pub struct Row {
    /// Where the header of the row's unit is, in bytes from the front of `.debug_line`.
    pub unit: u64,
    /// The address of an instruction.
    pub address: u64,
    /// The number of a source file among those of the unit: from 1 on in version 4, from 0 on in version 5.
    pub file: u64,
    /// The line of the source file, from 1 on, or 0 where there is none. It counts modulo 2^32.
    pub line: u32,
    /// Whether the address is the first after the end of a sequence.
    pub is_end: bool,
}

/// The line table of a program.
#[derive(Drop)]
pub struct LineTable {
    /// The rows of its units, in the order in which their programs append them.
    pub rows: Seq<Row>,
}

/// What an operation does.
#[derive(Clone, Copy, Drop)]
pub(crate) struct Step {
    /// The registers after it.
    pub registers: Registers,
    /// The row that it appends.
    pub row: Option<Row>,
    /// The place of the next operation.
    pub next: usize,
}

impl Registers {
    /// The registers as a sequence begins.
    pub(crate) fn first() -> Registers
        ensures { result ≡ first_registers }
    {
        Registers {
            address: 0,
            file: 1,
            line: 1,
        }
    }

    /// The registers with the address after a number of instructions.
    pub(crate) fn after_instructions(self, header: &UnitHeader, count: u64) -> Registers
        ensures { result ≡ after_instructions header.now self count }
    {
        let bytes = count.wrapping_mul(header.instruction_length as u64);
        Registers {
            address: self.address.wrapping_add(bytes),
            ..self
        }
    }

    /// The registers with the line after a signed number of lines, in two's complement.
    pub(crate) fn after_lines(self, count: u64) -> Registers
        ensures { result ≡ after_lines self count }
    {
        Registers {
            line: self.line.wrapping_add((count % (1 << 32)) as u32),
            ..self
        }
    }

    /// The row of these registers.
    fn row(self, header: &UnitHeader, is_end: bool) -> Row
        ensures { result ≡ row_of header.now self is_end }
    {
        Row {
            unit: header.at as u64,
            address: self.address,
            file: self.file,
            line: self.line,
            is_end,
        }
    }
}

impl Step {
    /// An operation after which the registers are these.
    pub(crate) fn sets(registers: Registers, next: usize) -> Step
        ensures { result ≡ sets registers next }
    {
        Step {
            registers,
            row: None,
            next,
        }
    }

    /// An operation that appends the row of these registers.
    pub(crate) fn appends(header: &UnitHeader, registers: Registers, next: usize) -> Step
        ensures { result ≡ appends header.now registers next }
    {
        Step {
            registers,
            row: Some(registers.row(header, false)),
            next,
        }
    }

    /// An operation that ends a sequence.
    pub(crate) fn ends(header: &UnitHeader, registers: Registers, next: usize) -> Step
        ensures { result ≡ ends header.now registers next }
    {
        Step {
            registers: Registers::first(),
            row: Some(registers.row(header, true)),
            next,
        }
    }
}
