//! Rows of what one instruction did on another machine.

use crate::conformance::columns::Columns;

/// Where a word stands that doesn't read its own address.
const USUAL_PC: u64 = 0x10000;

/// The state in which a word is executed.
#[derive(Clone, Copy, Debug, Drop)]
pub struct Setting {
    /// What the first operand's register holds.
    pub first: u64,
    /// What the second operand's register holds.
    pub second: u64,
    /// The word's address.
    pub pc: u64,
    /// The eight bytes at the address that the word accesses, if it does.
    pub memory: Option<u64>,
    /// The hart has just loaded from that address to reserve it.
    pub reserved: bool,
}

/// What the execution of a word leaves.
#[derive(Clone, Copy, Debug, PartialEq, Eq, Drop)]
pub struct Outcome {
    /// What rd holds; of a branch 1 where it is taken, else 0; of a store the eight bytes.
    pub result: u64,
    /// The address of the next word.
    pub next_pc: u64,
    /// The eight bytes at the address that the word accessed, if it did.
    pub memory: Option<u64>,
}

/// What one instruction did on another machine.
#[derive(Clone, Copy, Debug, Drop)]
pub struct Vector {
    /// Its word.
    pub word: u32,
    /// The state in which it was executed.
    pub before: Setting,
    /// What it left.
    pub after: Outcome,
}

/// Whether the note is of a conditional store whose address was reserved.
fn is_reserved(note: &str) -> Option<bool> {
    match note {
        "reserved" => Some(true),
        "unreserved" | "-" => Some(false),
        _ => None,
    }
}

impl Vector {
    /// Reads the columns: a mnemonic, the word, the operands' values, the result, the addresses of the word and of the
    /// next, the eight bytes of memory before and after, and the note. An address or bytes that don't matter are `-`.
    pub fn parse(columns: &mut Columns) -> Option<Vector> {
        let _mnemonic = columns.text()?;
        let word = columns.word()?;
        let first = columns.number()?;
        let second = columns.number()?;
        let result = columns.number()?;
        let pc = columns.optional()?.unwrap_or(USUAL_PC);
        let next_pc = columns.optional()?.unwrap_or(pc.wrapping_add(4));
        let memory = columns.optional()?;
        let left = columns.optional()?;
        let reserved = is_reserved(columns.text()?)?;
        Some(Vector {
            word,
            before: Setting {
                first,
                second,
                pc,
                memory,
                reserved,
            },
            after: Outcome {
                result,
                next_pc,
                memory: left.or(memory),
            },
        })
    }
}
