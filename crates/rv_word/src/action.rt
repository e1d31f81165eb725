//! What instructions ask of a machine.

use crate::instr::{AmoOp, AtomicWidth, LoadOp};
use crate::outcome::Cause;

/// What an instruction asks of the machine, once its operands' values are known.
#[derive(Clone, Copy, Drop)]
pub enum Action {
    /// Put a value into rd.
    Compute {
        rd: u32,
        value: u64,
    },
    /// Go to the target, and put the address of the next word into rd.
    Jump {
        rd: u32,
        target: u64,
    },
    /// Go to the target where the branch is taken.
    BranchTo {
        taken: bool,
        target: u64,
    },
    /// Load from the address into rd.
    ReadMemory {
        op: LoadOp,
        rd: u32,
        at: u64,
    },
    /// Store the lowest `len` bytes of the value at the address.
    WriteMemory {
        len: u32,
        at: u64,
        value: u64,
    },
    /// Load from the address into rd, and reserve its doubleword.
    LoadReserved {
        width: AtomicWidth,
        rd: u32,
        at: u64,
    },
    /// Store the value at the address if its doubleword is still reserved, and put 0 into rd if so, else 1.
    StoreConditional {
        width: AtomicWidth,
        rd: u32,
        at: u64,
        value: u64,
    },
    /// Read the number at the address into rd, and leave there what the operation makes of it and the value.
    AtomicAccess {
        op: AmoOp,
        width: AtomicWidth,
        rd: u32,
        at: u64,
        value: u64,
    },
    /// Call the system.
    SystemCall,
    /// Do nothing.
    Proceed,
    /// Stop.
    Halt(Cause),
}
