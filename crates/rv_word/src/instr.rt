//! Instructions.

/// The operation of a branch.
#[derive(Clone, Copy)]
pub enum BranchOp {
    Beq,
    Bne,
    Blt,
    Bge,
    Bltu,
    Bgeu,
}

/// The operation of a load.
#[derive(Clone, Copy)]
pub enum LoadOp {
    Lb,
    Lh,
    Lw,
    Ld,
    Lbu,
    Lhu,
    Lwu,
}

/// The operation of a store.
#[derive(Clone, Copy)]
pub enum StoreOp {
    Sb,
    Sh,
    Sw,
    Sd,
}

/// The operation on a register and an immediate.
#[derive(Clone, Copy)]
pub enum ImmOp {
    Addi,
    Slti,
    Sltiu,
    Xori,
    Ori,
    Andi,
}

/// A shift by an immediate, of 64 or of 32 bits.
#[derive(Clone, Copy)]
pub enum ShiftOp {
    Sll,
    Srl,
    Sra,
}

/// The operation on two registers.
#[derive(Clone, Copy)]
pub enum RegOp {
    Add,
    Sll,
    Slt,
    Sltu,
    Xor,
    Srl,
    Or,
    And,
    Sub,
    Sra,
    Mul,
    Mulh,
    Mulhsu,
    Mulhu,
    Div,
    Divu,
    Rem,
    Remu,
}

/// The operation on the low halves of two registers.
#[derive(Clone, Copy)]
pub enum RegOp32 {
    Addw,
    Sllw,
    Srlw,
    Subw,
    Sraw,
    Mulw,
    Divw,
    Divuw,
    Remw,
    Remuw,
}

/// The operation of an atomic read-modify-write.
#[derive(Clone, Copy)]
pub enum AmoOp {
    Swap,
    Add,
    Xor,
    And,
    Or,
    Min,
    Max,
    Minu,
    Maxu,
}

/// How many bytes an atomic access has.
#[derive(Clone, Copy)]
pub enum AtomicWidth {
    /// Four bytes, `.w`.
    Word,
    /// Eight bytes, `.d`.
    Doubleword,
}

/// An instruction. Registers are numbers below 32. Immediates and offsets are the 64-bit numbers that the machine adds.
/// `order` has the bits aq and rl, which change nothing here.
#[derive(Clone, Copy)]
pub enum Instr {
    Lui {
        rd: u32,
        imm: u64,
    },
    Auipc {
        rd: u32,
        imm: u64,
    },
    Jal {
        rd: u32,
        offset: u64,
    },
    Jalr {
        rd: u32,
        rs1: u32,
        offset: u64,
    },
    Branch {
        op: BranchOp,
        rs1: u32,
        rs2: u32,
        offset: u64,
    },
    Load {
        op: LoadOp,
        rd: u32,
        rs1: u32,
        offset: u64,
    },
    Store {
        op: StoreOp,
        rs1: u32,
        rs2: u32,
        offset: u64,
    },
    OpImm {
        op: ImmOp,
        rd: u32,
        rs1: u32,
        imm: u64,
    },
    ShiftImm {
        op: ShiftOp,
        rd: u32,
        rs1: u32,
        by: u32,
    },
    Addiw {
        rd: u32,
        rs1: u32,
        imm: u64,
    },
    ShiftImm32 {
        op: ShiftOp,
        rd: u32,
        rs1: u32,
        by: u32,
    },
    Op {
        op: RegOp,
        rd: u32,
        rs1: u32,
        rs2: u32,
    },
    Op32 {
        op: RegOp32,
        rd: u32,
        rs1: u32,
        rs2: u32,
    },
    Fence {
        rd: u32,
        rs1: u32,
        high: u32,
    },
    Ecall,
    Ebreak,
    /// Load-reserved.
    Lr {
        width: AtomicWidth,
        rd: u32,
        rs1: u32,
        order: u32,
    },
    /// Store-conditional.
    Sc {
        width: AtomicWidth,
        rd: u32,
        rs1: u32,
        rs2: u32,
        order: u32,
    },
    /// Atomic read-modify-write.
    Amo {
        op: AmoOp,
        width: AtomicWidth,
        rd: u32,
        rs1: u32,
        rs2: u32,
        order: u32,
    },
}
