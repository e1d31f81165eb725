//! What words do, with one variant for each operation, so that one look at the variant tells what to do.

/// The register that takes the result: x1 to x31.
pub type Rd = u8;

/// The register of the first operand.
pub type Rs1 = u8;

/// The register of the second operand.
pub type Rs2 = u8;

/// The number that is added or compared, with its sign.
pub type Immediate = i32;

/// How many words further on the target of a jump is, with its sign.
pub type Words = i32;

/// By how many bits a shift shifts.
pub type Amount = u8;

/// What a word does by which a hart goes on, in 8 bytes. It is `Rest` for any other word, also for an instruction whose numbers don't
/// fit here.
#[derive(Clone, Copy, Drop)]
pub enum Flat {
    Rest,
    /// Nothing but that the hart goes on.
    Nop,
    Lui(Rd, Immediate),
    Auipc(Rd, Immediate),
    Jal(Rd, Words),
    /// A jump that keeps no address.
    J(Words),
    Jalr(Rd, Rs1, Immediate),
    /// A jump to a register's address that keeps no address.
    Jr(Rs1, Immediate),
    Beq(Rs1, Rs2, Words),
    Bne(Rs1, Rs2, Words),
    Blt(Rs1, Rs2, Words),
    Bge(Rs1, Rs2, Words),
    Bltu(Rs1, Rs2, Words),
    Bgeu(Rs1, Rs2, Words),
    Lb(Rd, Rs1, Immediate),
    Lh(Rd, Rs1, Immediate),
    Lw(Rd, Rs1, Immediate),
    Ld(Rd, Rs1, Immediate),
    Lbu(Rd, Rs1, Immediate),
    Lhu(Rd, Rs1, Immediate),
    Lwu(Rd, Rs1, Immediate),
    Sb(Rs1, Rs2, Immediate),
    Sh(Rs1, Rs2, Immediate),
    Sw(Rs1, Rs2, Immediate),
    Sd(Rs1, Rs2, Immediate),
    Addi(Rd, Rs1, Immediate),
    Slti(Rd, Rs1, Immediate),
    Sltiu(Rd, Rs1, Immediate),
    Xori(Rd, Rs1, Immediate),
    Ori(Rd, Rs1, Immediate),
    Andi(Rd, Rs1, Immediate),
    Slli(Rd, Rs1, Amount),
    Srli(Rd, Rs1, Amount),
    Srai(Rd, Rs1, Amount),
    Addiw(Rd, Rs1, Immediate),
    Slliw(Rd, Rs1, Amount),
    Srliw(Rd, Rs1, Amount),
    Sraiw(Rd, Rs1, Amount),
    Add(Rd, Rs1, Rs2),
    Sll(Rd, Rs1, Rs2),
    Slt(Rd, Rs1, Rs2),
    Sltu(Rd, Rs1, Rs2),
    Xor(Rd, Rs1, Rs2),
    Srl(Rd, Rs1, Rs2),
    Or(Rd, Rs1, Rs2),
    And(Rd, Rs1, Rs2),
    Sub(Rd, Rs1, Rs2),
    Sra(Rd, Rs1, Rs2),
    Mul(Rd, Rs1, Rs2),
    Mulh(Rd, Rs1, Rs2),
    Mulhsu(Rd, Rs1, Rs2),
    Mulhu(Rd, Rs1, Rs2),
    Div(Rd, Rs1, Rs2),
    Divu(Rd, Rs1, Rs2),
    Rem(Rd, Rs1, Rs2),
    Remu(Rd, Rs1, Rs2),
    Addw(Rd, Rs1, Rs2),
    Sllw(Rd, Rs1, Rs2),
    Srlw(Rd, Rs1, Rs2),
    Subw(Rd, Rs1, Rs2),
    Sraw(Rd, Rs1, Rs2),
    Mulw(Rd, Rs1, Rs2),
    Divw(Rd, Rs1, Rs2),
    Divuw(Rd, Rs1, Rs2),
    Remw(Rd, Rs1, Rs2),
    Remuw(Rd, Rs1, Rs2),
}
