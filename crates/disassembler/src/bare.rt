//! Instructions with 0 for their registers and numbers.

ghost use Rattle.std.specs.Prelude.{◌≡◌};
ghost use Rattle.rv_word.specs.declared.instr.Instr.TheVariants as instr;
ghost use Rattle.disassembler.specs.FormsSeen.{bare, fixed_instr, named_instr, plain_instr};

use rv_asm::{NamedForm, PlainForm, Statement};
use rv_word::{AmoOp, AtomicWidth, BranchOp, Instr, LoadOp, StoreOp};

/// A load.
fn load(op: LoadOp) -> Instr
    ensures { result ≡ instr.Load op 0 0 0 }
{
    Instr::Load {
        op,
        rd: 0,
        rs1: 0,
        offset: 0,
    }
}

/// A store.
fn store(op: StoreOp) -> Instr
    ensures { result ≡ instr.Store op 0 0 0 }
{
    Instr::Store {
        op,
        rs1: 0,
        rs2: 0,
        offset: 0,
    }
}

/// A branch.
fn branch(op: BranchOp) -> Instr
    ensures { result ≡ instr.Branch op 0 0 0 }
{
    Instr::Branch {
        op,
        rs1: 0,
        rs2: 0,
        offset: 0,
    }
}

/// `lr` of a width.
fn reserve(width: AtomicWidth) -> Instr
    ensures { result ≡ instr.Lr width 0 0 0 }
{
    Instr::Lr {
        width,
        rd: 0,
        rs1: 0,
        order: 0,
    }
}

/// `sc` of a width.
fn conditional(width: AtomicWidth) -> Instr
    ensures { result ≡ instr.Sc width 0 0 0 0 }
{
    Instr::Sc {
        width,
        rd: 0,
        rs1: 0,
        rs2: 0,
        order: 0,
    }
}

/// An AMO of a width.
fn amo(op: AmoOp, width: AtomicWidth) -> Instr
    ensures { result ≡ instr.Amo op width 0 0 0 0 }
{
    Instr::Amo {
        op,
        width,
        rd: 0,
        rs1: 0,
        rs2: 0,
        order: 0,
    }
}

/// The instruction with 0 for its registers and numbers.
pub(crate) fn bare(instr: &Instr) -> Instr
    ensures { result ≡ bare instr.now }
{
    let (rd, rs1, rs2) = (0, 0, 0);
    let (imm, offset, by, high) = (0, 0, 0, 0);
    match *instr {
        Instr::Lui { .. } => Instr::Lui { rd, imm },
        Instr::Auipc { .. } => Instr::Auipc { rd, imm },
        Instr::Jal { .. } => Instr::Jal { rd, offset },
        Instr::Jalr { .. } => Instr::Jalr { rd, rs1, offset },
        Instr::Branch { op, .. } => branch(op),
        Instr::Load { op, .. } => load(op),
        Instr::Store { op, .. } => store(op),
        Instr::OpImm { op, .. } => Instr::OpImm { op, rd, rs1, imm },
        Instr::ShiftImm { op, .. } => Instr::ShiftImm { op, rd, rs1, by },
        Instr::Addiw { .. } => Instr::Addiw { rd, rs1, imm },
        Instr::ShiftImm32 { op, .. } => Instr::ShiftImm32 { op, rd, rs1, by },
        Instr::Op { op, .. } => Instr::Op { op, rd, rs1, rs2 },
        Instr::Op32 { op, .. } => Instr::Op32 { op, rd, rs1, rs2 },
        Instr::Fence { .. } => Instr::Fence { rd, rs1, high },
        Instr::Ecall => Instr::Ecall,
        Instr::Ebreak => Instr::Ebreak,
        Instr::Lr { width, .. } => reserve(width),
        Instr::Sc { width, .. } => conditional(width),
        Instr::Amo { op, width, .. } => amo(op, width),
    }
}

/// That of a form without operands. None where other forms make it too.
fn fixed_instr(statement: Statement) -> Option<Instr>
    ensures { result ≡ fixed_instr statement }
{
    let Statement::Instruction(instr) = statement else {
        return None;
    };
    match instr {
        Instr::Fence { .. } | Instr::Ecall | Instr::Ebreak => Some(bare(&instr)),
        _ => None,
    }
}

/// That of a form. None where it makes none, or one that other forms make too.
pub(crate) fn plain_instr(form: PlainForm) -> Option<Instr>
    ensures { result ≡ plain_instr form }
{
    let (rd, rs1, rs2) = (0, 0, 0);
    let (imm, offset, by) = (0, 0, 0);
    Some(match form {
        PlainForm::Fixed(statement) => return fixed_instr(statement),
        PlainForm::Register(op) => Instr::Op { op, rd, rs1, rs2 },
        PlainForm::Register32(op) => Instr::Op32 { op, rd, rs1, rs2 },
        PlainForm::Immediate(op) => Instr::OpImm { op, rd, rs1, imm },
        PlainForm::Shift(op) => Instr::ShiftImm { op, rd, rs1, by },
        PlainForm::Shift32(op) => Instr::ShiftImm32 { op, rd, rs1, by },
        PlainForm::Load(op) => load(op),
        PlainForm::Store(op) => store(op),
        PlainForm::Reserve(width) => reserve(width),
        PlainForm::Conditional(width) => conditional(width),
        PlainForm::Amo(op, width) => amo(op, width),
        PlainForm::Addiw => Instr::Addiw { rd, rs1, imm },
        PlainForm::Jalr => Instr::Jalr { rd, rs1, offset },
        PlainForm::Lui => Instr::Lui { rd, imm },
        PlainForm::Auipc => Instr::Auipc { rd, imm },
        _ => return None,
    })
}

/// That of a form with a name, in the same way.
pub(crate) fn named_instr(form: NamedForm) -> Option<Instr>
    ensures { result ≡ named_instr form }
{
    match form {
        NamedForm::Branch(op) => Some(branch(op)),
        NamedForm::Jal => Some(Instr::Jal { rd: 0, offset: 0 }),
        _ => None,
    }
}
