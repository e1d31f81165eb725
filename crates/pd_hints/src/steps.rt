//! The words of a program, as far as a look at them before a run goes.

use pn_types::{Image, NoMemory, Proc};
use rv_word::{ImmOp, Instr, LoadOp, StoreOp, decode};
use std::alloc::Global;

/// The register of the return address.
pub(crate) const RETURN_ADDRESS: u32 = 1;

/// The stack's pointer.
const STACK: u32 = 2;

/// The register by which a linker with relaxation lets data be reached.
const GLOBAL: u32 = 3;

/// The other register that calls link in.
const OTHER_LINK: u32 = 5;

/// The frame's pointer.
pub(crate) const FRAME: u32 = 8;

/// A word of the text.
#[derive(Clone, Copy, Drop)]
pub(crate) struct Step {
    /// What it does, if it is an instruction.
    instr: Option<Instr>,
    /// Where it jumps or calls, as far as it and the word before it tell.
    target: Option<u64>,
}

/// Returns where the instruction at an address jumps or calls, which follows another.
fn target_of(before: Option<Instr>, instr: Instr, at: u64) -> Option<u64> {
    match (before, instr) {
        (_, Instr::Jal { offset, .. } | Instr::Branch { offset, .. }) => {
            Some(at.wrapping_add(offset))
        }
        (Some(Instr::Auipc { rd, imm }), Instr::Jalr { rs1, offset, .. }) if rd == rs1 => {
            Some(at.wrapping_sub(4).wrapping_add(imm).wrapping_add(offset))
        }
        _ => None,
    }
}

/// Returns the instruction of a word's bytes.
fn instr_of(bytes: &[u8]) -> Option<Instr> {
    match bytes {
        [a, b, c, d] => decode(u32::from_le_bytes([*a, *b, *c, *d])),
        _ => None,
    }
}

/// Returns the register of an instruction's result.
fn result_of(instr: Instr) -> Option<u32> {
    match instr {
        Instr::Lui { rd, .. }
        | Instr::Auipc { rd, .. }
        | Instr::Jal { rd, .. }
        | Instr::Jalr { rd, .. }
        | Instr::Load { rd, .. }
        | Instr::OpImm { rd, .. }
        | Instr::ShiftImm { rd, .. }
        | Instr::Addiw { rd, .. }
        | Instr::ShiftImm32 { rd, .. }
        | Instr::Op { rd, .. }
        | Instr::Op32 { rd, .. }
        | Instr::Lr { rd, .. }
        | Instr::Sc { rd, .. }
        | Instr::Amo { rd, .. } => Some(rd),
        _ => None,
    }
}

/// Returns the words of the text.
pub(crate) fn steps(alloc: Global, image: &Image) -> Result<Vec<Step>, NoMemory> {
    let mut steps = Vec::new(alloc);
    let mut before = None;
    let mut at = image.text_at;
    for bytes in image.text_bytes().chunks(4) {
        let instr = instr_of(bytes);
        let target = instr.and_then(|instr| target_of(before, instr, at));
        steps.push(Step { instr, target })?;
        before = instr;
        at = at.wrapping_add(4);
    }
    Ok(steps)
}

/// Returns the words of a procedure.
pub(crate) fn steps_of<'a>(image: &Image, steps: &'a [Step], proc: &Proc) -> &'a [Step] {
    let first = proc.start.saturating_sub(image.text_at) / 4;
    let end = first.saturating_add(proc.len / 4);
    steps.get(first as usize..end as usize).unwrap_or(&[])
}

impl Step {
    /// Returns whether it calls.
    pub(crate) fn calls(&self) -> bool {
        match self.instr {
            Some(Instr::Jal { rd, .. } | Instr::Jalr { rd, .. }) => {
                rd == RETURN_ADDRESS || rd == OTHER_LINK
            }
            _ => false,
        }
    }

    /// Returns whether it jumps to where a register leads, without a call.
    fn jumps_by_register(&self) -> bool {
        matches!(self.instr, Some(Instr::Jalr { rd: 0, .. }))
    }

    /// Returns whether it returns.
    pub(crate) fn returns(&self) -> bool {
        match self.instr {
            Some(
                Instr::Jalr {
                    rd: 0,
                    rs1,
                    offset: 0,
                },
            ) => rs1 == RETURN_ADDRESS || rs1 == OTHER_LINK,
            _ => false,
        }
    }

    /// Returns whether it jumps to where only a register tells.
    pub(crate) fn leads_anywhere(&self) -> bool {
        self.jumps_by_register() && !self.returns() && self.target.is_none()
    }

    /// Returns whether it goes on in another procedure, without a call.
    pub(crate) fn leaves(&self, proc: &Proc) -> bool {
        match self.target {
            Some(target) => !self.calls() && target.wrapping_sub(proc.start) >= proc.len,
            None => false,
        }
    }

    /// Returns whether it jumps to an address, or calls what is there.
    pub(crate) fn reaches(&self, address: u64) -> bool {
        self.target == Some(address)
    }

    /// Returns whether it keeps a register in the frame.
    pub(crate) fn keeps(&self, register: u32) -> bool {
        match self.instr {
            Some(
                Instr::Store {
                    op: StoreOp::Sd,
                    rs1,
                    rs2,
                    ..
                },
            ) => { rs2 == register && (rs1 == STACK || rs1 == FRAME) }
            _ => false,
        }
    }

    /// Returns whether it lets the frame's pointer point to the frame.
    pub(crate) fn sets_frame(&self) -> bool {
        matches!(
            self.instr,
            Some(Instr::OpImm {
                op: ImmOp::Addi,
                rd: FRAME,
                rs1: STACK,
                ..
            })
        )
    }

    /// Returns whether it writes the frame's pointer, and neither lets it point to the frame, nor takes it back from there, nor says by a
    /// zero that no frame is above.
    pub(crate) fn takes_frame(&self) -> bool {
        match self.instr {
            Some(
                Instr::Load {
                    op: LoadOp::Ld,
                    rs1: STACK,
                    ..
                }
                | Instr::OpImm {
                    op: ImmOp::Addi,
                    rs1: 0,
                    imm: 0,
                    ..
                },
            ) => false,
            Some(instr) => result_of(instr) == Some(FRAME) && !self.sets_frame(),
            None => false,
        }
    }

    /// Returns whether it reaches data by the register gp.
    pub(crate) fn uses_global(&self) -> bool {
        match self.instr {
            Some(Instr::Load { rs1, .. } | Instr::Store { rs1, .. } | Instr::OpImm { rs1, .. }) =>
                rs1 == GLOBAL,
            _ => false,
        }
    }

    /// Returns whether it sets the register gp.
    pub(crate) fn sets_global(&self) -> bool {
        match self.instr {
            Some(Instr::Auipc { rd, .. } | Instr::Lui { rd, .. } | Instr::Load { rd, .. }) => rd
                == GLOBAL,
            Some(Instr::Op { rd, .. }) => rd == GLOBAL,
            _ => false,
        }
    }
}
