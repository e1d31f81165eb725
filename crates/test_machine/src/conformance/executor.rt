//! The machine on which words are executed.

ghost use Rattle.std.specs.Prelude.{◌≡◌, ◌<◌, ◌↔◌, IfOk, IsTrue, MatchOption, Some, None, length};
ghost use Rattle.pn_types.specs.Images.{IsImage};

use crate::conformance::listed::is_instruction;
use crate::conformance::setting::{accessed, registers, reserving, result_left};
use crate::conformance::vector::{Outcome, Setting, Vector};
use pn_types::{HartNo, Image, NoMemory, Segment, Seq};
use rv_exec::{Output, Regs, Reservations, Shared, exec};
use rv_mem::Mem;
use rv_word::{Instr, Next, decode, encode};
use std::alloc::Global;

/// The data that the words access: its first address, and how many bytes there are.
const DATA: u64 = 0x200_0000;

const DATA_LEN: u64 = 0x10_0000;

/// The text, which none of the words accesses.
const TEXT: u64 = 0x1_0000;

const TEXT_LEN: u64 = 4;

/// A machine of one hart. Its memory stays from one word to the next.
#[derive(Drop)]
pub struct Machine {
    hart: HartNo,
    shared: Shared,
    ghost has_hart: { hart < length shared.resv },
}

/// The text, which is zeros, and the data, which begins with zeros.
fn image(alloc: Global) -> Result<Image, NoMemory>
    ensures { IfOk result IsImage }
{
    let mut segments = Vec::new(alloc);
    segments.push(Segment {
        at: TEXT,
        bytes: Seq::from_vec(vec![in alloc; 0; 4]?),
        size: TEXT_LEN,
    })?;
    segments.push(Segment {
        at: DATA,
        bytes: Seq::from_vec(Vec::new(alloc)),
        size: DATA_LEN,
    })?;
    Ok(Image {
        segments: Seq::from_vec(segments),
        text_at: TEXT,
        text_len: TEXT_LEN,
        entry: TEXT,
        symbols: Seq::from_vec(Vec::new(alloc)),
    })
}

impl Machine {
    ghost use Rattle.test_machine.specs.Machines.{prog_of_machine, Reaches};
    ghost use Rattle.test_machine.specs.Vectors.{Agrees, bytes_left, gone, left_by, prepared, reserved};
    ghost use Rattle.rv_word.specs.Exec.{exec_of, without_reservation};

    /// The machine at its start.
    ///
    /// # Errors
    ///
    /// `NoMemory` if memory runs out.
    pub fn new(alloc: Global) -> Result<Machine, NoMemory> {
        Ok(Machine {
            hart: HartNo::first(),
            shared: Shared {
                mem: Mem::new(alloc, &image(alloc)?, 1)?,
                resv: Reservations::new(alloc, 1)?,
                out: Output::new(alloc)?,
            },
        })
    }

    /// Clears the reservation.
    fn free(&mut self)
        ensures hart { self.new.hart ≡ self.old.hart }
        ensures freed { prog_of_machine self.new ≡ without_reservation self.old.hart (prog_of_machine self.old) }
    {
        self.shared.resv.set(self.hart, None);
    }

    /// Puts eight bytes at the address that a word accesses, if it accesses one. None where there are none to be put, or
    /// no memory for them.
    fn prepare(&mut self, place: Option<u64>, bytes: Option<u64>) -> Option<()>
        ensures hart { self.new.hart ≡ self.old.hart }
        ensures prepared { MatchOption result (prepared (prog_of_machine self.old) place bytes ≡ None)
            (λ _. prepared (prog_of_machine self.old) place bytes ≡ Some (prog_of_machine self.new)) }
    {
        match place {
            Some(at) => self.shared.mem.store(at, 8, bytes?).ok(),
            None => Some(()),
        }
    }

    /// Executes the word, and says where the hart goes on, if it does.
    fn step(&mut self, word: u32, pc: u64, regs: &mut Regs) -> Option<u64>
        ensures hart { self.new.hart ≡ self.old.hart }
        ensures reached { Reaches (gone (exec_of word pc self.old.hart regs.old (prog_of_machine self.old))) result regs.new self.new }
    {
        let next = exec(word, pc, self.hart, regs, &mut self.shared);
        match next {
            Next::Go(next_pc) => Some(next_pc),
            Next::Stop(_) => None,
        }
    }

    /// Lets the hart reserve what the instruction accesses, if it is to.
    fn reserve(&mut self, is_to: bool, instr: &Instr, pc: u64, regs: &mut Regs) -> Option<u64>
        ensures hart { self.new.hart ≡ self.old.hart }
        ensures reached { Reaches (reserved is_to instr.now pc self.old.hart regs.old (prog_of_machine self.old)) result regs.new self.new }
    {
        if is_to {
            self.step(encode(&reserving(instr)?), pc, regs)
        } else {
            Some(pc)
        }
    }

    /// The eight bytes at the address that was accessed, if one was. None where there is no memory for them.
    fn bytes_left(&self, place: Option<u64>) -> Option<Option<u64>>
        ensures { result ≡ bytes_left self.now.shared.mem place }
    {
        match place {
            Some(at) => Some(Some(self.shared.mem.load(at, 8).ok()?)),
            None => Some(None),
        }
    }

    /// Executes the word in this setting. None where it isn't an instruction, or the hart stops.
    fn run(&mut self, word: u32, before: &Setting) -> Option<Outcome>
        ensures { result ≡ left_by (prog_of_machine self.old) self.old.hart word before.now }
    {
        let instr = decode(word)?;
        let place = accessed(&instr, before.first);
        let mut regs = registers(word, before);
        self.free();
        self.prepare(place, before.memory)?;
        self.reserve(before.reserved, &instr, before.pc, &mut regs)?;
        let next_pc = self.step(word, before.pc, &mut regs)?;
        let memory = self.bytes_left(place)?;
        let result = result_left(&instr, word, before.pc, next_pc, &regs, memory)?;
        Some(Outcome {
            result,
            next_pc,
            memory,
        })
    }

    /// Whether the word is an instruction that encodes to the same word, and does here what it did there.
    pub fn agrees(&mut self, vector: &Vector) -> bool
        ensures { IsTrue result ↔ Agrees (prog_of_machine self.old) self.old.hart vector.now }
    {
        is_instruction(vector.word) && self.run(vector.word, &vector.before) == Some(vector.after)
    }
}
