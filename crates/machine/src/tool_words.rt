//! Words of the tool that a hart inside runs one after another.

ghost use Rattle.std.specs.Prelude.{◌≡◌, ◌≤◌, ◌<◌, ℕ, List, true, false, Ok, length};
ghost use Rattle.rv_exec.specs.Pcs.{pc_address};
ghost use Rattle.rv_exec.specs.Shared.{prog_in};
ghost use Rattle.tramp_spec.specs.Banks.{bank_len};
ghost use Rattle.tramp_spec.specs.Steps.{step_on};
ghost use Rattle.tramp_spec.specs.declared.mark.Mark.TheVariants.{Tool};
ghost use Rattle.code_store.specs.Operations.{bank_loaded, bank_stored};
ghost use Rattle.machine.specs.Performing.{bench_from};
ghost use Rattle.machine.specs.ToolRuns.{AreToolRun, stood_at};

use crate::performing::{doubleword_at, read_bank, write_bank};
use crate::turning::Progress;
use code_store::{Slot, Store};
use pn_types::HartNo;
use rv_exec::{Caller, Flat, Pc, Regs, Shared, address};

/// Words of the tool one after another.
struct ToolWords;

impl Caller for ToolWords {}

/// A load of a doubleword of the bank. It returns whether the bank has one there, and else does nothing.
#[inline(always)]
fn load(rd: u8, at: u64, ticks: u64, pc: &mut Pc, regs: &mut Regs, bank: &[u64]) -> bool
    requires rd { rd < 32 }
    requires bank { length bank.now ≡ bank_len }
    ensures first { pc.new.first ≡ pc.old.first }
    ensures goes { result ≡ true → bank_loaded rd at ticks (pc_address pc.old) (bench_from regs.old bank.now)
        ≡ Ok (stood_at (pc_address pc.new) regs.new bank.now) }
    ensures stays { result ≡ false → (pc_address pc.new ≡ pc_address pc.old) × (regs.new ≡ regs.old) }
{
    let place = doubleword_at(at);
    if place >= bank.len() as u64 {
        return false;
    }
    regs.set(rd as u32, read_bank(bank, place, ticks));
    pc.step();
    true
}

/// A store to a doubleword of the bank. It returns whether the bank has one there, and else does nothing.
#[inline(always)]
fn store(value: u64, at: u64, pc: &mut Pc, bank: &mut [u64]) -> bool
    requires bank { length bank.old ≡ bank_len }
    ensures first { pc.new.first ≡ pc.old.first }
    ensures len { length bank.new ≡ length bank.old }
    ensures goes { result ≡ true → (regs : List ℕ) → bank_stored value at (pc_address pc.old) (bench_from regs bank.old)
        ≡ Ok (stood_at (pc_address pc.new) regs bank.new) }
    ensures stays { result ≡ false → (pc_address pc.new ≡ pc_address pc.old) × (bank.new ≡ bank.old) }
{
    let place = doubleword_at(at);
    if place >= bank.len() as u64 {
        return false;
    }
    write_bank(bank, place, value);
    pc.step();
    true
}

/// Does what a slot's word does at the pc, if it is one of the tool after which the hart goes on, and returns whether it is. Else it
/// does nothing.
#[inline(always)]
fn run(
    slot: &Slot,
    ticks: u64,
    number: HartNo,
    pc: &mut Pc,
    regs: &mut Regs,
    bank: &mut [u64],
    shared: &mut Shared,
) -> bool
    requires number { number < length shared.old.resv }
    requires bank { length bank.old ≡ bank_len }
    ensures first { pc.new.first ≡ pc.old.first }
    ensures len { length bank.new ≡ length bank.old }
    ensures shares { prog_in shared.new ≡ prog_in shared.old }
    ensures mark { result ≡ true → slot.now.mark ≡ Tool }
    ensures goes { result ≡ true → step_on bank_len slot.now.word ticks (pc_address pc.old) (bench_from regs.old bank.old)
        ≡ Ok (stood_at (pc_address pc.new) regs.new bank.new) }
    ensures stays { result ≡ false → (pc_address pc.new ≡ pc_address pc.old) × (regs.new ≡ regs.old) × (bank.new ≡ bank.old) }
{
    let flat = slot.tool_flat();
    match *flat {
        Flat::Ld(rd, rs1, imm) => {
            let at = address(rs1, imm, regs);
            load(rd, at, ticks, pc, regs, bank)
        }
        Flat::Sd(rs1, rs2, imm) => {
            let at = address(rs1, imm, regs);
            store(regs.get(rs2 as u32), at, pc, bank)
        }
        Flat::Lb(..)
        | Flat::Lh(..)
        | Flat::Lw(..)
        | Flat::Lbu(..)
        | Flat::Lhu(..)
        | Flat::Lwu(..)
        | Flat::Sb(..)
        | Flat::Sh(..)
        | Flat::Sw(..) => false,
        _ => flat.run::<ToolWords>(number, pc, regs, shared),
    }
}

/// Runs words of the tool from the pc on, by a hart that is inside and isn't stopped: at most `most`, until one comes that isn't the
/// tool's, or after which the hart doesn't just go on. Returns how many. Of the progress only the pc changes. It takes no memory.
#[inline(always)]
pub fn run_tool_words(
    most: u32,
    number: HartNo,
    progress: &mut Progress,
    regs: &mut Regs,
    bank: &mut [u64],
    store: &Store,
    shared: &mut Shared,
) -> u32
    requires number { number < length shared.old.resv }
    requires bank { length bank.old ≡ bank_len }
    ensures ran { AreToolRun store.now progress.old.ticks result
        (stood_at progress.old.pc regs.old bank.old) (stood_at progress.new.pc regs.new bank.new) }
    ensures stands { progress.new ≡ record progress.old { pc = progress.new.pc } }
    ensures bound { result ≤ most }
    ensures len { length bank.new ≡ length bank.old }
    ensures shares { prog_in shared.new ≡ prog_in shared.old }
{
    let (tool_at, slots) = store.tool_slots();
    let Some(mut at) = Pc::new(tool_at, progress.pc) else {
        return 0;
    };
    let ticks = progress.ticks;
    for turns in 0..most {
        if at.place >= slots.len() as u64 {
            progress.pc = at.address();
            return turns;
        }
        let slot = &slots[at.place as usize];
        if !run(slot, ticks, number, &mut at, regs, bank, shared) {
            progress.pc = at.address();
            return turns;
        }
    }
    progress.pc = at.address();
    most
}
