//! What a hart's word does: a word of the program on memory, reservations and output, another on the hart's bank.

ghost use Rattle.std.specs.Prelude.{◌≡◌, ◌≤◌, ◌<◌, ◌/◌, ◌^◌, ℕ, List, true, false, None, Some, IfSome, length, is_none};
ghost use Rattle.rv_word.specs.Exec.{exec_decoded};
ghost use Rattle.rv_word.specs.Words.{HasWord};
ghost use Rattle.rv_exec.specs.Flat.{IsFlatOf};
ghost use Rattle.rv_exec.specs.Gives.{IsExecuted, next_after, state_of};
ghost use Rattle.rv_exec.specs.Shared.{prog_in};
ghost use Rattle.tramp_spec.specs.Banks.{bank_at, bank_len, is_in_bank, set_bank};
ghost use Rattle.code_store.specs.Operations.{bank_loaded, bank_stored};
ghost use Rattle.machine.specs.Alone.{alone_of};
ghost use Rattle.machine.specs.Performing.{Performs, bench_from, stood_after};

use crate::hart::HartState;
use crate::turning::Progress;
use code_store::{Operation, Slot};
use pn_types::HartNo;
use rv_exec::{Caller, Flat, Pc, Regs, Shared, run_or_execute};
use rv_word::{Cause, Instr};

/// A word by itself.
struct Alone;

impl Caller for Alone {}

/// A word whose flat did nothing.
struct Wholly;

impl Caller for Wholly {}

/// The number of the doubleword at an address, or a number that is too great where the address is no multiple of 8: the address is
/// rotated by three bits, so that one test finds both.
#[inline(always)]
pub fn doubleword_at(at: u64) -> u64
    ensures inside { (n : ℕ) → n ≤ 2 ^ 32 → result < n → (is_in_bank n at ≡ true) × (at / 8 ≡ result) }
    ensures outside { (n : ℕ) → n ≤ 2 ^ 32 → n ≤ result → is_in_bank n at ≡ false }
{
    at / 8 + at % 8 * 0x2000_0000_0000_0000
}

/// A doubleword of the bank, of which the first reads as the ticks.
#[inline(always)]
pub fn read_bank(bank: &[u64], place: u64, ticks: u64) -> u64
    requires { place < length bank.now }
    ensures { result ≡ bank_at ticks bank.now place }
{
    if place == 0 {
        ticks
    } else {
        bank[place as usize]
    }
}

/// Puts a doubleword into the bank, of which the first stays.
#[inline(always)]
pub fn write_bank(bank: &mut [u64], place: u64, value: u64)
    requires { place < length bank.old }
    ensures { bank.new ≡ set_bank bank.old place value }
{
    if place != 0 {
        bank[place as usize] = value;
    }
}

/// A load of a doubleword of the bank.
#[inline(always)]
fn load(
    rd: u32,
    at: u64,
    ticks: u64,
    pc: &mut u64,
    stop: &mut Option<Cause>,
    regs: &mut Regs,
    bank: &[u64],
) -> bool
    requires rd { rd < 32 }
    requires bank { length bank.now ≡ bank_len }
    requires stop { stop.old ≡ None }
    ensures goes { result ≡ is_none stop.new }
    ensures loaded { bank_loaded rd at ticks pc.old (bench_from regs.old bank.now)
        ≡ stood_after stop.new pc.new (bench_from regs.new bank.now) }
    ensures stays { result ≡ false → regs.new ≡ regs.old }
{
    let place = doubleword_at(at);
    if place >= bank.len() as u64 {
        *stop = Some(Cause::Access(at));
        return false;
    }
    regs.set(rd, read_bank(bank, place, ticks));
    *pc = pc.wrapping_add(4);
    true
}

/// A store to a doubleword of the bank.
#[inline(always)]
fn store(value: u64, at: u64, pc: &mut u64, stop: &mut Option<Cause>, bank: &mut [u64]) -> bool
    requires bank { length bank.old ≡ bank_len }
    requires stop { stop.old ≡ None }
    ensures goes { result ≡ is_none stop.new }
    ensures len { length bank.new ≡ length bank.old }
    ensures stored { (regs : List ℕ)
        → bank_stored value at pc.old (bench_from regs bank.old) ≡ stood_after stop.new pc.new (bench_from regs bank.new) }
    ensures stays { result ≡ false → bank.new ≡ bank.old }
{
    let place = doubleword_at(at);
    if place >= bank.len() as u64 {
        *stop = Some(Cause::Access(at));
        return false;
    }
    write_bank(bank, place, value);
    *pc = pc.wrapping_add(4);
    true
}

/// Executes the instruction at pc. It is a call of its own, so that a hart that just goes on copies no instruction.
#[inline(never)]
fn execute_wholly(
    flat: &Flat,
    instr: &Option<Instr>,
    number: HartNo,
    pc: &mut u64,
    stop: &mut Option<Cause>,
    regs: &mut Regs,
    shared: &mut Shared,
) -> bool
    requires flat { IsFlatOf instr.now flat.now }
    requires word { IfSome instr.now HasWord }
    requires number { number < length shared.old.resv }
    requires stop { stop.old ≡ None }
    ensures goes { result ≡ is_none stop.new }
    ensures state { IsExecuted (exec_decoded instr.now pc.old number)
        (state_of regs.old (prog_in shared.old)) (next_after stop.new pc.new) (state_of regs.new (prog_in shared.new)) }
{
    run_or_execute::<Wholly>(flat, *instr, number, pc, stop, regs, shared)
}

/// Runs the word at pc by its flat, and executes its instruction where that does nothing.
#[inline(always)]
#[tactic(auto, using(rv_exec::proofs::Flats::goes_as))]
fn run(
    flat: &Flat,
    instr: &Option<Instr>,
    number: HartNo,
    pc: &mut u64,
    stop: &mut Option<Cause>,
    regs: &mut Regs,
    shared: &mut Shared,
) -> bool
    requires flat { IsFlatOf instr.now flat.now }
    requires word { IfSome instr.now HasWord }
    requires number { number < length shared.old.resv }
    requires stop { stop.old ≡ None }
    ensures goes { result ≡ is_none stop.new }
    ensures state { IsExecuted (exec_decoded instr.now pc.old number)
        (state_of regs.old (prog_in shared.old)) (next_after stop.new pc.new) (state_of regs.new (prog_in shared.new)) }
{
    let at = *pc;
    if let Some(mut next) = Pc::new(at, at) {
        if flat.run::<Alone>(number, &mut next, regs, shared) {
            *pc = next.address();
            return true;
        }
    }
    // The pc goes in a place of its own, since it is kept in a register else.
    let mut next = at;
    let goes = execute_wholly(flat, instr, number, &mut next, stop, regs, shared);
    *pc = next;
    goes
}

/// Performs a slot's word at pc, by a hart that isn't stopped. It sets the next pc, or the cause for which the hart stops. Returns
/// whether the hart goes on. A stop changes nothing else, but that the program's SC clears the hart's reservation also where it
/// stops. It takes no memory.
#[inline(always)]
#[tactic(auto, using(crate::proofs::Performed::run_fits, crate::proofs::Performed::load_fits, crate::proofs::Performed::store_fits, crate::proofs::Performed::access_fits))]
pub fn perform(
    slot: &Slot,
    number: HartNo,
    progress: &mut Progress,
    hart: &mut HartState,
    shared: &mut Shared,
) -> bool
    requires number { number < length shared.old.resv }
    requires stop { hart.old.stop ≡ None }
    ensures goes { result ≡ is_none hart.new.stop }
    ensures harts { length shared.new.resv ≡ length shared.old.resv }
    ensures performed { Performs slot.now number (alone_of progress.old hart.old (prog_in shared.old))
        (alone_of progress.new hart.new (prog_in shared.new)) }
{
    match slot.operation() {
        Operation::Run { flat, instr } => {
            let (pc, stop, regs) = (&mut progress.pc, &mut hart.stop, &mut hart.regs);
            run(flat, instr, number, pc, stop, regs, shared)
        }
        Operation::LoadBank { rd, rs1, offset } => {
            let at = hart.regs.get(*rs1).wrapping_add(*offset);
            load(
                *rd,
                at,
                progress.ticks,
                &mut progress.pc,
                &mut hart.stop,
                &mut hart.regs,
                hart.bank.as_slice(),
            )
        }
        Operation::StoreBank { rs1, rs2, offset } => {
            let at = hart.regs.get(*rs1).wrapping_add(*offset);
            let value = hart.regs.get(*rs2);
            let pc = &mut progress.pc;
            store(value, at, pc, &mut hart.stop, hart.bank.as_mut_slice())
        }
        Operation::NoAccess { rs1, offset } => {
            hart.stop = Some(Cause::Access(hart.regs.get(*rs1).wrapping_add(*offset)));
            false
        }
        Operation::Stop(cause) => {
            hart.stop = Some(*cause);
            false
        }
    }
}
