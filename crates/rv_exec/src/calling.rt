//! System calls.

ghost use Rattle.std.specs.Prelude.{◌≡◌, ◌≤◌, List, ℕ, Option, None, min};
ghost use Rattle.rv_word.specs.Exec.{system_call, minus, written_is};
ghost use Rattle.rv_exec.specs.Gives.{IsExecuted, state_from, next_after};
ghost use Rattle.rv_word.specs.Memory.{bytes_at};

use crate::outcomes::next_pc;
use crate::output::{OUTPUT_LIMIT, Output};
use crate::regs::Regs;
use rv_mem::Mem;
use rv_word::{Cause, MemStop};

/// The number -n.
fn minus(n: u64) -> u64
    requires { (1 ≤ n) × (n ≤ 100) }
    ensures { result ≡ minus n }
{
    u64::MAX - (n - 1)
}

/// Appends n bytes to the output. Returns what the call returns, or the address in text where it stops.
fn write_bytes(at: u64, n: u32, mem: &Mem, out: &mut Output) -> Result<u64, u64>
    requires { n ≤ 4096 }
    ensures { written_is (bytes_at n mem.now at) out.old ≡ (result, out.new) }
{
    match mem.readable(at, n) {
        Err(MemStop::Unmapped(_)) => Ok(minus(14)),
        Err(MemStop::InText(at)) => Err(at),
        Ok(()) => {
            if out.bytes().len() + n as usize > OUTPUT_LIMIT {
                Ok(minus(28))
            } else {
                out.append(mem, at, n);
                Ok(n as u64)
            }
        }
    }
}

/// Appends the bytes to the output, at most 4,096 of them. Returns what the call returns, or the address in text where it stops.
fn write(at: u64, len: u64, mem: &Mem, out: &mut Output) -> Result<u64, u64>
    ensures { written_is (bytes_at (min len 4096) mem.now at) out.old ≡ (result, out.new) }
{
    if len < 4096 {
        write_bytes(at, len as u32, mem, out)
    } else {
        write_bytes(at, 4096, mem, out)
    }
}

/// Calls the system, by the number in a7. Returns the next pc, and notes the cause if the hart stops.
#[inline(never)]
pub fn call(pc: u64, stop: &mut Option<Cause>, regs: &mut Regs, mem: &Mem, out: &mut Output) -> u64
    requires { stop.old ≡ None }
    ensures { (resv : List (Option ℕ)) → IsExecuted (system_call pc)
        (state_from regs.old mem.now resv out.old) (next_after stop.new result) (state_from regs.new mem.now resv out.new) }
{
    let number = regs.get(17);
    let first = regs.get(10);
    if number == 93 || number == 94 {
        *stop = Some(Cause::Exit((first % 256) as u8));
        return pc;
    }
    let answer = if number != 64 {
        minus(38)
    } else if first != 1 && first != 2 {
        minus(9)
    } else {
        match write(regs.get(11), regs.get(12), mem, out) {
            Ok(answer) => answer,
            Err(at) => {
                *stop = Some(Cause::TextAccess(at));
                return pc;
            }
        }
    };
    regs.set(10, answer);
    next_pc(pc)
}
