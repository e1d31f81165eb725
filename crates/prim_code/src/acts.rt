//! The words of each act, on the first slot of its variable.

ghost use Rattle.std.specs.Prelude.{◌≡◌, ◌<◌, ◌^◌};
ghost use Rattle.tramp_spec.specs.Statements as table;

use crate::words::{add_one, branch, combine, high, keep, load, take_one, ticks};
use rv_word::{BranchOp, Instr, RegOp};
use tramp_spec::put_number;

/// A counter becomes one more.
pub fn up(slot: u64) -> [Instr; 4]
    requires { slot < 2 ^ 32 }
    ensures { result ≡ table.up_code slot }
{
    [high(slot), load(5, slot), add_one(), keep(slot)]
}

/// A counter becomes one less, but stays at 0.
pub fn down(slot: u64) -> [Instr; 5]
    requires { slot < 2 ^ 32 }
    ensures { result ≡ table.down_code slot }
{
    [
        high(slot),
        load(5, slot),
        branch(BranchOp::Beq, 12),
        take_one(),
        keep(slot),
    ]
}

/// A counter becomes a number.
pub fn put(slot: u64, n: u32) -> [Instr; 4]
    requires { slot < 2 ^ 32 }
    ensures { result ≡ table.put_code slot n }
{
    let [upper, lower] = put_number(5, u64::from(n));
    [upper, lower, high(slot), keep(slot)]
}

/// A timer has one start more; where it had none, the ticks are taken from its sum.
pub fn start(slot: u64) -> [Instr; 12]
    requires { slot < 2 ^ 32 }
    ensures { result ≡ table.start_code slot }
{
    let starts = slot + 1;
    let unless_first = branch(BranchOp::Bne, 28);
    [
        high(starts),
        load(5, starts),
        add_one(),
        keep(starts),
        take_one(),
        unless_first,
        high(slot),
        load(31, slot),
        ticks(),
        combine(RegOp::Sub),
        high(slot),
        keep(slot),
    ]
}

/// A timer has one start less, where it has one; where it has none left, the ticks are added to its sum.
pub fn stop(slot: u64) -> [Instr; 12]
    requires { slot < 2 ^ 32 }
    ensures { result ≡ table.stop_code slot }
{
    let starts = slot + 1;
    let unless_some = branch(BranchOp::Beq, 40);
    let unless_last = branch(BranchOp::Bne, 28);
    [
        high(starts),
        load(5, starts),
        unless_some,
        take_one(),
        keep(starts),
        unless_last,
        high(slot),
        load(31, slot),
        ticks(),
        combine(RegOp::Add),
        high(slot),
        keep(slot),
    ]
}
