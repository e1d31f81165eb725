//! Words that a hart executes.

use crate::comparison::compare;
use crate::images::image;
use pn_types::{HartNo, NoMemory};
use rv_exec::{Decoded, Output, Regs, Reservations, Shared, exec};
use rv_mem::Mem;
use rv_word::{Cause, Next};
use std::alloc::Global;

/// The data of the image.
const DATA: u64 = 0x1_0010;

/// `lr.w a0, (a1)`, `sc.w a2, a0, (a1)`, `ld a3, 0(a1)`, `jalr a4, 2(x0)` and `sc.d a2, a0, (a1)`.
const WORDS: [u32; 5] = [
    0x1005_a52f,
    0x18a5_a62f,
    0x0005_b683,
    0x0020_0767,
    0x18a5_b62f,
];

/// Returns what the words lead to, one after the other; whether the hart has the reservation of the data after the first, after the
/// second, and after the last, which refuses an address that is no multiple of 8; and the registers that the first four name first.
fn execute_words(alloc: Global) -> Result<([Next; 5], [bool; 3], [u64; 4]), NoMemory> {
    let hart = HartNo::first();
    let mut shared = Shared {
        mem: Mem::new(alloc, &image(alloc)?, 1)?,
        resv: Reservations::new(alloc, 1)?,
        out: Output::new(alloc)?,
    };
    let mut regs = Regs::new();
    regs.set(11, DATA);
    let [first, second, third, fourth, fifth] = WORDS;
    let first = exec(first, 0x1_0000, hart, &mut regs, &mut shared);
    let behind_first = shared.resv.has(hart, DATA / 8);
    let second = exec(second, 0x1_0004, hart, &mut regs, &mut shared);
    let behind_second = shared.resv.has(hart, DATA / 8);
    let third = exec(third, 0x1_0008, hart, &mut regs, &mut shared);
    let fourth = exec(fourth, 0x1_000c, hart, &mut regs, &mut shared);
    shared.resv.set(hart, Some(DATA / 8));
    regs.set(11, DATA + 4);
    let fifth = exec(fifth, 0x1_0010, hart, &mut regs, &mut shared);
    let behind_fifth = shared.resv.has(hart, DATA / 8);
    Ok((
        [first, second, third, fourth, fifth],
        [behind_first, behind_second, behind_fifth],
        [regs.get(10), regs.get(12), regs.get(13), regs.get(14)],
    ))
}

#[test]
fn executes_words_in_turn(rt: HostRuntime) {
    let next = [
        Next::Go(0x1_0004),
        Next::Go(0x1_0008),
        Next::Go(0x1_000c),
        Next::Stop(Cause::Misaligned),
        Next::Stop(Cause::Misaligned),
    ];
    let registers = [0x0403_0201, 0, 0x0807_0605_0403_0201, 0];
    compare(
        &rt,
        execute_words(rt.alloc()),
        Ok((next, [true, false, false], registers)),
    );
}

/// Returns whether the hart goes on after an `ecall` that writes three bytes of the data, its pc and its stop, what the call
/// returns, and whether these bytes are the output.
fn write_three(alloc: Global) -> Result<(bool, u64, Option<Cause>, u64, bool), NoMemory> {
    let mut shared = Shared {
        mem: Mem::new(alloc, &image(alloc)?, 1)?,
        resv: Reservations::new(alloc, 1)?,
        out: Output::new(alloc)?,
    };
    let mut regs = Regs::new();
    regs.set(17, 64);
    regs.set(10, 1);
    regs.set(11, DATA);
    regs.set(12, 3);
    let mut pc = 0x1_0000;
    let mut stop = None;
    let goes = Decoded::new(0x73).run(HartNo::first(), &mut pc, &mut stop, &mut regs, &mut shared);
    let written = shared.out.bytes() == [1, 2, 3].as_slice();
    Ok((goes, pc, stop, regs.get(10), written))
}

#[test]
fn writes_the_output(rt: HostRuntime) {
    let word = Decoded::new(0x73).word();
    compare(
        &rt,
        (word, write_three(rt.alloc())),
        (0x73, Ok((true, 0x1_0004, None, 3, true))),
    );
}
