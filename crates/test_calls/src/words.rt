//! Words, and where they may stand.

use crate::comparison::compare;
use rv_word::{
    AtomicWidth, Instr, decode, encode, first_scratch, is_call, is_return, jump_target, names_x31,
    split_word,
};

/// `add a7, t0, t0`.
const ADD: u32 = 0x0052_88b3;

/// `jal t1, 8`.
const JAL: u32 = 0x0080_036f;

/// `jal ra, 8`.
const CALL: u32 = 0x0080_00ef;

/// `jal x0, 8`.
const JUMP: u32 = 0x0080_006f;

/// `jalr x0, 0(ra)`.
const RET: u32 = 0x0000_8067;

/// `sc.d ra, ra, (t4)`.
const SC: u32 = 0x181e_b0af;

/// `lr.w a0, (a1)`.
const LR: u32 = 0x1005_a52f;

#[test]
fn atomic_accesses_are_told_apart(rt: HostRuntime) {
    let sc = Instr::Sc {
        width: AtomicWidth::Doubleword,
        rd: 1,
        rs1: 29,
        rs2: 1,
        order: 0,
    };
    let lr = Instr::Lr {
        width: AtomicWidth::Word,
        rd: 10,
        rs1: 11,
        order: 0,
    };
    // The last has a second register.
    let decoded = [decode(SC), decode(LR), decode(0x1015_a52f)];
    let is_decoded = matches!(
        decoded,
        [
            Some(Instr::Sc {
                width: AtomicWidth::Doubleword,
                rd: 1,
                rs1: 29,
                rs2: 1,
                order: 0,
            }),
            Some(Instr::Lr {
                width: AtomicWidth::Word,
                rd: 10,
                rs1: 11,
                order: 0,
            }),
            None,
        ]
    );
    let encoded = [encode(&sc), encode(&lr)];
    compare(&rt, (is_decoded, encoded), (true, [SC, LR]));
}

#[test]
fn words_name_and_lead(rt: HostRuntime) {
    let targets = [jump_target(JAL, 0x7_2914), jump_target(ADD, 0x7_2914)];
    let calls = [is_call(CALL), is_call(JAL), is_call(ADD)];
    let returns = [
        is_return(RET, 0x1_0000, 0x1_0000, 8),
        is_return(CALL, 0x1_0000, 0x1_0000, 8),
        is_return(JUMP, 0x1_0000, 0x1_0000, 8),
        is_return(JUMP, 0x1_0000, 0x1_0000, 12),
        is_return(JUMP, 0x1_0000, 0xffff_ffff_ffff_fff0, 0x20),
    ];
    let names = [names_x31(ADD), names_x31(ADD | 0x0f80)];
    compare(
        &rt,
        (targets, calls, returns, names),
        (
            [Some(0x7_291c), None],
            [true, false, false],
            [true, false, true, false, true],
            [false, true],
        ),
    );
}

#[test]
fn words_stand_in_texts(rt: HostRuntime) {
    let text = b"\xb3\x88\x52\0\xb3\x8f\x52\0";
    let (word, rest) = split_word(text);
    let scratch = first_scratch(text, 0x1_0000);
    compare(&rt, (word, rest.len(), scratch), (ADD, 4, Some(0x1_0004)));
}
