//! The names of registers.

ghost use Rattle.std.specs.Prelude.{◌≡◌};
ghost use Rattle.rv_asm.specs.Registers.{named, numbered_names, usual_names, register_of};

use crate::rows::named_row;

/// The registers by their numbers.
const NUMBERED_NAMES: [(&[u8], u32); 32] = [
    (b"x0", 0),
    (b"x1", 1),
    (b"x2", 2),
    (b"x3", 3),
    (b"x4", 4),
    (b"x5", 5),
    (b"x6", 6),
    (b"x7", 7),
    (b"x8", 8),
    (b"x9", 9),
    (b"x10", 10),
    (b"x11", 11),
    (b"x12", 12),
    (b"x13", 13),
    (b"x14", 14),
    (b"x15", 15),
    (b"x16", 16),
    (b"x17", 17),
    (b"x18", 18),
    (b"x19", 19),
    (b"x20", 20),
    (b"x21", 21),
    (b"x22", 22),
    (b"x23", 23),
    (b"x24", 24),
    (b"x25", 25),
    (b"x26", 26),
    (b"x27", 27),
    (b"x28", 28),
    (b"x29", 29),
    (b"x30", 30),
    (b"x31", 31),
];

/// The registers by the names of the calling convention.
pub const USUAL_NAMES: [(&[u8], u32); 32] = [
    (b"zero", 0),
    (b"ra", 1),
    (b"sp", 2),
    (b"gp", 3),
    (b"tp", 4),
    (b"t0", 5),
    (b"t1", 6),
    (b"t2", 7),
    (b"s0", 8),
    (b"s1", 9),
    (b"a0", 10),
    (b"a1", 11),
    (b"a2", 12),
    (b"a3", 13),
    (b"a4", 14),
    (b"a5", 15),
    (b"a6", 16),
    (b"a7", 17),
    (b"s2", 18),
    (b"s3", 19),
    (b"s4", 20),
    (b"s5", 21),
    (b"s6", 22),
    (b"s7", 23),
    (b"s8", 24),
    (b"s9", 25),
    (b"s10", 26),
    (b"s11", 27),
    (b"t3", 28),
    (b"t4", 29),
    (b"t5", 30),
    (b"t6", 31),
];

/// The register `x0` to `x31` of this name.
fn numbered(name: &[u8]) -> Option<u32>
    ensures { result ≡ named name.now numbered_names }
{
    named_row(name, &NUMBERED_NAMES)
}

/// The register of this name of the calling convention.
fn usual(name: &[u8]) -> Option<u32>
    ensures { result ≡ named name.now usual_names }
{
    named_row(name, &USUAL_NAMES)
}

/// The register of this name.
#[tactic(auto, unfolding(crate::specs::Registers::register_of))]
pub(crate) fn register_number(name: &[u8]) -> Option<u32>
    ensures { result ≡ register_of name.now }
{
    match usual(name) {
        Some(number) => Some(number),
        None => numbered(name),
    }
}
