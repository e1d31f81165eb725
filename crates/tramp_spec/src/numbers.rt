//! Numbers that two words put into a register.

ghost use Rattle.std.specs.Prelude.{◌≡◌, ◌<◌, ◌+◌, ◌^◌};
ghost use Rattle.rv_word.specs.Values as values;
ghost use Rattle.tramp_spec.specs.Jumps as jumps;

use rv_word::Instr;

/// The low 32 bits with their sign, as 64 bits.
fn low_word(n: u64) -> u64
    ensures { result ≡ values.low_word n }
{
    let low = (n % 0x1_0000_0000) as u32;
    (low.cast_signed() as i64).cast_unsigned()
}

/// The multiple of 4,096 next to a number below 2^63.
pub fn rounded(n: u64) -> u64
    requires { n < 2 ^ 63 }
    ensures { result ≡ jumps.rounded n }
{
    (n + 2048) / 4096 * 4096
}

/// What the lui has of a number: the multiple of 4,096 next to it, of 32 bits with their sign.
pub fn upper(n: u64) -> u64
    ensures { result ≡ jumps.upper n }
{
    low_word(n.wrapping_add(2048) / 4096 * 4096)
}

/// What the addiw adds to it, or the offset of a load or store.
pub fn lower(n: u64) -> u64
    ensures { result ≡ jumps.lower n }
{
    n.wrapping_sub(n.wrapping_add(2048) / 4096 * 4096)
}

/// Two words can put the number into a register: it has 32 bits with their sign.
pub fn is_signed_word(n: u64) -> bool
    ensures { result ≡ jumps.is_signed_word n }
{
    low_word(n) == n
}

/// The instructions that put such a number into a register.
pub fn put_number(rd: u32, n: u64) -> [Instr; 2]
    ensures { result ≡ jumps.put_number rd n }
{
    [
        Instr::Lui { rd, imm: upper(n) },
        Instr::Addiw {
            rd,
            rs1: rd,
            imm: lower(n),
        },
    ]
}
