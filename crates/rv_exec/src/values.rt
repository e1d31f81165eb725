//! What the operations compute.

ghost use Rattle.std.specs.Prelude.{◌≡◌, ◌≢◌, ◌<◌, ◌^◌, ◌*ℤ◌, pos};
ghost use Rattle.std.specs.Int.{w32, cast_signed, cast_unsigned};
ghost use Rattle.std.specs.Int.RustNames.{int_div};
ghost use Rattle.rv_word.specs.Values.{imm_value, shift_value, shift_word_value, is_branch_taken, reg_value, reg_32_value, high, loaded, load_len, low_word, store_len, flag};
ghost use Rattle.rv_exec.specs.Flat.{wide};

use rv_word::{BranchOp, ImmOp, LoadOp, RegOp, RegOp32, ShiftOp, StoreOp};

fn flag_of(test: bool) -> u64
    ensures { result ≡ flag test }
{
    if test { 1 } else { 0 }
}

/// The low half with its sign.
pub fn low_word_of(x: u64) -> u64
    ensures { result ≡ low_word x }
{
    let low = (x % 0x1_0000_0000) as u32;
    (low.cast_signed() as i64).cast_unsigned()
}

/// The 64-bit number of an immediate with its sign.
#[inline(always)]
pub fn widened(immediate: i32) -> u64
    ensures { result ≡ wide immediate }
{
    (immediate as i64).cast_unsigned()
}

/// What an operation on a register and an immediate computes.
pub fn imm_result(op: ImmOp, x: u64, y: u64) -> u64
    ensures { result ≡ imm_value op x y }
{
    match op {
        ImmOp::Addi => x.wrapping_add(y),
        ImmOp::Slti => flag_of(x.cast_signed() < y.cast_signed()),
        ImmOp::Sltiu => flag_of(x < y),
        ImmOp::Xori => x ^ y,
        ImmOp::Ori => x | y,
        ImmOp::Andi => x & y,
    }
}

/// What a shift by a number of bits below 64 computes.
pub fn shift_result(op: ShiftOp, x: u64, by: u32) -> u64
    requires { by < 64 }
    ensures { result ≡ shift_value op x by }
{
    match op {
        ShiftOp::Sll => x << by,
        ShiftOp::Srl => x >> by,
        ShiftOp::Sra => (x.cast_signed() >> by).cast_unsigned(),
    }
}

/// What a shift of the low half by a number of bits below 32 computes.
pub fn shift_word_result(op: ShiftOp, x: u64, by: u32) -> u64
    requires { by < 32 }
    ensures { result ≡ shift_word_value op x by }
{
    let low = (x % 0x1_0000_0000) as u32;
    match op {
        ShiftOp::Sll => low_word_of((low << by) as u64),
        ShiftOp::Srl => low_word_of((low >> by) as u64),
        ShiftOp::Sra => low_word_of((low.cast_signed() >> by).cast_unsigned() as u64),
    }
}

/// The high half of a product with signs.
fn high_signed(x: i64, y: i64) -> u64
    ensures { result ≡ high (x *ℤ y) }
{
    let product = x as i128 * y as i128;
    ((product >> 64) as i64).cast_unsigned()
}

/// The high half of a product whose first factor has a sign.
fn high_mixed(x: i64, y: u64) -> u64
    ensures { result ≡ high (x *ℤ pos y) }
{
    let product = x as i128 * y as i128;
    ((product >> 64) as i64).cast_unsigned()
}

/// What an operation on two registers computes.
pub fn reg_result(op: RegOp, x: u64, y: u64) -> u64
    ensures { result ≡ reg_value op x y }
{
    let by = (y % 64) as u32;
    match op {
        RegOp::Add => x.wrapping_add(y),
        RegOp::Sub => x.wrapping_sub(y),
        RegOp::Sll => x << by,
        RegOp::Slt => flag_of(x.cast_signed() < y.cast_signed()),
        RegOp::Sltu => flag_of(x < y),
        RegOp::Xor => x ^ y,
        RegOp::Srl => x >> by,
        RegOp::Sra => (x.cast_signed() >> by).cast_unsigned(),
        RegOp::Or => x | y,
        RegOp::And => x & y,
        RegOp::Mul => x.wrapping_mul(y),
        RegOp::Mulh => high_signed(x.cast_signed(), y.cast_signed()),
        RegOp::Mulhsu => high_mixed(x.cast_signed(), y),
        RegOp::Mulhu => (x as u128 * y as u128 >> 64) as u64,
        RegOp::Div if y == 0 => u64::MAX,
        RegOp::Div => x
            .cast_signed()
            .wrapping_div(y.cast_signed())
            .cast_unsigned(),
        RegOp::Divu if y == 0 => u64::MAX,
        RegOp::Divu => x / y,
        RegOp::Rem if y == 0 => x,
        RegOp::Rem => x
            .cast_signed()
            .wrapping_rem(y.cast_signed())
            .cast_unsigned(),
        RegOp::Remu if y == 0 => x,
        RegOp::Remu => x % y,
    }
}

/// The quotient of two words with signs.
fn signed_quotient(dividend: u32, divisor: u32) -> u32
    requires { divisor ≢ 0 }
    ensures { result ≡ cast_unsigned w32 (int_div (cast_signed w32 dividend) (cast_signed w32 divisor)) }
{
    dividend
        .cast_signed()
        .wrapping_div(divisor.cast_signed())
        .cast_unsigned()
}

/// What an operation on the low halves of two registers computes.
pub fn reg_32_result(op: RegOp32, x: u64, y: u64) -> u64
    ensures { result ≡ reg_32_value op x y }
{
    let by = (y % 32) as u32;
    let dividend = (x % 0x1_0000_0000) as u32;
    let divisor = (y % 0x1_0000_0000) as u32;
    match op {
        RegOp32::Addw => low_word_of(x.wrapping_add(y)),
        RegOp32::Subw => low_word_of(x.wrapping_sub(y)),
        RegOp32::Sllw => shift_word_result(ShiftOp::Sll, x, by),
        RegOp32::Srlw => shift_word_result(ShiftOp::Srl, x, by),
        RegOp32::Sraw => shift_word_result(ShiftOp::Sra, x, by),
        RegOp32::Mulw => low_word_of(x.wrapping_mul(y)),
        RegOp32::Divw if divisor == 0 => u64::MAX,
        RegOp32::Divw => low_word_of(signed_quotient(dividend, divisor) as u64),
        RegOp32::Divuw if divisor == 0 => u64::MAX,
        RegOp32::Divuw => low_word_of((dividend / divisor) as u64),
        RegOp32::Remw if divisor == 0 => low_word_of(x),
        RegOp32::Remw => low_word_of(
            dividend
                .cast_signed()
                .wrapping_rem(divisor.cast_signed())
                .cast_unsigned() as u64,
        ),
        RegOp32::Remuw if divisor == 0 => low_word_of(x),
        RegOp32::Remuw => low_word_of((dividend % divisor) as u64),
    }
}

/// Whether a branch is taken.
pub fn is_taken(op: BranchOp, x: u64, y: u64) -> bool
    ensures { result ≡ is_branch_taken op x y }
{
    match op {
        BranchOp::Beq => x == y,
        BranchOp::Bne => x != y,
        BranchOp::Blt => x.cast_signed() < y.cast_signed(),
        BranchOp::Bge => x.cast_signed() >= y.cast_signed(),
        BranchOp::Bltu => x < y,
        BranchOp::Bgeu => x >= y,
    }
}

/// How many bytes a load reads.
pub fn load_width(op: LoadOp) -> u32
    ensures { result ≡ load_len op }
{
    match op {
        LoadOp::Lb | LoadOp::Lbu => 1,
        LoadOp::Lh | LoadOp::Lhu => 2,
        LoadOp::Lw | LoadOp::Lwu => 4,
        LoadOp::Ld => 8,
    }
}

/// How many bytes a store writes.
pub fn store_width(op: StoreOp) -> u32
    ensures { result ≡ store_len op }
{
    match op {
        StoreOp::Sb => 1,
        StoreOp::Sh => 2,
        StoreOp::Sw => 4,
        StoreOp::Sd => 8,
    }
}

/// What a load makes of the number in its bytes.
pub fn load_result(op: LoadOp, n: u64) -> u64
    requires { n < 256 ^ load_len op }
    ensures { result ≡ loaded op n }
{
    match op {
        LoadOp::Lb => ((n as u8).cast_signed() as i64).cast_unsigned(),
        LoadOp::Lh => ((n as u16).cast_signed() as i64).cast_unsigned(),
        LoadOp::Lw => ((n as u32).cast_signed() as i64).cast_unsigned(),
        _ => n,
    }
}
