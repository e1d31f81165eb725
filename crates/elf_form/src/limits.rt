//! How much of a program is taken.

/// The greatest length of an ELF file, or of an assembly text, that is taken for a program, in bytes.
pub const MAX_PROGRAM_LEN: u64 = 33_554_432;
