//! Why bytes are no ELF file that can be loaded, and why a file was not loaded.

use std::alloc::{AllocError, AllocFailed};

/// Why a file has no image. Lengths are in bytes.
#[derive(Clone, Copy, Debug, PartialEq, Eq, Drop)]
pub enum ElfFault {
    /// It doesn't begin as an ELF file.
    NotElf,
    /// A header, table, segment or section reaches past the end of the file, which has this length.
    Short(u64),
    /// It isn't an executable for 64-bit RISC-V.
    NotRiscv64,
    /// `e_flags`, this value, asks for compressed code, floating-point registers or RV32E.
    Flags(u32),
    /// The program header of this index has more bytes in the file than in memory, or is the seventeenth to load.
    BadSegment(u32),
    /// A segment begins at this address, below 0x10000.
    LowSegment(u64),
    /// The segment that begins at this address ends past 0x60000000.
    HighSegment(u64),
    /// This is the lowest address that two segments have.
    Overlap(u64),
    /// The segments have this many bytes together, above 25,165,824.
    TooBig(u64),
    /// No section is executable.
    NoText,
    /// The range of the executable sections, which begins at this address, isn't in the file part of one segment, or
    /// another section begins in it.
    TwoTexts(u64),
    /// The text begins or ends at this address, no multiple of 4.
    TextUnaligned(u64),
    /// The text has this length, above 524,288.
    TextTooLong(u64),
    /// The word at this address names x31.
    UsesScratch(u64),
    /// The entry, this address, isn't that of a word of the text.
    BadEntry(u64),
    /// The symbol table or its string table is malformed.
    BadSymbols,
}

/// Why a file was not loaded.
#[derive(Clone, Copy, Debug, PartialEq, Eq, Drop)]
pub enum ElfError {
    /// Memory ran out.
    NoMemory,
    /// The first fault of the file.
    Fault(ElfFault),
}

impl From<ElfFault> for ElfError {
    ghost use Rattle.std.specs.Prelude.{◌≡◌};
    ghost use Rattle.elf_form.specs.declared.fault.ElfError.TheVariants.{Fault};

    ghost from_gives = { λ fault e. e ≡ Fault fault };

    fn from(fault: ElfFault) -> ElfError {
        ElfError::Fault(fault)
    }
}

impl From<AllocError> for ElfError {
    ghost use Rattle.std.specs.Prelude.{◌≡◌};
    ghost use Rattle.elf_form.specs.declared.fault.ElfError.TheVariants.{NoMemory};

    ghost from_gives = { λ _ e. e ≡ NoMemory };

    fn from(_error: AllocError) -> ElfError {
        ElfError::NoMemory
    }
}

impl<T: Drop> From<AllocFailed<T>> for ElfError {
    ghost use Rattle.std.specs.Prelude.{◌≡◌};
    ghost use Rattle.elf_form.specs.declared.fault.ElfError.TheVariants.{NoMemory};

    ghost from_gives = { λ _ e. e ≡ NoMemory };

    fn from(_error: AllocFailed<T>) -> ElfError {
        ElfError::NoMemory
    }
}
