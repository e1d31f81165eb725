//! Why a program is refused, and the words for it.

ghost use Rattle.std.specs.Prelude.{◌≡◌, ◌++◌, OnOk};
ghost use Rattle.std.specs.Fmt.{decimal};
ghost use Rattle.pn_types.specs.Texts.{address};
ghost use Rattle.refusals.specs.Faults.{asm_text, elf_text, program_text};

use elf_form::ElfFault;
use pn_types::NoMemory;
use rv_asm::AsmFault;
use std::alloc::Global;

/// What is wrong with a program.
#[derive(Clone, Copy, PartialEq, Eq, Drop)]
pub enum ProgramFault {
    /// Its ELF file has this first fault.
    Elf(ElfFault),
    /// It is an assembly text with this first fault.
    Asm(AsmFault),
    /// It has more than 33,554,432 bytes.
    TooLong,
}

/// Adds words and a decimal number.
pub(crate) fn add_number(
    alloc: Global,
    line: &mut Vec<u8>,
    words: &[u8],
    number: u128,
) -> Result<(), NoMemory>
    ensures { OnOk result (line.new.items ≡ line.old.items ++ (words.now ++ decimal number)) }
{
    line.extend_from_slice(words)?;
    line.extend_from_slice(format!(in alloc; "{number}")?.as_bytes())
}

/// Adds words and a hexadecimal number.
fn add_address(alloc: Global, line: &mut Vec<u8>, words: &[u8], at: u64) -> Result<(), NoMemory>
    ensures { OnOk result (line.new.items ≡ line.old.items ++ (words.now ++ address at)) }
{
    line.extend_from_slice(words)?;
    line.extend_from_slice(format!(in alloc; "0x{at:x}")?.as_bytes())
}

/// Adds what is wrong with an ELF file.
fn add_elf(alloc: Global, line: &mut Vec<u8>, fault: ElfFault) -> Result<(), NoMemory>
    ensures { OnOk result (line.new.items ≡ line.old.items ++ elf_text fault) }
{
    match fault {
        ElfFault::NotElf => line.extend_from_slice(b"not elf"),
        ElfFault::Short(len) => add_number(alloc, line, b"short ", len as u128),
        ElfFault::NotRiscv64 => line.extend_from_slice(b"not riscv64"),
        ElfFault::Flags(flags) => add_address(alloc, line, b"flags ", flags as u64),
        ElfFault::BadSegment(index) => add_number(alloc, line, b"bad segment ", index as u128),
        ElfFault::LowSegment(at) => add_address(alloc, line, b"low segment ", at),
        ElfFault::HighSegment(at) => add_address(alloc, line, b"high segment ", at),
        ElfFault::Overlap(at) => add_address(alloc, line, b"overlap ", at),
        ElfFault::TooBig(len) => add_number(alloc, line, b"too big ", len as u128),
        ElfFault::NoText => line.extend_from_slice(b"no text"),
        ElfFault::TwoTexts(at) => add_address(alloc, line, b"two texts ", at),
        ElfFault::TextUnaligned(at) => add_address(alloc, line, b"text unaligned ", at),
        ElfFault::TextTooLong(len) => add_number(alloc, line, b"text too long ", len as u128),
        ElfFault::UsesScratch(at) => add_address(alloc, line, b"uses x31 at ", at),
        ElfFault::BadEntry(at) => add_address(alloc, line, b"bad entry ", at),
        ElfFault::BadSymbols => line.extend_from_slice(b"bad symbols"),
    }
}

/// Adds what is wrong with an assembly text.
fn add_asm(alloc: Global, line: &mut Vec<u8>, fault: AsmFault) -> Result<(), NoMemory>
    ensures { OnOk result (line.new.items ≡ line.old.items ++ asm_text fault) }
{
    match fault {
        AsmFault::BadLine(number) => add_number(alloc, line, b"bad line ", number as u128),
        AsmFault::BadNumber(number) => add_number(alloc, line, b"bad number line ", number as u128),
        AsmFault::UsesScratch(number) => add_number(alloc, line, b"uses x31 line ", number as u128),
        AsmFault::TwiceNamed(number) => add_number(
            alloc,
            line,
            b"named twice line ",
            number as u128,
        ),
        AsmFault::UnknownName(number) => add_number(
            alloc,
            line,
            b"unknown name line ",
            number as u128,
        ),
        AsmFault::OutOfReach(number) => add_number(
            alloc,
            line,
            b"out of reach line ",
            number as u128,
        ),
        AsmFault::NoText => line.extend_from_slice(b"no text"),
        AsmFault::TextTooLong(len) => add_number(alloc, line, b"text too long ", len as u128),
        AsmFault::DataTooLong(len) => add_number(alloc, line, b"data too long ", len),
    }
}

/// Adds what is wrong with a program.
pub(crate) fn add_program(
    alloc: Global,
    line: &mut Vec<u8>,
    fault: ProgramFault,
) -> Result<(), NoMemory>
    ensures { OnOk result (line.new.items ≡ line.old.items ++ program_text fault) }
{
    match fault {
        ProgramFault::Elf(fault) => add_elf(alloc, line, fault),
        ProgramFault::Asm(fault) => add_asm(alloc, line, fault),
        ProgramFault::TooLong => line.extend_from_slice(b"too long"),
    }
}
