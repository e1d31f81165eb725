//! Programs from bytes.

ghost use Rattle.std.specs.Prelude.{◌≡◌, ◌≤◌, IfOk, length};
ghost use Rattle.elf_write.specs.Made.{elf_of};
ghost use Rattle.code_points.specs.Procedures.{AreModulesGood};
ghost use Rattle.elf_form.specs.Meaning.{meaning_of};
ghost use Rattle.commands.specs.Given.{IsUnscratched};
ghost use Rattle.commands.specs.Inputs.{begins_elf, or_bad_elf, or_bad_text, image_of, file_of};
ghost use Rattle.pn_types.specs.Images.{IsImage};
ghost use Rattle.refusals.specs.Refusals.{Comes};
ghost use Rattle.rv_asm.specs.Assembly.{assembled};

use elf_form::{ElfError, MAX_PROGRAM_LEN};
use elf_write::elf_of_text;
use pn_types::{Image, Seq};
use refusals::{Fault, ProgramFault, Refusal};
use rv_asm::{AsmError, assemble};
use std::alloc::Global;

/// Returns the refusal of a program.
pub fn bad_program(fault: ProgramFault) -> Refusal
    ensures { result ≡ Refusal.Fault (Fault.BadProgram fault) }
{
    Refusal::Fault(Fault::BadProgram(fault))
}

/// Returns whether the bytes begin as those of an ELF file.
pub fn begins_elf(bytes: &[u8]) -> bool
    ensures { result ≡ begins_elf bytes.now }
{
    4 <= bytes.len() && &bytes[..4] == b"\x7fELF".as_slice()
}

/// Returns the image of an ELF file.
fn load_elf(alloc: Global, bytes: &[u8]) -> Result<Image, Refusal>
    requires { length bytes.now ≤ MAX_PROGRAM_LEN }
    ensures loads { Comes result (λ image. image ≡ or_bad_elf (meaning_of bytes.now)) }
    ensures image { IfOk result IsImage }
    ensures modules { IfOk result AreModulesGood }
    ensures unscratched { IfOk result IsUnscratched }
{
    match elf_load::load(alloc, bytes) {
        Ok(image) => Ok(image),
        Err(ElfError::NoMemory) => Err(Refusal::NoMemory),
        Err(ElfError::Fault(fault)) => Err(bad_program(ProgramFault::Elf(fault))),
    }
}

/// Returns the image of an assembly text.
fn load_text(alloc: Global, bytes: &[u8]) -> Result<Image, Refusal>
    requires { length bytes.now ≤ MAX_PROGRAM_LEN }
    ensures loads { Comes result (λ image. image ≡ or_bad_text (assembled bytes.now)) }
    ensures image { IfOk result IsImage }
    ensures modules { IfOk result AreModulesGood }
    ensures unscratched { IfOk result IsUnscratched }
{
    match assemble(alloc, bytes) {
        Ok(image) => Ok(image),
        Err(AsmError::NoMemory) => Err(Refusal::NoMemory),
        Err(AsmError::Fault(fault)) => Err(bad_program(ProgramFault::Asm(fault))),
    }
}

/// Returns the image of a program's bytes.
///
/// # Errors
///
/// `Refusal::NoMemory` where memory runs out, or the program's first fault.
pub fn load(alloc: Global, bytes: &[u8]) -> Result<Image, Refusal>
    requires { length bytes.now ≤ MAX_PROGRAM_LEN }
    ensures loads { Comes result (λ image. image ≡ image_of bytes.now) }
    ensures image { IfOk result IsImage }
    ensures modules { IfOk result AreModulesGood }
    ensures unscratched { IfOk result IsUnscratched }
{
    if begins_elf(bytes) {
        load_elf(alloc, bytes)
    } else {
        load_text(alloc, bytes)
    }
}

/// Returns the ELF file of an assembly text.
///
/// # Errors
///
/// `Refusal::NoMemory` where memory runs out, or the text's first fault.
pub fn make_file(alloc: Global, text: &[u8]) -> Result<Seq<u8>, Refusal>
    requires { length text.now ≤ MAX_PROGRAM_LEN }
    ensures { Comes result (λ file. file ≡ file_of text.now) }
{
    match elf_of_text(alloc, text) {
        Ok(file) => Ok(Seq::from_vec(file)),
        Err(AsmError::NoMemory) => Err(Refusal::NoMemory),
        Err(AsmError::Fault(fault)) => Err(bad_program(ProgramFault::Asm(fault))),
    }
}
