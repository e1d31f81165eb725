//! The ELF file of an assembly text.

ghost use Rattle.std.specs.Prelude.{◌≡◌, ◌≤◌, Ok, Err, IfOk, MatchResult, length};
ghost use Rattle.rv_asm.specs.Means.{AsmRefuses};
ghost use Rattle.elf_write.specs.Made.{elf_of, IsMeantAgain};

use crate::write;
use elf_form::MAX_PROGRAM_LEN;
use rv_asm::{AsmError, assemble};
use std::alloc::Global;

/// Returns the ELF file of the program that an assembly text stands for. The text has at most [`MAX_PROGRAM_LEN`] bytes.
///
/// # Errors
///
/// The text's first fault, or out of memory.
#[tactic(auto, using(crate::proofs::Writable::can_write))]
pub fn elf_of_text(alloc: Global, text: &[u8]) -> Result<Vec<u8>, AsmError>
    requires { length text.now ≤ MAX_PROGRAM_LEN }
    ensures file { MatchResult result (λ bytes. elf_of text.now ≡ Ok bytes.items) (λ e. AsmRefuses e (λ fault. elf_of text.now ≡ Err fault)) }
    // Read as an ELF file it is the same program, where that begins in its text.
    ensures again { IfOk result (λ bytes. IsMeantAgain text.now bytes.items) }
{
    let image = assemble(alloc, text)?;
    Ok(write(alloc, &image)?)
}
