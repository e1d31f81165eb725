//! The names of operations, in the assembler's tables.

ghost use Rattle.std.specs.Prelude.{◌≡◌, map};
ghost use Rattle.disassembler.specs.FormsSeen.{has_word, name_with, named_instr, plain_instr};
ghost use Rattle.disassembler.specs.Texts.{mnemonic};

use crate::bare::{bare, named_instr, plain_instr};
use rv_asm::{NAMED_FORMS, NamedForm, PLAIN_FORMS, PlainForm};
use rv_word::{Instr, encode};

/// Whether there is an instruction that has the word.
fn has_word(instr: Option<Instr>, word: u32) -> bool
    ensures { result ≡ has_word instr word }
{
    match instr {
        Some(instr) => encode(&instr) == word,
        None => false,
    }
}

/// The name of the first form that makes the word.
fn plain_name(word: u32, rows: &[(&'static [u8], PlainForm)]) -> &'static [u8]
    ensures { result.now ≡ name_with plain_instr word (map (λ row. (row.0.now, row.1)) rows.now) }
{
    for row in rows {
        if has_word(plain_instr(row.1), word) {
            return row.0;
        }
    }
    &[]
}

/// The name of the first form with a name that makes the word.
fn named_name(word: u32, rows: &[(&'static [u8], NamedForm)]) -> &'static [u8]
    ensures { result.now ≡ name_with named_instr word (map (λ row. (row.0.now, row.1)) rows.now) }
{
    for row in rows {
        if has_word(named_instr(row.1), word) {
            return row.0;
        }
    }
    &[]
}

/// The name of the instruction's operation.
pub(crate) fn mnemonic(instr: &Instr) -> &'static [u8]
    ensures { result.now ≡ mnemonic instr.now }
{
    let word = encode(&bare(instr));
    match instr {
        Instr::Jal { .. } | Instr::Branch { .. } => named_name(word, &NAMED_FORMS),
        _ => plain_name(word, &PLAIN_FORMS),
    }
}
