//! The text of a word, with what an access with an order is.

ghost use Rattle.std.specs.Prelude.{◌≡◌, ◌≢◌, ◌++◌, OnOk};
ghost use Rattle.disassembler.specs.FormsSeen.{IsAccess};
ghost use Rattle.disassembler.specs.Texts.{order_comment, order_name, order_of, word_text};

use crate::mnemonics::mnemonic;
use crate::text::{add_access_operands, add_instruction};
use pn_types::NoMemory;
use rv_word::{Instr, decode};
use std::alloc::Global;

/// The bits of the order of an atomic access: 2 is `aq`, 1 is `rl`. Other instructions have none.
fn order_of(instr: &Instr) -> u32
    ensures order { result ≡ order_of instr.now }
    ensures access { result ≢ 0 → IsAccess instr.now }
{
    match *instr {
        Instr::Lr { order, .. } | Instr::Sc { order, .. } | Instr::Amo { order, .. } => order,
        _ => 0,
    }
}

/// The name of an order that isn't 0.
fn order_name(order: u32) -> &'static [u8]
    ensures { result.now ≡ order_name order }
{
    match order {
        1 => b".rl",
        2 => b".aq",
        _ => b".aqrl",
    }
}

/// Adds what an access with an order is, as a comment.
fn add_comment(alloc: Global, out: &mut Vec<u8>, instr: &Instr) -> Result<(), NoMemory>
    ensures { OnOk result (out.new.items ≡ out.old.items ++ order_comment instr.now) }
{
    let order = order_of(instr);
    if order == 0 {
        return Ok(());
    }
    out.extend_from_slice(b"  # ")?;
    out.extend_from_slice(mnemonic(instr))?;
    out.extend_from_slice(order_name(order))?;
    add_access_operands(alloc, out, instr)
}

/// Adds the text of the word at the address, as [`add_instruction`](crate::add_instruction) does, and behind it, as a comment, what it is
/// where it is an atomic access with an order, for which the assembler has no form.
///
/// # Errors
///
/// `NoMemory` where memory runs out.
#[tactic(auto, unfolding(crate::specs::Texts::word_text))]
pub fn add_word_text(alloc: Global, out: &mut Vec<u8>, at: u64, word: u32) -> Result<(), NoMemory>
    ensures { OnOk result (out.new.items ≡ out.old.items ++ word_text at word) }
{
    add_instruction(alloc, out, at, word)?;
    match decode(word) {
        Some(instr) => add_comment(alloc, out, &instr),
        None => Ok(()),
    }
}
