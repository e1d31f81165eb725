//! The disassembler: the text of a word of a program, as the assembler reads it.
//!
//! What the text is, is a definition in `specs/`: `Texts` (a word, its operation's name) and `Operands`.
#![tactic(auto)]

mod bare;
mod laws;
mod mnemonics;
mod operand;
mod text;
mod word_text;

pub use laws::{lines_assemble, lines_stand_in_texts, words_assemble};
pub use operand::add_label;
pub use text::{add_instruction, named_target};
pub use word_text::add_word_text;
