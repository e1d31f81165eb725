//! The assembler: from a text to the image of a program.
//!
//! What a text stands for is a definition in `specs/`, from the whole down: `Assembly` (the image, and what is wrong with
//! the whole), `FirstPass` (the lines in order) and `SecondPass` (words, jumps and addresses), `Checks` (where a statement
//! stands, which numbers fit) and `Layout` (bytes of a statement), `Parsing` (comments, labels, a line), `Statements` (the
//! table of forms) and `Operations` (its mnemonics), `Operands`, `Tokens`, `Numbers`, `Registers` and `Bytes`.
#![tactic(auto)]

mod addresses;
mod assembling;
mod checks;
mod draft;
mod fault;
mod first_pass;
mod groups;
mod image;
mod layout;
mod line;
mod named;
mod number;
mod operands;
mod plain;
mod plain_forms;
mod registers;
mod rows;
mod second_pass;
mod singles;
mod statement;
mod token;

pub use assembling::assemble;
pub use fault::{AsmError, AsmFault};
pub use named::{NAMED_FORMS, NamedForm};
pub use number::Number;
pub use plain_forms::{PLAIN_FORMS, PlainForm};
pub use registers::USUAL_NAMES;
pub use second_pass::reaches;
pub use statement::{Statement, ValueWidth};
