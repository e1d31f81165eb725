//! Numbers, lines and tokens of the texts that are read.
#![tactic(auto)]

mod blanks;
mod lexeme;
mod line;
mod numbers;
mod place;
mod scanner;
mod token;

pub use line::next_line;
pub use numbers::number;
pub use place::Place;
pub use scanner::Scanner;
pub use token::{LexFault, Sign, Token, TokenKind};
