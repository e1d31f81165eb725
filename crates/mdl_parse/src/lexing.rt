//! All tokens of a text.

ghost use Rattle.std.specs.Prelude.{◌≡◌, ◌+◌, ◌<◌, ◌^◌, [], length, IfOk};
ghost use Rattle.mdl_parse.specs.Lexing.{tokens_ahead, HasEnded, ending_of, AreTokens};

use pn_text::{LexFault, Place, Scanner, Token};
use pn_types::NoMemory;
use std::alloc::Global;

/// The tokens of a text, and how they end.
#[derive(Drop)]
pub(crate) struct Tokens {
    /// All of them, in order.
    pub(crate) all: Vec<Token>,
    /// Where the text ends after them, or the fault of what stands there.
    pub(crate) ending: Result<Place, LexFault>,
}

/// The token that a scanner returns, and None at its end or its fault.
fn next_token(scanner: &mut Scanner) -> Option<Token>
    ensures tokens { tokens_ahead result scanner.new ≡ scanner.old.tokens }
    ensures ending { scanner.new.ending ≡ scanner.old.ending }
    ensures ended { HasEnded result scanner.new }
{
    match scanner.next() {
        Ok(token) => token,
        Err(_) => None,
    }
}

/// How the tokens ended, all of which the scanner has returned.
fn ending(scanner: &mut Scanner) -> Result<Place, LexFault>
    requires { scanner.old.tokens ≡ [] }
    ensures { scanner.old.ending ≡ ending_of result }
{
    match scanner.next() {
        Ok(_) => Ok(scanner.place()),
        Err(fault) => Err(fault),
    }
}

/// All tokens of the text, which is shorter than 2^32 - 1 bytes.
pub(crate) fn tokenize(alloc: Global, text: &[u8]) -> Result<Tokens, NoMemory>
    requires { length text.now + 1 < 2 ^ 32 }
    ensures tokens { IfOk result (λ tokens. AreTokens text.now tokens.all.items tokens.ending) }
{
    let mut scanner = Scanner::new(text);
    let mut all = Vec::new(alloc);
    'tokens: while let Some(token) = next_token(&mut scanner) {
        all.push(token)?;
    }
    let ending = ending(&mut scanner);
    Ok(Tokens { all, ending })
}
