//! From a text to its configuration.

ghost use Rattle.std.specs.Prelude.{◌+◌, ◌<◌, ◌^◌, length, IfOk, IfErr};
ghost use Rattle.std.specs.List.{AllByRecursion};
ghost use Rattle.mdl_ast.specs.Small.{HasSmall};
ghost use Rattle.mdl_parse.specs.Lexing.{AreTokens};
ghost use Rattle.mdl_parse.specs.Meaning.{IsConf, Faults, ParseRefuses, OneConf, OneFault, ConfOrFault};

use crate::fault::ParseError;
use crate::lexing::tokenize;
use crate::refusal::Stop;
use crate::words::Words;
use mdl_ast::Conf;
use pn_text::{LexFault, Place, Token};
use std::alloc::Global;

/// The most conditions that a statement has.
const MAX_CONDITIONS: usize = 16;

/// The configuration that a text spells, or its first fault, where these are its tokens, which end so.
fn parsed(
    alloc: Global,
    text: &[u8],
    tokens: &[Token],
    ending: Result<Place, LexFault>,
) -> Result<Conf, ParseError>
    requires { AreTokens text.now tokens.now ending }
    ensures conf { IfOk result (λ conf. IsConf text.now conf) }
    ensures fault { IfErr result (λ e. ParseRefuses e (Faults text.now)) }
    ensures small { IfOk result (λ conf. AllByRecursion HasSmall conf.items) }
{
    let mut words = Words::new(text, tokens);
    match words.items(alloc, MAX_CONDITIONS) {
        Ok(items) => match words.unread(ending) {
            Some(fault) => Err(ParseError::Fault(fault)),
            None => Ok(Conf { items }),
        },
        Err(Stop::NoMemory) => Err(ParseError::NoMemory),
        Err(Stop::Refused(why)) => Err(ParseError::Fault(words.fault(ending, why))),
    }
}

/// Returns the configuration that a text spells. The text is shorter than 2^32 - 1 bytes.
///
/// # Errors
///
/// The first fault of the text, or out of memory.
pub fn parse(alloc: Global, text: &[u8]) -> Result<Conf, ParseError>
    requires { length text.now + 1 < 2 ^ 32 }
    ensures conf { IfOk result (λ conf. IsConf text.now conf) }
    ensures fault { IfErr result (λ e. ParseRefuses e (Faults text.now)) }
    ensures small { IfOk result (λ conf. AllByRecursion HasSmall conf.items) }
{
    let tokens = tokenize(alloc, text)?;
    parsed(alloc, text, &tokens.all, tokens.ending)
}

/// A text spells one configuration, or it has one fault.
pub fn one_meaning()
    ensures conf { OneConf }
    ensures fault { OneFault }
    ensures either { ConfOrFault }
{}
