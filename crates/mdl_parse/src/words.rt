//! The words of a text, one after another, the next one in view.

ghost use Rattle.std.specs.Prelude.{◌≡◌, length, map};
ghost use Rattle.std.specs.Option.{option_map};
ghost use Rattle.pn_text.specs.Scans.{AreSpans};
ghost use Rattle.pn_text.specs.Words.{without_quotes};
ghost use Rattle.mdl_parse.specs.WordsInText.{placed_word};
ghost use Rattle.mdl_parse.specs.Steps.{first_word, words_after, line_at};
ghost use Rattle.mdl_parse.specs.Ends.{unread_in, fault_in};
ghost use Rattle.mdl_parse.specs.Lexing.{ending_of};
ghost use Rattle.mdl_parse.specs.Gives.{word_seen};

use crate::fault::{ParseFault, end_fault, lex_fault, refusal_kind};
use crate::refusal::Refusal;
use crate::seen::Seen;
use pn_text::{LexFault, Place, Token, TokenKind};
use std::marker::Model;

/// The words of a text that are to come.
#[derive(Drop)]
pub(crate) struct Words<'a> {
    text: &'a [u8],
    tokens: &'a [Token],
}

impl<'a> Model for Words<'a> {
    ghost use Rattle.std.specs.Prelude.{List, length, map};
    ghost use Rattle.pn_text.specs.Scans.{AreSpans};
    ghost use Rattle.mdl_parse.specs.WordsInText.{PlacedWord, placed_word};

    ghost Value = { List PlacedWord };

    ghost view = { λ w. map (placed_word w.text.now) w.tokens.now };

    ghost invariant = { λ w. AreSpans 0 w.tokens.now (length w.text.now) };
}

/// What stands between the first byte and the last.
fn without_quotes(text: &[u8]) -> &[u8]
    ensures { result.now ≡ without_quotes text.now }
{
    match text {
        [_, inner @ .., _] => inner,
        _ => &[],
    }
}

impl<'a> Words<'a> {
    /// The words that these tokens of the text are.
    pub(crate) fn new(text: &'a [u8], tokens: &'a [Token]) -> Words<'a>
        requires { AreSpans 0 tokens.now (length text.now) }
        ensures { result ≡ map (placed_word text.now) tokens.now }
    {
        Words { text, tokens }
    }

    /// The line of the word in view, and 0 at the end.
    pub(crate) fn line(&self) -> u32
        ensures { result ≡ line_at self.now }
    {
        match self.tokens {
            [token, ..] => token.line,
            [] => 0,
        }
    }

    /// The word in view, and None at the end.
    pub(crate) fn word(&self) -> Option<Seen<'a>>
        ensures { option_map word_seen result ≡ first_word self.now }
    {
        let [token, ..] = self.tokens else {
            return None;
        };
        let text = &self.text[token.from..token.to];
        Some(match token.kind {
            TokenKind::Name => Seen::Name(text),
            TokenKind::Number(number) => Seen::Number(number),
            TokenKind::Quoted => Seen::Quoted(without_quotes(text)),
            TokenKind::Focus => Seen::Path(text),
            TokenKind::FocusWord => Seen::DollarFocus,
            TokenKind::AllWord => Seen::DollarAll,
            TokenKind::MetricWord => Seen::DollarMetric,
            TokenKind::ValueWord => Seen::DollarValue,
            TokenKind::ArgWord => Seen::DollarArg,
            TokenKind::Sign(sign) => Seen::Sign(sign),
        })
    }

    /// Passes the word in view.
    pub(crate) fn advance(&mut self)
        ensures { self.new ≡ words_after self.old }
    {
        if let [_, behind @ ..] = self.tokens {
            self.tokens = behind;
        }
    }

    /// The fault that stands after all words, which end so, if they are passed and there is one.
    pub(crate) fn unread(&self, ending: Result<Place, LexFault>) -> Option<ParseFault>
        ensures { result ≡ unread_in self.now (ending_of ending) }
    {
        match (self.tokens, ending) {
            ([], Err(fault)) => Some(lex_fault(fault)),
            _ => None,
        }
    }

    /// The fault of the words, which end so: the one in view can't stand there, or none is.
    pub(crate) fn fault(&self, ending: Result<Place, LexFault>, why: Refusal) -> ParseFault
        ensures { result ≡ fault_in self.now (ending_of ending) why }
    {
        match self.tokens {
            [token, ..] => ParseFault {
                line: token.line,
                col: token.col,
                kind: refusal_kind(why),
            },
            [] => end_fault(ending, why),
        }
    }
}
