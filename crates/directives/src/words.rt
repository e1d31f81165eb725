//! The words of a text, one after another, the next one in view.
//!
//! A function that returns Unexpected leaves the word in view that doesn't fit.

ghost use Rattle.std.specs.Prelude.{◌≡◌, ◌+◌, ◌<◌, ◌^◌, length, IfOk, IfErr};
ghost use Rattle.std.specs.Option.{option_map, option_and_then};
ghost use Rattle.pn_text.specs.declared.token.Sign.TheVariants.{Semicolon};
ghost use Rattle.mdl_parse.specs.Lexing.{tokens_ahead, HasEnded};
ghost use Rattle.mdl_parse.specs.Picks.{is_any, is_sign, name_of, word_number};
ghost use Rattle.mdl_parse.specs.Readers.{keyword_at, sign_at, start_at, name_at, number_at};
ghost use Rattle.mdl_parse.specs.Shapes.{is_keyword};
ghost use Rattle.mdl_parse.specs.Steps.{first_word, is_first, line_at};
ghost use Rattle.directives.specs.declared.stop.Stop.TheVariants.{NoMemory};
ghost use Rattle.directives.specs.Ahead.{IsAheadRead, ahead, ahead_after, fault_in, unread_in};

use crate::fault::{DirectiveFault, DirectiveKind, lex_fault};
use crate::stop::Stop;
use pn_text::{Scanner, Sign, Token, TokenKind};
use pn_types::Text;
use std::alloc::Global;
use std::marker::Model;

/// The words of a text that are to come.
#[derive(Drop)]
pub(crate) struct Words<'a> {
    text: &'a [u8],
    scanner: Scanner<'a>,
    token: Option<Token>,
}

impl<'a> Model for Words<'a> {
    ghost use Rattle.directives.specs.Ahead.{Ahead, in_view, StandIn};

    ghost Value = { Ahead };

    ghost view = { λ w. in_view w.text.now w.token w.scanner };

    ghost invariant = { λ w. StandIn w.text.now w.token w.scanner };
}

/// The token that a scanner returns, and None at its end or its fault.
fn next_token(scanner: &mut Scanner) -> Option<Token>
    ensures tokens { tokens_ahead result scanner.new ≡ scanner.old.tokens }
    ensures ending { scanner.new.ending ≡ scanner.old.ending }
    ensures ended { HasEnded result scanner.new }
{
    match scanner.next() {
        Ok(token) => token,
        Err(_) => None,
    }
}

/// The text of these bytes.
fn copied(alloc: Global, bytes: &[u8]) -> Result<Text, Stop>
    ensures text { IfOk result (λ text. text ≡ bytes.now) }
    ensures memory { IfErr result (λ fault. fault ≡ NoMemory) }
{
    Ok(Text::from_vec(Vec::from_slice(alloc, bytes)?))
}

impl<'a> Words<'a> {
    /// The words of a text.
    pub(crate) fn new(text: &'a [u8]) -> Words<'a>
        requires { length text.now + 1 < 2 ^ 32 }
        ensures { result ≡ ahead text.now }
    {
        let mut scanner = Scanner::new(text);
        let token = next_token(&mut scanner);
        Words {
            text,
            scanner,
            token,
        }
    }

    /// Whether a word is in view.
    pub(crate) fn has_more(&self) -> bool
        ensures { result ≡ is_first is_any self.now.words_ahead }
    {
        self.token.is_some()
    }

    /// The line of the word in view, and 0 at the end.
    fn line(&self) -> u32
        ensures { result ≡ line_at self.now.words_ahead }
    {
        match self.token {
            Some(token) => token.line,
            None => 0,
        }
    }

    /// The name in view.
    fn name_in_view(&self) -> Option<&'a [u8]>
        ensures { option_map (λ name. name.now) result ≡ option_and_then name_of (first_word self.now.words_ahead) }
    {
        let token = self.token?;
        match token.kind {
            TokenKind::Name => Some(&self.text[token.from..token.to]),
            _ => None,
        }
    }

    /// The number in view.
    fn number_in_view(&self) -> Option<u32>
        ensures { result ≡ option_and_then word_number (first_word self.now.words_ahead) }
    {
        match self.token?.kind {
            TokenKind::Number(number) => Some(number),
            _ => None,
        }
    }

    /// Whether a semicolon is in view.
    fn is_semicolon(&self) -> bool
        ensures { result ≡ is_first (is_sign Semicolon) self.now.words_ahead }
    {
        match self.token {
            Some(token) => token.kind == TokenKind::Sign(Sign::Semicolon),
            None => false,
        }
    }

    /// Whether this keyword is in view.
    pub(crate) fn is_keyword(&self, text: &[u8]) -> bool
        ensures { result ≡ is_first (is_keyword text.now) self.now.words_ahead }
    {
        match self.name_in_view() {
            Some(name) => name == text,
            None => false,
        }
    }

    /// Passes the word in view.
    fn advance(&mut self)
        ensures { self.new ≡ ahead_after self.old }
    {
        self.token = next_token(&mut self.scanner);
    }

    /// Passes the keyword.
    #[tactic(auto, unfolding(mdl_parse::specs::Steps::leaf_at))]
    pub(crate) fn keyword(&mut self, text: &[u8]) -> Result<(), Stop>
        ensures read { IsAheadRead result self.new.words_ahead (keyword_at text.now self.old.words_ahead) }
        ensures ending { self.new.ending ≡ self.old.ending }
    {
        if !self.is_keyword(text) {
            return Err(Stop::Unexpected);
        }
        self.advance();
        Ok(())
    }

    /// Passes the keyword with which a directive begins, and gives its line.
    #[tactic(auto, unfolding(mdl_parse::specs::Readers::start_at))]
    pub(crate) fn start(&mut self, text: &[u8]) -> Result<u32, Stop>
        ensures read { IsAheadRead result self.new.words_ahead (start_at text.now self.old.words_ahead) }
        ensures ending { self.new.ending ≡ self.old.ending }
    {
        let line = self.line();
        self.keyword(text)?;
        Ok(line)
    }

    /// Passes a semicolon.
    #[tactic(auto, unfolding(mdl_parse::specs::Steps::leaf_at))]
    pub(crate) fn semicolon(&mut self) -> Result<(), Stop>
        ensures read { IsAheadRead result self.new.words_ahead (sign_at Semicolon self.old.words_ahead) }
        ensures ending { self.new.ending ≡ self.old.ending }
    {
        if !self.is_semicolon() {
            return Err(Stop::Unexpected);
        }
        self.advance();
        Ok(())
    }

    /// Passes a name.
    #[tactic(auto, unfolding(mdl_parse::specs::Steps::leaf_at))]
    pub(crate) fn name(&mut self, alloc: Global) -> Result<Text, Stop>
        ensures read { IsAheadRead result self.new.words_ahead (name_at self.old.words_ahead) }
        ensures ending { self.new.ending ≡ self.old.ending }
    {
        let Some(name) = self.name_in_view() else {
            return Err(Stop::Unexpected);
        };
        let name = copied(alloc, name)?;
        self.advance();
        Ok(name)
    }

    /// Passes a number.
    #[tactic(auto, unfolding(mdl_parse::specs::Steps::leaf_at))]
    pub(crate) fn number(&mut self) -> Result<u32, Stop>
        ensures read { IsAheadRead result self.new.words_ahead (number_at self.old.words_ahead) }
        ensures ending { self.new.ending ≡ self.old.ending }
    {
        let Some(number) = self.number_in_view() else {
            return Err(Stop::Unexpected);
        };
        self.advance();
        Ok(number)
    }

    /// The fault that stands after all words, if they are passed and there is one.
    pub(crate) fn unread(&mut self) -> Option<DirectiveFault>
        ensures { result ≡ unread_in self.old.words_ahead self.old.ending }
    {
        if self.token.is_some() {
            return None;
        }
        match self.scanner.next() {
            Ok(_) => None,
            Err(fault) => Some(lex_fault(fault)),
        }
    }

    /// The fault of the words: the one in view can't stand there, or none is.
    pub(crate) fn fault(&mut self) -> DirectiveFault
        ensures { result ≡ fault_in self.old.words_ahead self.old.ending }
    {
        if let Some(token) = self.token {
            return DirectiveFault {
                line: token.line,
                col: token.col,
                kind: DirectiveKind::Unexpected,
            };
        }
        match self.scanner.next() {
            Ok(_) => {
                let last = self.scanner.place();
                DirectiveFault {
                    line: last.line,
                    col: last.col,
                    kind: DirectiveKind::Unexpected,
                }
            }
            Err(fault) => lex_fault(fault),
        }
    }
}
