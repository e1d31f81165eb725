//! Tests of the word in view.

ghost use Rattle.std.specs.Prelude.{◌≡◌};
ghost use Rattle.mdl_parse.specs.Picks.{is_sign, is_arg, is_var, is_any, is_insertion};
ghost use Rattle.mdl_parse.specs.Shapes.{is_keyword, is_timing};
ghost use Rattle.mdl_parse.specs.Steps.{is_first};

use crate::words::Words;
use pn_text::Sign;

impl<'a> Words<'a> {
    /// Whether the keyword is in view.
    pub(crate) fn is_keyword(&self, text: &[u8]) -> bool
        ensures { result ≡ is_first (is_keyword text.now) self.now }
    {
        match self.word() {
            Some(word) => word.is_keyword(text),
            None => false,
        }
    }

    /// Whether the sign is in view.
    pub(crate) fn is_sign(&self, sign: Sign) -> bool
        ensures { result ≡ is_first (is_sign sign) self.now }
    {
        match self.word() {
            Some(word) => word.is_sign(sign),
            None => false,
        }
    }

    /// Whether `$arg` is in view.
    pub(crate) fn is_arg(&self) -> bool
        ensures { result ≡ is_first is_arg self.now }
    {
        match self.word() {
            Some(word) => word.is_arg(),
            None => false,
        }
    }

    /// Whether a variable is in view.
    pub(crate) fn is_var(&self) -> bool
        ensures { result ≡ is_first is_var self.now }
    {
        match self.word() {
            Some(word) => word.is_var(),
            None => false,
        }
    }

    /// Whether a word is in view.
    pub(crate) fn has_more(&self) -> bool
        ensures { result ≡ is_first is_any self.now }
    {
        match self.word() {
            Some(_) => true,
            None => false,
        }
    }

    /// Whether an insertion begins here.
    pub(crate) fn is_insertion(&self) -> bool
        ensures { result ≡ is_first is_insertion self.now }
    {
        match self.word() {
            Some(word) => word.is_keyword(b"prepend") || word.is_keyword(b"append"),
            None => false,
        }
    }

    /// Whether a timer is started or stopped here.
    pub(crate) fn is_timing(&self) -> bool
        ensures { result ≡ is_first is_timing self.now }
    {
        match self.word() {
            Some(word) => word.is_keyword(b"start") || word.is_keyword(b"stop"),
            None => false,
        }
    }
}
