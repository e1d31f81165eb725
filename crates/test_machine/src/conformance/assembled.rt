//! Rows of what an assembler made of a text.

ghost use Rattle.std.specs.Prelude.{◌≡◌, ◌↔◌, IsTrue, IfSome, is_some, true};
ghost use Rattle.rv_word.specs.Table.{decode_of};

use crate::conformance::columns::{Columns, word_of};
use crate::conformance::listed::is_instruction;
use crate::conformance::source::{Distance, assembles_to};
use std::alloc::Global;

/// The words that an assembler made of a text: one, or two where the text stands for two.
#[derive(Clone, Copy, Debug, Drop)]
pub struct Assembled<'a> {
    /// The first word.
    pub first: u32,
    /// The second word, if the text stands for two.
    pub second: Option<u32>,
    /// The text.
    pub text: &'a str,
    /// Where the label `target` stands, if the text has one.
    pub distance: Option<Distance>,
}

impl<'a> Assembled<'a> {
    /// Reads the first column, one word or two with a space between, the text, and the distance to its label.
    pub fn parse(columns: &mut Columns<'a>) -> Option<Assembled<'a>> {
        let words = columns.text()?;
        let text = columns.text()?;
        let distance = match columns.text() {
            Some(number) => Some(Distance::parse(number)?),
            None => None,
        };
        let (first, second) = match words.split_once(' ') {
            Some((first, second)) => (first, Some(word_of(second)?)),
            None => (words, None),
        };
        Some(Assembled {
            first: word_of(first)?,
            second,
            text,
            distance,
        })
    }

    /// Whether each word is an instruction here.
    fn has_instructions(&self) -> bool
        ensures { IsTrue result ↔ ((is_some (decode_of self.now.first) ≡ true)
            × (IfSome self.now.second (λ word. is_some (decode_of word) ≡ true))) }
    {
        is_instruction(self.first) && self.second.is_none_or(is_instruction)
    }

    /// Whether each word is an instruction here, and the text assembles to these words. Where memory runs out it doesn't.
    pub fn agrees(&self, alloc: Global) -> bool {
        self.has_instructions()
            && assembles_to(alloc, self.text, self.distance, self.first, self.second).unwrap_or(
                false,
            )
    }
}
