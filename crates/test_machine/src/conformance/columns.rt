//! The columns of rows.

ghost use Rattle.test_machine.specs.Columns.{ReadsHexadecimal};

use std::str::Split;

/// The columns of a line that aren't taken yet. They are taken from the left; after the last none is left.
#[derive(Drop)]
pub struct Columns<'a> {
    rest: Split<'a, char>,
}

/// The number that hexadecimal digits write, where it is below 2 ^ 64. A plus may stand before them.
fn number_of(text: &str) -> Option<u64>
    ensures { ReadsHexadecimal 64 text.now result }
{
    u64::from_str_radix(text, 16).ok()
}

/// The word that hexadecimal digits write, where it is below 2 ^ 32. A plus may stand before them.
pub fn word_of(text: &str) -> Option<u32>
    ensures { ReadsHexadecimal 32 text.now result }
{
    u32::from_str_radix(text, 16).ok()
}

impl<'a> Columns<'a> {
    /// The columns of a line, which tabs separate.
    pub fn new(line: &'a str) -> Columns<'a> {
        Columns {
            rest: line.split('\t'),
        }
    }

    /// The next column's text.
    pub fn text(&mut self) -> Option<&'a str> {
        self.rest.next()
    }

    /// The next column as a number.
    pub fn number(&mut self) -> Option<u64> {
        number_of(self.text()?)
    }

    /// The next column as a word.
    pub fn word(&mut self) -> Option<u32> {
        word_of(self.text()?)
    }

    /// The next column as a number, or as none where it is `-`.
    pub fn optional(&mut self) -> Option<Option<u64>> {
        match self.text()? {
            "-" => Some(None),
            digits => Some(Some(number_of(digits)?)),
        }
    }
}
