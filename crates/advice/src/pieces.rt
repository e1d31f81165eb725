//! The parts of a text between separators.

ghost use Rattle.std.specs.Prelude.{◌≡◌, ◌==◌, ◌∷◌, [], MatchOption, position};
ghost use Rattle.advice.specs.Words.{parts};

use std::marker::Model;

/// The parts of a text that are left, of which there is at least one before the first is taken.
#[derive(Drop)]
pub struct Pieces<'a> {
    separator: u8,
    rest: Option<&'a [u8]>,
}

impl<'a> Model for Pieces<'a> {
    ghost use Rattle.std.specs.Prelude.{List, ℕ};
    ghost use Rattle.advice.specs.Pieces.{parts_left};

    ghost Value = { List (List ℕ) };

    ghost view = { parts_left };
}

/// Where the first separator stands.
fn end_of(separator: u8, text: &[u8]) -> Option<usize>
    ensures { result ≡ position (λ byte. byte == separator) text.now }
{
    text.iter().position(|byte| *byte == separator)
}

impl<'a> Pieces<'a> {
    /// Returns the parts of a text.
    pub fn of(separator: u8, text: &'a [u8]) -> Pieces<'a>
        ensures { result ≡ parts separator text.now }
    {
        Pieces {
            separator,
            rest: Some(text),
        }
    }

    /// Takes the first part that is left.
    pub fn next(&mut self) -> Option<&'a [u8]>
        ensures { MatchOption result ((self.old ≡ []) × (self.new ≡ [])) (λ part. self.old ≡ part.now ∷ self.new) }
    {
        let text = self.rest?;
        match end_of(self.separator, text) {
            Some(end) => {
                self.rest = Some(&text[end + 1..]);
                Some(&text[..end])
            }
            None => {
                self.rest = None;
                Some(text)
            }
        }
    }
}
