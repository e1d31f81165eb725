//! The tokens of a text, one after another.

ghost use Rattle.std.specs.Prelude.{◌≡◌, ◌+◌, ◌<◌, ◌≤◌, ◌^◌, length, drop};
ghost use Rattle.pn_text.specs.Scans.{tokens_of, next_of, rest_of, place_of, AreSpans, after_blanks};
ghost use Rattle.pn_text.specs.Places.{IsPlaceWithin};

use crate::blanks::blank_len;
use crate::lexeme::first_lexeme;
use crate::place::{Place, behind_bytes};
use crate::token::{LexFault, Token};
use std::marker::Model;

/// Reads the tokens of a text, one after another. White space and comments stand between them, and are passed as soon as
/// the token before them is read.
#[derive(Drop)]
pub struct Scanner<'a> {
    text: &'a [u8],
    place: Place,
}

impl<'a> Model for Scanner<'a> {
    ghost use Rattle.pn_text.specs.Scans.{Scan};

    ghost Value = { Scan };

    ghost use Rattle.pn_text.specs.Remains.{scan_left, IsReading};

    ghost view = { scan_left };

    ghost invariant = { IsReading };
}

/// The place after the blanks that stand at a place in the text.
fn behind_blanks(text: &[u8], place: Place) -> Place
    requires within { IsPlaceWithin place }
    requires short { length text.now + 1 < 2 ^ 32 }
    requires inside { place.at ≤ length text.now }
    ensures behind { result ≡ (after_blanks (record { place = place; bytes = drop place.at text.now })).place }
    ensures bytes { drop result.at text.now ≡ (after_blanks (record { place = place; bytes = drop place.at text.now })).bytes }
    ensures within { IsPlaceWithin result }
    ensures inside { result.at ≤ length text.now }
{
    let rest = &text[place.at..];
    behind_bytes(place, &rest[..blank_len(rest)])
}

impl<'a> Scanner<'a> {
    /// Returns a scanner of the text, which is shorter than 2^32 - 1 bytes, so that lines and columns fit.
    pub fn new(text: &'a [u8]) -> Scanner<'a>
        requires { length text.now + 1 < 2 ^ 32 }
        ensures tokens { result ≡ tokens_of text.now }
        // They ascend, none is empty, and all stand in the text.
        ensures spans { AreSpans 0 result.tokens (length text.now) }
    {
        Scanner {
            text,
            place: behind_blanks(text, Place::FIRST),
        }
    }

    /// Returns the next token, and None at the end of the text.
    ///
    /// # Errors
    ///
    /// The fault where no token begins, after all tokens before it. The next calls return it again.
    pub fn next(&mut self) -> Result<Option<Token>, LexFault>
        ensures answer { result ≡ next_of self.old }
        ensures rest { self.new ≡ rest_of self.old }
    {
        let place = self.place;
        let rest = &self.text[place.at..];
        let Some(found) = first_lexeme(place, rest)? else {
            return Ok(None);
        };
        let to = place.at + found.len;
        self.place = behind_blanks(self.text, behind_bytes(place, &rest[..found.len]));
        Ok(Some(Token {
            kind: found.kind,
            from: place.at,
            to,
            line: place.line,
            col: place.col,
        }))
    }

    /// Returns the place after all that was read: where the next token begins, or the fault, or where the text ends.
    pub fn place(&self) -> Place
        ensures { result ≡ place_of self.now }
    {
        self.place
    }
}
