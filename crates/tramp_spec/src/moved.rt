//! Moved words.

ghost use Rattle.std.specs.Prelude.{◌≡◌, ◌<◌, ◌≤◌, length};

use crate::mark::MarkedWord;
use std::marker::Model;

/// The words that do at another place what a word of the program does at its own, from one to four. Contracts see their list.
#[derive(Drop)]
pub struct Moved {
    words: [MarkedWord; 4],
    len: usize,
}

impl Model for Moved {
    ghost use Rattle.std.specs.Prelude.{◌≤◌, List, take};
    ghost use Rattle.tramp_spec.specs.declared.mark.MarkedWord.{MarkedWord};

    ghost Value = { List MarkedWord };

    ghost view = { λ m. take m.len m.words };

    ghost invariant = { λ m. (1 ≤ m.len) × (m.len ≤ 4) };
}

impl Moved {
    /// These words.
    pub fn new(words: &[MarkedWord]) -> Moved
        requires some { 0 < length words.now }
        requires few { length words.now ≤ 4 }
        ensures { result ≡ words.now }
    {
        let mut places = [words[0]; 4];
        places[..words.len()].copy_from_slice(words);
        Moved {
            words: places,
            len: words.len(),
        }
    }

    /// The words.
    pub fn as_slice(&self) -> &[MarkedWord]
        ensures words { result.now ≡ self.now }
        ensures some { 0 < length self.now }
        ensures few { length self.now ≤ 4 }
    {
        &self.words[..self.len]
    }
}
