//! Looks words up in the tables.

ghost use Rattle.std.specs.Prelude.{◌≡◌, ◌&&◌, ◌<◌, ◌+◌, ◌^◌, length, find, slice_get, option_map, IfSome};
ghost use Rattle.std.specs.List.{filter};
ghost use Rattle.std.specs.Str.{bytes_eq};
ghost use Rattle.pd_words.specs.Options.{has_letter, takes_place, has_typed_option, option_lettered, option_named, command_places};
ghost use Rattle.pd_words.specs.Seen.{command_seen, row_seen};

use crate::rows::{CommandRow, WordRow};
use crate::words::all_words;

impl WordRow {
    /// Returns whether this is the letter of its short form.
    fn has_letter(&self, letter: &str) -> bool
        ensures { result ≡ has_letter letter.now (row_seen self.now) }
    {
        match self.letter {
            Some(own) => own == letter,
            None => false,
        }
    }
}

/// Returns the first option of a command that has this name.
fn first_named(words: &[WordRow], command: &CommandRow, name: &str) -> Option<WordRow>
    ensures { result ≡ find (λ row. has_typed_option (command_seen command.now) (row_seen row) && bytes_eq row.name.now name.now) words.now }
{
    words
        .iter()
        .copied()
        .find(|row| command.has_option(row) && row.name == name)
}

/// Returns the first option of a command that has this letter.
fn first_lettered(words: &[WordRow], command: &CommandRow, letter: &str) -> Option<WordRow>
    ensures { result ≡ find (λ row. has_typed_option (command_seen command.now) (row_seen row) && has_letter letter.now (row_seen row)) words.now }
{
    words
        .iter()
        .copied()
        .find(|row| command.has_option(row) && row.has_letter(letter))
}

/// Returns the positional word of a command that so many stand before.
fn place_at(words: &[WordRow], command: &CommandRow, number: usize) -> Option<WordRow>
    ensures word { result ≡ slice_get (filter (λ row. takes_place (command_seen command.now) (row_seen row)) words.now) number }
    ensures range { IfSome result (λ row. number < length words.now) }
{
    let mut left = number;
    for row in words {
        if command.has_place(row) {
            if left == 0 {
                return Some(*row);
            }
            left -= 1;
        }
    }
    None
}

impl CommandRow {
    /// Returns the option of this name.
    #[tactic(auto, unfolding(crate::specs::Options::option_named))]
    pub fn option_named(&self, name: &str) -> Option<WordRow>
        ensures { option_map row_seen result ≡ option_named (command_seen self.now) name.now }
    {
        first_named(all_words(), self, name)
    }

    /// Returns the option of this letter.
    #[tactic(auto, unfolding(crate::specs::Options::option_lettered))]
    pub fn option_lettered(&self, letter: &str) -> Option<WordRow>
        ensures { option_map row_seen result ≡ option_lettered (command_seen self.now) letter.now }
    {
        first_lettered(all_words(), self, letter)
    }

    /// Returns the positional word that so many stand before.
    #[tactic(auto, unfolding(crate::specs::Options::command_places))]
    pub fn place(&self, number: usize) -> Option<WordRow>
        ensures word { option_map row_seen result ≡ slice_get (command_places (command_seen self.now)) number }
        ensures range { IfSome result (λ row. number + 1 < 2 ^ 64) }
    {
        place_at(all_words(), self, number)
    }
}
