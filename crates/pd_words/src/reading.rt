//! Reads the words after a command's own, one at a time.

ghost use Rattle.std.specs.Prelude.{◌≡◌, ◌||◌, None, Some, not, if◌then◌else◌, map, option_map, string_bytes, IfOk, MatchOption};
ghost use Rattle.std.specs.List.{list_all};
ghost use Rattle.command_words.specs.Grammar.{kind_of};
ghost use Rattle.pd_words.specs.Options.{takes_place};
ghost use Rattle.pd_words.specs.Reading.{nothing_read, given_to, is_filled, can_end, met, read_awaited, read_kind, read_word, value_behind, with_given, with_letters, with_typed, with_option, with_placed};
ghost use Rattle.pd_words.specs.Seen.{command_seen, given_seen, reading_seen, row_seen, IsLetterBefore, IsNoLetter};

use crate::given::Given;
use crate::rows::{CommandRow, WordRow};
use crate::word_kind::WordKind;
use crate::words::all_words;
use pn_types::NoMemory;
use std::alloc::Global;

/// How far words are read. Each method that takes something returns whether it may stand there; where it may not, the reading is over.
#[derive(Drop)]
pub struct Reading<'a> {
    given: Given<'a>,
    /// How many places are taken.
    taken: usize,
    /// The option that awaits its value.
    awaiting: Option<WordRow>,
    /// Whether `--` was passed.
    behind: bool,
}

/// Returns what is behind the letter of an option: nothing, or its value, before which `=` may stand.
fn value_behind(rest: &str) -> Option<&str>
    ensures { option_map (λ s. s.now) result ≡ value_behind rest.now }
{
    if rest.is_empty() {
        return None;
    }
    match rest.strip_prefix('=') {
        Some(value) => Some(value),
        None => Some(rest),
    }
}

/// Returns the first sign of a text and what is behind it, if it is a sign of ASCII.
fn first_letter(text: &str) -> Option<(&str, &str)>
    ensures { MatchOption result (IsNoLetter text.now) (λ parts. IsLetterBefore text.now parts.0.now parts.1.now) }
{
    text.split_at_checked(1)
}

impl<'a> Reading<'a> {
    fn new(alloc: Global) -> Reading<'a>
        ensures { reading_seen result ≡ nothing_read }
    {
        Reading {
            given: Given {
                values: Vec::new(alloc),
            },
            taken: 0,
            awaiting: None,
            behind: false,
        }
    }

    /// Takes the value of a word.
    fn give(&mut self, word: &WordRow, value: &'a str) -> Result<bool, NoMemory>
        ensures { IfOk result (λ good. with_given (reading_seen self.old) (row_seen word.now) value.entry.now
            ≡ (if good then Some (reading_seen self.new) else None)) }
    {
        if word.values.is_file() && value.is_empty() {
            return Ok(false);
        }
        self.given.add(word.name, value)?;
        self.awaiting = None;
        Ok(true)
    }

    /// Takes the value of an option.
    fn option(&mut self, word: &WordRow, value: &'a str) -> Result<bool, NoMemory>
        ensures { IfOk result (λ good. with_option (reading_seen self.old) (row_seen word.now) value.entry.now
            ≡ (if good then Some (reading_seen self.new) else None)) }
    {
        if self.given.has(word.name) {
            return Ok(false);
        }
        self.give(word, value)
    }

    /// Takes a positional word.
    fn place(&mut self, command: &CommandRow, value: &'a str) -> Result<bool, NoMemory>
        ensures { IfOk result (λ good. with_placed (command_seen command.now) (reading_seen self.old) value.entry.now
            ≡ (if good then Some (reading_seen self.new) else None)) }
    {
        let Some(place) = command.place(self.taken) else {
            return Ok(false);
        };
        if !place.kind.is_joined() {
            self.taken += 1;
        }
        self.give(&place, value)
    }

    /// Takes an option, and its value if it stands in the same word.
    fn meet(&mut self, word: &WordRow, value: Option<&'a str>) -> Result<bool, NoMemory>
        ensures { IfOk result (λ good. met (reading_seen self.old) (row_seen word.now) (option_map (λ s. s.now) value.entry)
            ≡ (if good then Some (reading_seen self.new) else None)) }
    {
        match value {
            None if word.values.is_alone() => self.option(word, ""),
            None => {
                self.awaiting = Some(*word);
                Ok(true)
            }
            Some(value) if !word.values.is_alone() => self.option(word, value),
            Some(_) => Ok(false),
        }
    }

    /// Takes an option by its name.
    fn name(
        &mut self,
        command: &CommandRow,
        name: &str,
        value: Option<&'a str>,
    ) -> Result<bool, NoMemory>
        ensures { IfOk result (λ good. with_typed (command_seen command.now) (reading_seen self.old) name.now (option_map (λ s. s.now) value.entry)
            ≡ (if good then Some (reading_seen self.new) else None)) }
    {
        match command.option_named(name) {
            Some(word) => self.meet(&word, value),
            None => Ok(false),
        }
    }

    /// Takes options by their letters.
    fn letters(&mut self, command: &CommandRow, letters: &'a str) -> Result<bool, NoMemory>
        ensures { IfOk result (λ good. with_letters (command_seen command.now) (reading_seen self.old) letters.entry.now
            ≡ (if good then Some (reading_seen self.new) else None)) }
    {
        let Some((letter, rest)) = first_letter(letters) else {
            return Ok(letters.is_empty());
        };
        let Some(word) = command.option_lettered(letter) else {
            return Ok(false);
        };
        if !word.values.is_alone() {
            return self.meet(&word, value_behind(rest));
        }
        if !self.option(&word, "")? {
            return Ok(false);
        }
        self.letters(command, rest)
    }

    /// Takes a word before which no option awaits its value.
    fn kind(&mut self, command: &CommandRow, word: &'a str) -> Result<bool, NoMemory>
        ensures { IfOk result (λ good. read_kind (command_seen command.now) (reading_seen self.old) (kind_of word.entry.now) word.entry.now
            ≡ (if good then Some (reading_seen self.new) else None)) }
    {
        match WordKind::of(word) {
            WordKind::EndOfOptions => {
                self.behind = true;
                Ok(true)
            }
            WordKind::Named(name, value) => self.name(command, name, value),
            WordKind::Letters(letters) => self.letters(command, letters),
            WordKind::Plain => self.place(command, word),
        }
    }

    /// Takes a word as the value of an option that awaits it.
    fn awaited(&mut self, awaiting: &WordRow, word: &'a str) -> Result<bool, NoMemory>
        ensures { IfOk result (λ good. read_awaited (reading_seen self.old) (row_seen awaiting.now) (kind_of word.entry.now) word.entry.now
            ≡ (if good then Some (reading_seen self.new) else None)) }
    {
        match WordKind::of(word) {
            WordKind::Plain => self.option(awaiting, word),
            _ => Ok(false),
        }
    }

    /// Takes a word.
    fn word(&mut self, command: &CommandRow, word: &'a str) -> Result<bool, NoMemory>
        ensures { IfOk result (λ good. read_word (command_seen command.now) (reading_seen self.old) word.entry.now
            ≡ (if good then Some (reading_seen self.new) else None)) }
    {
        if self.behind {
            return self.place(command, word);
        }
        match self.awaiting {
            Some(awaiting) => self.awaited(&awaiting, word),
            None => self.kind(command, word),
        }
    }

    /// Returns whether the words may end here: no option awaits its value, and each place is taken that may not be left out.
    fn is_whole(&self, command: &CommandRow) -> bool
        ensures { result ≡ can_end (command_seen command.now) (reading_seen self.now) }
    {
        self.awaiting.is_none() && are_filled(all_words(), command, &self.given)
    }
}

/// Returns whether a positional word of a command is given, or may be left out.
fn is_filled(command: &CommandRow, given: &Given<'_>, word: &WordRow) -> bool
    ensures { result ≡ is_filled (command_seen command.now) (given_seen given.now) (row_seen word.now) }
{
    command.is_optional(word) || given.has(word.name)
}

/// Returns whether each positional word of a command is given, if it may not be left out.
fn are_filled(words: &[WordRow], command: &CommandRow, given: &Given<'_>) -> bool
    ensures { result ≡ list_all (λ row. not (takes_place (command_seen command.now) (row_seen row))
        || is_filled (command_seen command.now) (given_seen given.now) (row_seen row)) words.now }
{
    words.iter().all(|row| !command.has_place(row) || is_filled(command, given, row))
}

/// Returns what the words after a command's own give it, if they may stand there.
///
/// # Errors
///
/// `NoMemory` where memory runs out.
pub fn given_to<'a>(
    alloc: Global,
    command: &CommandRow,
    words: &'a [String],
) -> Result<Option<Given<'a>>, NoMemory>
    ensures { IfOk result (λ found. option_map given_seen found
        ≡ given_to (command_seen command.now) (map string_bytes words.entry.now)) }
{
    let mut reading = Reading::new(alloc);
    for word in words {
        if !reading.word(command, word.as_str())? {
            return Ok(None);
        }
    }
    if reading.is_whole(command) {
        Ok(Some(reading.given))
    } else {
        Ok(None)
    }
}
