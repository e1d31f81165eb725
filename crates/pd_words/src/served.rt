//! The words that are handed to the top call.

ghost use Rattle.std.specs.Prelude.{◌≡◌, ◌++◌, [], map, option_map, string_bytes, IfOk};
ghost use Rattle.std.specs.List.{cons_option, filter_map};
ghost use Rattle.pd_words.specs.Wishes.{option_meant, option_text, place_meant, served_option, served_place, served_words};
ghost use Rattle.pd_words.specs.Seen.{command_seen, given_seen, row_seen};

use crate::given::Given;
use crate::rows::{CommandRow, Kind, WordRow};
use crate::words::all_words;
use pn_types::NoMemory;
use std::alloc::Global;

/// Copies words.
///
/// # Errors
///
/// `NoMemory` where memory runs out.
pub fn copied(alloc: Global, words: &[String]) -> Result<Vec<String>, NoMemory>
    ensures { IfOk result (λ copy. map string_bytes copy.items ≡ map string_bytes words.now) }
{
    let mut copies = Vec::new(alloc);
    for word in words {
        copies.push(String::from_str(alloc, word.as_str())?)?;
    }
    Ok(copies)
}

/// Returns an option with its value in its own word, where the value may begin with `-`.
fn option_text(alloc: Global, name: &str, value: &str) -> Result<String, NoMemory>
    ensures { IfOk result (λ text. string_bytes text ≡ option_text name.now value.now) }
{
    let mut text = String::from_str(alloc, "--")?;
    text.push_str(name)?;
    text.push_str("=")?;
    text.push_str(value)?;
    Ok(text)
}

/// Returns the option of `paradyn` that a word with a value stands for, if it stands for one.
fn option_meant(alloc: Global, row: &WordRow, value: &str) -> Result<Option<String>, NoMemory>
    ensures { IfOk result (λ text. option_map string_bytes text ≡ option_meant (row_seen row.now) (row_seen row.now).meaning value.now) }
{
    match row.kind {
        Kind::ServedOption => Ok(Some(option_text(alloc, row.name, value)?)),
        Kind::NamedPlace(name) => Ok(Some(option_text(alloc, name, value)?)),
        Kind::Choice(name, own) => Ok(Some(option_text(alloc, name, own)?)),
        Kind::FileChoice(name, own) => Ok(Some(option_text(alloc, name, own)?)),
        Kind::Place | Kind::Places | Kind::OwnOption => Ok(None),
    }
}

/// Returns the option of `paradyn` that a word stands for, if it is given and stands for one.
fn served_option(
    alloc: Global,
    given: &Given<'_>,
    row: &WordRow,
) -> Result<Option<String>, NoMemory>
    ensures { IfOk result (λ text. option_map string_bytes text ≡ served_option (given_seen given.now) (row_seen row.now)) }
{
    match given.value(row.name) {
        Some(value) => option_meant(alloc, row, value),
        None => Ok(None),
    }
}

/// Adds a word, if there is one.
fn add_if_some(words: &mut Vec<String>, word: Option<String>) -> Result<(), NoMemory>
    ensures { IfOk result (λ _. map string_bytes words.new.items ≡ map string_bytes words.old.items ++ cons_option (option_map string_bytes word) []) }
{
    match word {
        Some(word) => words.push(word)?,
        None => {}
    }
    Ok(())
}

/// Returns the options of `paradyn` that words stand for which are given.
fn served_options(
    alloc: Global,
    rows: &[WordRow],
    given: &Given<'_>,
) -> Result<Vec<String>, NoMemory>
    ensures { IfOk result (λ options. map string_bytes options.items ≡ filter_map (served_option (given_seen given.now)) (map row_seen rows.now)) }
{
    let mut options = Vec::new(alloc);
    for row in rows {
        add_if_some(&mut options, served_option(alloc, given, row)?)?;
    }
    Ok(options)
}

/// Returns the positional word of `paradyn` that a word with a value stands for, if it stands for one.
fn place_meant(
    alloc: Global,
    given: &Given<'_>,
    row: &WordRow,
    value: &str,
) -> Result<Option<String>, NoMemory>
    ensures { IfOk result (λ text. option_map string_bytes text
        ≡ place_meant (given_seen given.now) (row_seen row.now) (row_seen row.now).meaning value.now) }
{
    match row.kind {
        Kind::Place => Ok(Some(String::from_str(alloc, value)?)),
        Kind::Places => Ok(Some(given.joined(alloc, row.name)?)),
        Kind::NamedPlace(_) => Ok(None),
        Kind::ServedOption | Kind::OwnOption => Ok(None),
        Kind::Choice(_, _) | Kind::FileChoice(_, _) => Ok(None),
    }
}

/// Returns the positional word of `paradyn` that a word stands for, if it is given and stands for one.
fn served_place(alloc: Global, given: &Given<'_>, row: &WordRow) -> Result<Option<String>, NoMemory>
    ensures { IfOk result (λ text. option_map string_bytes text ≡ served_place (given_seen given.now) (row_seen row.now)) }
{
    match given.value(row.name) {
        Some(value) => place_meant(alloc, given, row, value),
        None => Ok(None),
    }
}

/// Returns the positional words of `paradyn` that words stand for which are given.
fn served_places(
    alloc: Global,
    rows: &[WordRow],
    given: &Given<'_>,
) -> Result<Vec<String>, NoMemory>
    ensures { IfOk result (λ places. map string_bytes places.items ≡ filter_map (served_place (given_seen given.now)) (map row_seen rows.now)) }
{
    let mut places = Vec::new(alloc);
    for row in rows {
        add_if_some(&mut places, served_place(alloc, given, row)?)?;
    }
    Ok(places)
}

/// Returns the words of `paradyn` for what is given to a command.
///
/// # Errors
///
/// `NoMemory` where memory runs out.
#[tactic(auto, unfolding(crate::specs::Wishes::served_words))]
pub fn served_words(
    alloc: Global,
    command: &CommandRow,
    given: &Given<'_>,
) -> Result<Vec<String>, NoMemory>
    ensures { IfOk result (λ words. map string_bytes words.items ≡ served_words (command_seen command.now) (given_seen given.now)) }
{
    let mut options = served_options(alloc, all_words(), given)?;
    let mut places = served_places(alloc, all_words(), given)?;
    let mut words = Vec::new(alloc);
    words.push(String::from_str(alloc, command.word)?)?;
    words.append(&mut options)?;
    words.push(String::from_str(alloc, "--")?)?;
    words.append(&mut places)?;
    Ok(words)
}
