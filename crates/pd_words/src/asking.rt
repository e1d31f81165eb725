//! What the words of a command ask for.

ghost use Rattle.std.specs.Prelude.{◌≡◌, ◌≤◌, ◌&&◌, map, option_map, string_bytes, is_some, IfOk, IfSome, IsSome};
ghost use Rattle.std.specs.List.{filter_map};
ghost use Rattle.std.specs.Option.{is_none, option_map_or};
ghost use Rattle.command_words.specs.Grammar.{given_in};
ghost use Rattle.command_words.specs.Numbers.{harts_option, number_given};
ghost use Rattle.command_words.specs.Requests.{request_of};
ghost use Rattle.pn_types.specs.declared.limits.TheConstants.{MAX_HARTS};
ghost use Rattle.pd_words.specs.Wishes.{asked_of_pd, by_outputs, by_server, check_of, command_asked, meaning, outputs_given, serving_asked, serving_of, text_alone, CanBeServed};
ghost use Rattle.pd_words.specs.Seen.{command_seen, given_seen};

use crate::commands::command_named;
use crate::given::Given;
use crate::reading::given_to;
use crate::rows::{CommandRow, Server};
use crate::screens::for_screen;
use crate::served::served_words;
use crate::wishes::{CheckWords, Serving, Wish};
use command_words::{WordFault, read_request};
use pn_text::number;
use pn_types::{MAX_HARTS, NoMemory};
use std::alloc::{AllocError, Global};

/// What is said where more than one file is to take what is printed.
const TWO_FILES: &str =
    "error: one of --output, --svg and --html is enough\n\nFor more information, try '--help'.\n";

/// Copies a text, if there is one.
fn text_copied(alloc: Global, text: Option<&str>) -> Result<Option<String>, NoMemory>
    ensures { IfOk result (λ copy. option_map string_bytes copy ≡ option_map (λ s. s.now) text.entry) }
{
    match text {
        Some(text) => Ok(Some(String::from_str(alloc, text)?)),
        None => Ok(None),
    }
}

/// Returns the names of the files that are to take what is printed.
fn outputs<'a>(alloc: Global, given: &Given<'a>) -> Result<Vec<&'a str>, NoMemory>
    ensures { IfOk result (λ names. map (λ s. s.now) names.items ≡ outputs_given (given_seen given.now)) }
{
    let mut names = Vec::new(alloc);
    if let Some(name) = given.value("output") {
        names.push(name)?;
    }
    if let Some(name) = given.value("svg") {
        names.push(name)?;
    }
    if let Some(name) = given.value("html") {
        names.push(name)?;
    }
    Ok(names)
}

/// Returns whether a screen shows what is printed.
fn is_shown(is_screen: bool, output: Option<&str>) -> bool
    ensures { result ≡ (is_screen && is_none (option_map (λ s. s.now) output.entry)) }
{
    is_screen && output.is_none()
}

/// Returns the wish that serves words, whose text goes to a file if there is one.
fn serving_wish(
    alloc: Global,
    given: &Given<'_>,
    words: &[String],
    output: Option<&str>,
    is_screen: bool,
) -> Result<Wish, NoMemory>
    ensures meaning { IfOk result (λ wish. meaning wish
        ≡ serving_asked is_screen (given_seen given.now) (map string_bytes words.now) (option_map (λ s. s.now) output.entry)) }
    ensures request { IsSome (request_of (map string_bytes words.now)) → IfOk result CanBeServed }
{
    Ok(Wish::Serve(Serving {
        words: for_screen(alloc, words, is_shown(is_screen, output))?,
        output: text_copied(alloc, output)?,
        force: given.has("force"),
        quiet: given.has("quiet"),
    }))
}

/// Returns the wish that serves words, where one file at most takes what is printed.
fn output_wish(
    alloc: Global,
    given: &Given<'_>,
    words: &[String],
    outputs: &[&str],
    is_screen: bool,
) -> Result<Wish, NoMemory>
    ensures meaning { IfOk result (λ wish. meaning wish
        ≡ by_outputs is_screen (given_seen given.now) (map string_bytes words.now) (map (λ s. s.now) outputs.now)) }
    ensures request { IsSome (request_of (map string_bytes words.now)) → IfOk result CanBeServed }
{
    match outputs {
        [] => serving_wish(alloc, given, words, None, is_screen),
        [output] => serving_wish(alloc, given, words, Some(*output), is_screen),
        _ => Ok(Wish::Wrong(String::from_str(alloc, TWO_FILES)?)),
    }
}

/// Returns what is given to a command as words of `paradyn`, if they are a request.
#[tactic(auto, unfolding(crate::specs::Wishes::serving_of))]
fn served(
    alloc: Global,
    command: &CommandRow,
    given: &Given<'_>,
    is_screen: bool,
) -> Result<Option<Wish>, NoMemory>
    ensures meaning { IfOk result (λ wish. option_map_or meaning wish text_alone
        ≡ serving_of is_screen (command_seen command.now) (given_seen given.now)) }
    ensures served { IfOk result (λ wish. IfSome wish CanBeServed) }
{
    let words = served_words(alloc, command, given)?;
    match read_request(alloc, &words) {
        Ok(_) => {}
        Err(WordFault::NoMemory) => return Err(AllocError),
        Err(WordFault::Usage) => return Ok(None),
    }
    let outputs = outputs(alloc, given)?;
    Ok(Some(output_wish(alloc, given, &words, &outputs, is_screen)?))
}

/// Returns how many harts are given, 1 if none are, where a machine can have as many.
fn harts_given(given: &Given<'_>) -> Option<u32>
    ensures number { result ≡ number_given (given_in (given_seen given.now)) harts_option }
    ensures range { IfSome result (λ harts. (1 ≤ harts) × (harts ≤ MAX_HARTS)) }
{
    let Some(digits) = given.value("harts") else {
        return Some(1);
    };
    match number(digits.as_bytes(), MAX_HARTS as u64) {
        Some(harts) if harts >= 1 => Some(harts as u32),
        _ => None,
    }
}

/// Returns the wish that checks what is given.
#[tactic(auto, unfolding(crate::specs::Wishes::check_of))]
fn checked(alloc: Global, given: &Given<'_>) -> Result<Option<Wish>, NoMemory>
    ensures meaning { IfOk result (λ wish. option_map_or meaning wish text_alone ≡ check_of (given_seen given.now)) }
    ensures served { IfOk result (λ wish. IfSome wish CanBeServed) }
{
    let Some(harts) = harts_given(given) else {
        return Ok(None);
    };
    Ok(Some(Wish::Check(CheckWords {
        program: String::from_str(alloc, given.value("PROGRAM").unwrap_or(""))?,
        conf: text_copied(alloc, given.value("CONF"))?,
        harts,
    })))
}

/// Returns what is given to a command as what it asks for.
fn by_server(
    alloc: Global,
    command: &CommandRow,
    given: &Given<'_>,
    is_screen: bool,
) -> Result<Option<Wish>, NoMemory>
    ensures meaning { IfOk result (λ wish. option_map_or meaning wish text_alone
        ≡ by_server is_screen (command_seen command.now) (command_seen command.now).server (given_seen given.now)) }
    ensures served { IfOk result (λ wish. IfSome wish CanBeServed) }
{
    match command.server {
        Server::Paradyn => served(alloc, command, given, is_screen),
        Server::Check => checked(alloc, given),
        Server::Man | Server::Completions => Ok(None),
    }
}

/// Returns what the words after a command's own ask for.
#[tactic(auto, unfolding(crate::specs::Wishes::command_asked))]
fn command_wish(
    alloc: Global,
    command: &CommandRow,
    words: &[String],
    is_screen: bool,
) -> Result<Option<Wish>, NoMemory>
    ensures meaning { IfOk result (λ wish. option_map_or meaning wish text_alone
        ≡ command_asked is_screen (command_seen command.now) (map string_bytes words.now)) }
    ensures served { IfOk result (λ wish. IfSome wish CanBeServed) }
{
    match given_to(alloc, command, words)? {
        Some(given) => by_server(alloc, command, &given, is_screen),
        None => Ok(None),
    }
}

/// Returns what words ask for; nothing where a text alone answers them.
///
/// # Errors
///
/// `NoMemory` where memory runs out.
#[tactic(auto, unfolding(crate::specs::Wishes::asked_of_pd))]
pub fn pd_wish(alloc: Global, words: &[String], is_screen: bool) -> Result<Option<Wish>, NoMemory>
    ensures meaning { IfOk result (λ wish. option_map_or meaning wish text_alone ≡ asked_of_pd is_screen (map string_bytes words.now)) }
    ensures served { IfOk result (λ wish. IfSome wish CanBeServed) }
{
    let Some((word, others)) = words.split_first() else {
        return Ok(None);
    };
    match command_named(word.as_str()) {
        Some(command) => command_wish(alloc, &command, others, is_screen),
        None => Ok(None),
    }
}
