//! What a person's words ask `pd` for.

ghost use Rattle.std.specs.Prelude.{◌≡◌, map, string_bytes, IfOk, IsSome};
ghost use Rattle.command_words.specs.Requests.{request_of};
ghost use Rattle.pd_words.specs.Wishes.{as_they_are, asked_of_pd, meaning, pd_meaning, CanBeServed};

use crate::answers::answer;
use crate::asking::pd_wish;
use crate::screens::for_screen;
use command_words::{WordFault, read_request};
use pn_types::NoMemory;
use std::alloc::{AllocError, Global};

/// Words that are handed to the top call, and what `pd` does about them beside it.
#[derive(Drop)]
pub struct Serving {
    /// The words, which `paradyn` takes.
    pub words: Vec<String>,
    /// The name of the file that takes what is printed, in place of standard output.
    pub output: Option<String>,
    /// Whether that file, or the log, may be written over whatever it is.
    pub force: bool,
    /// Whether nothing is to be said on standard error but what is wrong.
    pub quiet: bool,
}

/// What `check` is asked for: what would mislead in a run of these.
#[derive(Drop)]
pub struct CheckWords {
    /// The name of the program's file.
    pub program: String,
    /// The name of the configuration's file.
    pub conf: Option<String>,
    /// How many harts the run would have.
    pub harts: u32,
}

/// What a person's words ask `pd` for.
#[derive(Drop)]
pub enum Wish {
    /// To print a text, as help, on standard output. Status 0.
    Print(String),
    /// To serve words.
    Serve(Serving),
    /// To check what would mislead, before a run.
    Check(CheckWords),
    /// Nothing: the words are wrong, and the text, for standard error, says why. Status 2.
    Wrong(String),
}

/// Returns the wish that serves words as they are.
fn as_they_are(alloc: Global, words: &[String], is_screen: bool) -> Result<Wish, NoMemory>
    ensures meaning { IfOk result (λ wish. meaning wish ≡ as_they_are is_screen (map string_bytes words.now)) }
    ensures request { IsSome (request_of (map string_bytes words.now)) → IfOk result CanBeServed }
{
    Ok(Wish::Serve(Serving {
        words: for_screen(alloc, words, is_screen)?,
        output: None,
        force: false,
        quiet: false,
    }))
}

/// Returns what words ask for that `paradyn` doesn't take.
fn other_wish(alloc: Global, words: &[String], is_screen: bool) -> Result<Wish, NoMemory>
    ensures meaning { IfOk result (λ wish. meaning wish ≡ asked_of_pd is_screen (map string_bytes words.now)) }
    ensures served { IfOk result CanBeServed }
{
    match pd_wish(alloc, words, is_screen)? {
        Some(wish) => Ok(wish),
        None => answer(alloc, words),
    }
}

/// Reads what a person's words, without the program's name, ask `pd` for. Words that `paradyn` takes are served as they are; but on a
/// screen a profile is shown as a table, where no other shape is asked for.
///
/// # Errors
///
/// `NoMemory` where memory runs out.
#[tactic(auto, unfolding(crate::specs::Wishes::pd_meaning))]
pub fn read_wish(alloc: Global, words: &[String], is_screen: bool) -> Result<Wish, NoMemory>
    ensures meaning { IfOk result (λ wish. meaning wish ≡ pd_meaning is_screen (map string_bytes words.now)) }
    ensures served { IfOk result CanBeServed }
{
    match read_request(alloc, words) {
        Ok(_) => as_they_are(alloc, words, is_screen),
        Err(WordFault::NoMemory) => Err(AllocError),
        Err(WordFault::Usage) => other_wish(alloc, words, is_screen),
    }
}
