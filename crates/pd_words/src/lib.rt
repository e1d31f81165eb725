//! The words of `pd`, the program that people type: which of `paradyn`'s words they stand for, and what is said where they stand for
//! none. The tables of commands and words are all that the parser, the man page and the completions are made of.
#![tactic(auto)]

mod answers;
mod asking;
mod commands;
mod completions;
mod given;
mod lines;
mod lookup;
mod man;
mod parser;
mod reading;
mod rows;
mod screens;
mod served;
mod wishes;
mod word_kind;
mod words;

pub use wishes::{CheckWords, Serving, Wish, read_wish};
