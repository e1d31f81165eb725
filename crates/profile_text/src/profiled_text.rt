//! A program's text with its profile.

use crate::numbered_word::NumberedWord;
use pn_types::{Image, Proc};
use word_counts::Profile;

/// A program's text with its procedures and its profile.
#[derive(Drop)]
pub struct ProfiledText<'a> {
    /// The program.
    pub image: &'a Image,
    /// Its procedures, by ascending address.
    pub procs: &'a [Proc],
    /// Its profile.
    pub profile: &'a Profile,
    /// The words of the text.
    pub words: Vec<NumberedWord>,
    /// For each place among the words, and for that behind them, the ticks of all words before it.
    pub sums: Vec<u64>,
}
