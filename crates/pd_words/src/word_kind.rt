//! What a word is.

ghost use Rattle.std.specs.Prelude.{◌≡◌};
ghost use Rattle.command_words.specs.Grammar.{kind_of, option_kind};
ghost use Rattle.pd_words.specs.Seen.{HasLetters, HasNoLetters, kind_meant};

/// What a word is, where no option awaits its value.
#[derive(Clone, Copy, Drop)]
pub enum WordKind<'a> {
    /// `--` alone.
    EndOfOptions,
    /// `--NAME`, or `--NAME=VALUE`.
    Named(&'a str, Option<&'a str>),
    /// `-` and letters.
    Letters(&'a str),
    /// Any other word.
    Plain,
}

impl<'a> WordKind<'a> {
    /// Returns what follows `--`.
    fn of_option(text: &'a str) -> WordKind<'a>
        ensures kind { kind_meant result ≡ option_kind text.now }
        ensures letters { HasNoLetters result }
    {
        match text.split_once('=') {
            Some((name, value)) => WordKind::Named(name, Some(value)),
            None => WordKind::Named(text, None),
        }
    }

    /// Returns what the word is.
    pub fn of(word: &'a str) -> WordKind<'a>
        ensures kind { kind_meant result ≡ kind_of word.now }
        ensures letters { HasLetters word.now result }
    {
        let Some(flag) = word.strip_prefix('-') else {
            return WordKind::Plain;
        };
        if flag.is_empty() {
            return WordKind::Plain;
        }
        let Some(text) = flag.strip_prefix('-') else {
            return WordKind::Letters(flag);
        };
        if text.is_empty() {
            return WordKind::EndOfOptions;
        }
        WordKind::of_option(text)
    }
}
