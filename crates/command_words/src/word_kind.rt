//! What a word is.

ghost use Rattle.std.specs.Prelude.{◌≡◌, ◌==◌, option_map};
ghost use Rattle.std.specs.List.{list_any, before_first, after_first};
ghost use Rattle.command_words.specs.Grammar.{kind_of, option_kind};
ghost use Rattle.command_words.specs.Walked.{kind_seen};

/// What a word is, where no option awaits its value.
#[derive(Clone, Copy, Drop)]
pub enum WordKind<'a> {
    /// `--` alone.
    EndOfOptions,
    /// `--NAME`, or `--NAME=VALUE`.
    Named(&'a str, Option<&'a str>),
    /// Another word that begins with `-` and isn't `-` alone.
    OtherFlag,
    /// Any other word.
    Plain,
}

impl<'a> WordKind<'a> {
    /// Returns what follows `--`.
    fn of_option(text: &'a str) -> WordKind<'a>
        ensures { kind_seen result ≡ option_kind text.now }
    {
        match text.split_once('=') {
            Some((name, value)) => WordKind::Named(name, Some(value)),
            None => WordKind::Named(text, None),
        }
    }

    /// Returns what the word is.
    pub fn of(word: &'a str) -> WordKind<'a>
        ensures { kind_seen result ≡ kind_of word.now }
    {
        let Some(flag) = word.strip_prefix('-') else {
            return WordKind::Plain;
        };
        if flag.is_empty() {
            return WordKind::Plain;
        }
        let Some(text) = flag.strip_prefix('-') else {
            return WordKind::OtherFlag;
        };
        if text.is_empty() {
            return WordKind::EndOfOptions;
        }
        WordKind::of_option(text)
    }
}
