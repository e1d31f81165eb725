//! The rows of the tables.

ghost use Rattle.std.specs.Prelude.{◌≡◌};
ghost use Rattle.std.specs.List.{list_any};
ghost use Rattle.std.specs.Str.{bytes_eq};
ghost use Rattle.command_words.specs.Grammar.{is_among};
ghost use Rattle.pd_words.specs.Options.{takes_place, has_typed_option, has_no_value, is_file_name, is_joined, is_positional};
ghost use Rattle.pd_words.specs.Seen.{command_seen, meaning_seen, value_seen, row_seen};

/// Where a word stands, and who reads it.
#[derive(Clone, Copy, Drop)]
pub enum Kind {
    /// It is positional.
    Place,
    /// It is positional, one word or more, which for `paradyn` are one with commas between.
    Places,
    /// It is positional, and for `paradyn` an option of this name.
    NamedPlace(&'static str),
    /// It is an option that `paradyn` has too.
    ServedOption,
    /// It is an option of `pd` alone.
    OwnOption,
    /// It is an option of `pd` alone, and for `paradyn` this value of the option of this name.
    Choice(&'static str, &'static str),
    /// It is the same, and its own value is the file that takes what is printed.
    FileChoice(&'static str, &'static str),
}

/// What a positional word, or the value of an option, can be.
#[derive(Clone, Copy, Drop)]
pub enum Values {
    /// There is none: the option stands alone.
    Alone,
    /// A number from the first to the second.
    Number(u64, u64),
    /// One of these words.
    Words(&'static [&'static str]),
    /// The name of a file.
    File,
    /// Any text.
    Text,
}

/// A positional word, or an option.
#[derive(Clone, Copy, Drop)]
pub struct WordRow {
    pub kind: Kind,
    /// Its name, which stands after `--` where it is an option.
    pub name: &'static str,
    /// The letter of an option's short form, which stands after `-`.
    pub letter: Option<&'static str>,
    /// What the value of an option is called; empty where it has none.
    pub value: &'static str,
    /// What it can be.
    pub values: Values,
    /// What it is where it isn't given.
    pub default: Option<&'static str>,
    /// What it is, in a line.
    pub what: &'static str,
}

/// Who does what a command asks for.
#[derive(Clone, Copy, Drop)]
pub enum Server {
    /// The top call, by the words of `paradyn`.
    Paradyn,
    /// The check of what would mislead.
    Check,
    /// The man page.
    Man,
    /// The completions of a shell.
    Completions,
}

/// A command.
#[derive(Clone, Copy, Drop)]
pub struct CommandRow {
    /// Its own word.
    pub word: &'static str,
    pub server: Server,
    /// The names of its positional words and options.
    pub words: &'static [&'static str],
    /// The names of its positional words that can be left out.
    pub optional: &'static [&'static str],
    /// What it prints, in a line.
    pub summary: &'static str,
    /// A call of it.
    pub example: &'static str,
}

impl Kind {
    /// Returns whether a word is positional.
    pub fn is_place(self) -> bool
        ensures { result ≡ is_positional (meaning_seen self) }
    {
        matches!(self, Kind::Place | Kind::Places | Kind::NamedPlace(_))
    }

    /// Returns whether it is positional, one word or more.
    pub fn is_joined(self) -> bool
        ensures { result ≡ is_joined (meaning_seen self) }
    {
        matches!(self, Kind::Places)
    }
}

impl Values {
    /// Returns whether there is none.
    pub fn is_alone(self) -> bool
        ensures { result ≡ has_no_value (value_seen self) }
    {
        matches!(self, Values::Alone)
    }

    /// Returns whether it is the name of a file.
    pub fn is_file(self) -> bool
        ensures { result ≡ is_file_name (value_seen self) }
    {
        matches!(self, Values::File)
    }
}

/// Returns whether a name is one of these.
fn is_among(names: &[&str], name: &str) -> bool
    ensures { result ≡ list_any (λ other. bytes_eq name.now other.now) names.now }
{
    names.iter().any(|other| name == *other)
}

impl CommandRow {
    /// Returns whether it has a word.
    pub fn has(&self, word: &WordRow) -> bool
        ensures { result ≡ is_among (command_seen self.now).names (row_seen word.now).name }
    {
        is_among(self.words, word.name)
    }

    /// Returns whether it has a positional word.
    pub fn has_place(&self, word: &WordRow) -> bool
        ensures { result ≡ takes_place (command_seen self.now) (row_seen word.now) }
    {
        self.has(word) && word.kind.is_place()
    }

    /// Returns whether it has an option.
    pub fn has_option(&self, word: &WordRow) -> bool
        ensures { result ≡ has_typed_option (command_seen self.now) (row_seen word.now) }
    {
        self.has(word) && !word.kind.is_place()
    }

    /// Returns whether a positional word of it may be left out.
    pub fn is_optional(&self, word: &WordRow) -> bool
        ensures { result ≡ is_among (command_seen self.now).optional (row_seen word.now).name }
    {
        is_among(self.optional, word.name)
    }

    /// Returns whether a word of it may not be left out.
    pub fn needs(&self, word: &WordRow) -> bool {
        word.kind.is_place() && !self.is_optional(word)
    }
}
