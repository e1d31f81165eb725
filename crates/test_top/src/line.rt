//! The lines of the table.

/// What a line of the table says.
#[derive(Clone, Copy, Drop)]
pub enum Line<'a> {
    /// What is given: a word and what stands after it.
    Given(&'a str, &'a str),
    /// What is to be done, with the case as it is.
    Call(Call<'a>),
    /// Nothing.
    Nothing,
}

/// What is to be done with a case.
#[derive(Clone, Copy, Drop)]
pub enum Call<'a> {
    /// Words are served, or none where they aren't text.
    Serve(Option<&'a str>),
    /// A number, and words that are served, of whose output only that many bytes are printed.
    Begin(&'a str),
    /// A name, and words that are served, whose log is the file of that name from then on.
    Keep(&'a str),
    /// A name, and words that are served where two workers meet, whose log is the file of that name from then on.
    Meet(&'a str),
    /// Words are served where two workers' calls are counted.
    Count(&'a str),
    /// Words are served, and their output is compared.
    Compare(&'a str),
    /// Texts are delivered.
    Deliver(&'a str),
    /// A session takes the quanta of a run with these options.
    Row(&'a str),
    /// Words of `pd`.
    Person(&'a str),
    /// Words of `pd`, of which it is asked which files they may write.
    Guard(&'a str),
}

impl<'a> Line<'a> {
    /// Reads a line.
    pub fn of(text: &'a str) -> Line<'a> {
        if let Some(rest) = text.strip_prefix('|') {
            return Line::Given("|", rest);
        }
        let (word, rest) = match text.split_once(' ') {
            Some((word, rest)) => (word, rest),
            None => (text, ""),
        };
        match word {
            "words" => Line::Call(Call::Serve(Some(rest))),
            "begin" => Line::Call(Call::Begin(rest)),
            "keep" => Line::Call(Call::Keep(rest)),
            "meet" => Line::Call(Call::Meet(rest)),
            "count" => Line::Call(Call::Count(rest)),
            "compare" => Line::Call(Call::Compare(rest)),
            "not-text" => Line::Call(Call::Serve(None)),
            "deliver" => Line::Call(Call::Deliver(rest)),
            "row" => Line::Call(Call::Row(rest)),
            "pd" => Line::Call(Call::Person(rest)),
            "guard" => Line::Call(Call::Guard(rest)),
            "" | "#" => Line::Nothing,
            _ => Line::Given(word, rest),
        }
    }
}
