//! How the items of configurations and of directives are written.

use crate::text_places::TextPlace;
use crate::texts::add;
use pn_text::{Scanner, Sign, Token, TokenKind};
use pn_types::NoMemory;

/// The most bytes of a text that is read.
const MOST_BYTES: usize = 1_048_576;

/// How something is written that begins with a word.
pub(crate) struct Form {
    word: &'static str,
    written: &'static str,
}

/// The forms of a configuration, and of the parts of metrics and constraints.
pub(crate) const ITEMS: [Form; 12] = [
    Form {
        word: "include",
        written: "include metrics;  or  include hypotheses;",
    },
    Form {
        word: "sync",
        written: "sync NAME;",
    },
    Form {
        word: "metric",
        written: "metric NAME { units \"TEXT\"; constraint NAME; base is counter|timer [initially NUMBER] { foreach .. } }",
    },
    Form {
        word: "constraint",
        written: "constraint NAME /Code|/SyncObject is counter|replace [initially NUMBER] { foreach .. }",
    },
    Form {
        word: "hypothesis",
        written: "hypothesis NAME { [parent NAME;] metric NAME; threshold NUMBER; [axes NAME, NAME;] }",
    },
    Form {
        word: "search",
        written: "search { window NUMBER; cost NUMBER; observed NUMBER; }",
    },
    Form {
        word: "phase",
        written: "phase NAME at NUMBER;",
    },
    Form {
        word: "at",
        written: "at NUMBER show|drop METRIC FOCUS;",
    },
    Form {
        word: "foreach",
        written: "foreach func in $focus|$all|[NAME, NAME] { prepend|append .. }",
    },
    Form {
        word: "prepend",
        written: "prepend entry|return|call|after [constrained] (* STATEMENTS *)",
    },
    Form {
        word: "append",
        written: "append entry|return|call|after [constrained] (* STATEMENTS *)",
    },
    Form {
        word: "(*",
        written: "v++;  v--;  v = NUMBER;  start(v);  stop(v);  if (v < NUMBER) STATEMENT",
    },
];

/// The forms of directives.
pub(crate) const DIRECTIVES: [Form; 3] = [
    Form {
        word: "prune",
        written: "prune HYPOTHESIS;  or  prune HYPOTHESIS axis AXIS;",
    },
    Form {
        word: "threshold",
        written: "threshold HYPOTHESIS NUMBER;",
    },
    Form {
        word: "first",
        written: "first HYPOTHESIS;",
    },
];

/// What was read of a text so far.
#[derive(Drop)]
struct Reading<'a> {
    forms: &'a [Form],
    /// How deep the text is in braces and statements.
    depth: u32,
    /// The form of what goes on; none where an item begins.
    form: Option<&'a Form>,
}

impl<'a> Reading<'a> {
    /// Returns the form that begins with a word.
    fn form_of(&self, word: &[u8]) -> Option<&'a Form> {
        self.forms.iter().find(|form| form.word.as_bytes() == word)
    }

    /// Takes up a word.
    fn take_word(&mut self, word: &[u8]) {
        let form = self.form_of(word);
        let is_inner = matches!(word, b"foreach" | b"prepend" | b"append" | b"(*");
        if form.is_some() && (is_inner || self.form.is_none()) {
            self.form = form;
        }
    }

    /// Takes up a sign.
    fn take_sign(&mut self, sign: Sign) {
        match sign {
            Sign::OpenBrace | Sign::OpenCode => self.depth = self.depth.saturating_add(1),
            Sign::CloseBrace => self.depth = self.depth.saturating_sub(1),
            Sign::CloseCode => {
                self.depth = self.depth.saturating_sub(1);
                self.form = self.form_of(b"prepend");
            }
            _ => {}
        }
        if self.depth == 0 && matches!(sign, Sign::CloseBrace | Sign::Semicolon) {
            self.form = None;
        }
    }

    /// Takes up a token of the text.
    fn take(&mut self, token: &Token, text: &[u8]) {
        self.take_word(text.get(token.from..token.to).unwrap_or(b""));
        if let TokenKind::Sign(sign) = token.kind {
            self.take_sign(sign);
        }
    }
}

/// Returns whether a token stands before a place.
fn is_before(token: &Token, place: &TextPlace<'_>) -> bool {
    token.line < place.line || token.line == place.line && token.col < place.column
}

/// Returns the form of what goes on at a place of a text; none where an item begins there.
fn form_at<'a>(forms: &'a [Form], source: &[u8], place: &TextPlace<'_>) -> Option<&'a Form> {
    if source.len() > MOST_BYTES {
        return None;
    }
    let mut reading = Reading {
        forms,
        depth: 0,
        form: None,
    };
    let mut scanner = Scanner::new(source);
    for _ in 0..source.len() {
        match scanner.next() {
            Ok(Some(token)) if is_before(&token, place) => reading.take(&token, source),
            _ => break,
        }
    }
    reading.form
}

/// Returns whether a part of a text begins with a word of these forms.
fn begins_form(forms: &[Form], part: &[u8]) -> bool {
    let is_letter = |byte: &u8| byte.is_ascii_alphabetic();
    let word = part.split(|byte| !is_letter(byte)).next();
    forms.iter().any(|form| word == Some(form.word.as_bytes()))
}

/// Adds how that is written which goes on at a place of a text, where this part of a line stands.
pub(crate) fn add_form(
    text: &mut String,
    forms: &[Form],
    source: &[u8],
    place: &TextPlace<'_>,
    part: &[u8],
) -> Result<(), NoMemory> {
    if let Some(form) = form_at(forms, source, place) {
        if begins_form(forms, part) {
            text.push_str("Maybe a ; or a } is missing before it.\n")?;
        }
        return add(text, "The form is: {}\n", &[form.written]);
    }
    text.push_str("One of these begins here:")?;
    for form in forms.iter().take_while(|form| form.word != "foreach") {
        add(text, " {}", &[form.word])?;
    }
    text.push_str("\n")
}
