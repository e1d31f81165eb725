//! The commands, and the words that each takes.

ghost use Rattle.std.specs.Prelude.{◌≡◌, find};
ghost use Rattle.std.specs.Str.{bytes_eq};
ghost use Rattle.command_words.specs.Commands.{command_named, form_of};
ghost use Rattle.command_words.specs.Walked.{form_seen};

use crate::forms::Form;

/// The commands.
#[derive(Clone, Copy, PartialEq, Eq, Drop)]
pub enum CommandName {
    Run,
    Live,
    Replay,
    Asm,
    Points,
    Plan,
    Stress,
    Relog,
    Blocks,
    Visi,
    Advise,
    Direct,
    Profile,
    Annotate,
    Show,
    Diff,
    Ask,
}

/// All commands.
const COMMANDS: [CommandName; 17] = [
    CommandName::Run,
    CommandName::Live,
    CommandName::Replay,
    CommandName::Asm,
    CommandName::Points,
    CommandName::Plan,
    CommandName::Stress,
    CommandName::Relog,
    CommandName::Blocks,
    CommandName::Visi,
    CommandName::Advise,
    CommandName::Direct,
    CommandName::Profile,
    CommandName::Annotate,
    CommandName::Show,
    CommandName::Diff,
    CommandName::Ask,
];

const RUN_OPTIONS: [&str; 9] = [
    "harts",
    "seed",
    "quantum",
    "budget",
    "bins",
    "width",
    "log",
    "instruments",
    "start",
];

const LIVE_OPTIONS: [&str; 9] = [
    "harts",
    "workers",
    "quantum",
    "budget",
    "bins",
    "width",
    "log",
    "instruments",
    "start",
];

const BLOCKS_OPTIONS: [&str; 4] = ["harts", "seed", "quantum", "budget"];

const VISI_OPTIONS: [&str; 9] = [
    "harts",
    "seed",
    "quantum",
    "budget",
    "bins",
    "width",
    "instruments",
    "start",
    "views",
];

const DIRECT_OPTIONS: [&str; 8] = [
    "harts",
    "seed",
    "quantum",
    "budget",
    "bins",
    "width",
    "instruments",
    "start",
];

const PROFILE_OPTIONS: [&str; 8] = [
    "harts",
    "seed",
    "quantum",
    "budget",
    "also",
    "show",
    "top",
    "callgrind",
];

const ANNOTATE_OPTIONS: [&str; 7] = [
    "harts",
    "seed",
    "quantum",
    "budget",
    "also",
    "procedure",
    "by",
];

const ASK_OPTIONS: [&str; 9] = [
    "harts",
    "seed",
    "quantum",
    "budget",
    "instruments",
    "each",
    "under",
    "from",
    "until",
];

/// What each command takes, in the order of the commands.
const FORMS: [Form; 17] = [
    Form {
        word: "run",
        places: &["program", "conf"],
        options: &RUN_OPTIONS,
    },
    Form {
        word: "live",
        places: &["program", "conf"],
        options: &LIVE_OPTIONS,
    },
    Form {
        word: "replay",
        places: &["program", "conf", "record"],
        options: &[],
    },
    Form {
        word: "asm",
        places: &["text"],
        options: &[],
    },
    Form {
        word: "points",
        places: &["program"],
        options: &[],
    },
    Form {
        word: "plan",
        places: &["program", "conf", "metric", "focus"],
        options: &["harts"],
    },
    Form {
        word: "stress",
        places: &["procs", "seed"],
        options: &[],
    },
    Form {
        word: "relog",
        places: &["record"],
        options: &[],
    },
    Form {
        word: "blocks",
        places: &["program"],
        options: &BLOCKS_OPTIONS,
    },
    Form {
        word: "visi",
        places: &["program", "conf"],
        options: &VISI_OPTIONS,
    },
    Form {
        word: "advise",
        places: &["report"],
        options: &[],
    },
    Form {
        word: "direct",
        places: &["program", "conf", "directives"],
        options: &DIRECT_OPTIONS,
    },
    Form {
        word: "profile",
        places: &["program"],
        options: &PROFILE_OPTIONS,
    },
    Form {
        word: "annotate",
        places: &["program"],
        options: &ANNOTATE_OPTIONS,
    },
    Form {
        word: "show",
        places: &["report"],
        options: &["columns", "format"],
    },
    Form {
        word: "diff",
        places: &["old", "new"],
        options: &[],
    },
    Form {
        word: "ask",
        places: &["program", "metrics"],
        options: &ASK_OPTIONS,
    },
];

/// Returns the first of some commands whose word this is.
fn first_named(commands: &[CommandName], word: &str) -> Option<CommandName>
    ensures { result ≡ find (λ name. bytes_eq (form_of name).word word.now) commands.now }
{
    commands.iter().copied().find(|name| name.word() == word)
}

impl CommandName {
    /// Returns the words that it takes.
    pub(crate) fn form(self) -> Form
        ensures { form_seen result ≡ form_of self }
    {
        FORMS[self as usize]
    }

    fn word(self) -> &'static str
        ensures { result.now ≡ (form_of self).word }
    {
        self.form().word
    }

    /// Returns the command of this word.
    pub fn of_word(word: &str) -> Option<CommandName>
        ensures { result ≡ command_named word.now }
    {
        first_named(&COMMANDS, word)
    }
}
