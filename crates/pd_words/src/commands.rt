//! The commands.

ghost use Rattle.std.specs.Prelude.{◌≡◌, find, map, option_map};
ghost use Rattle.std.specs.Str.{bytes_eq};
ghost use Rattle.pd_words.specs.Options.{command_of_word, typed_commands};
ghost use Rattle.pd_words.specs.Seen.{command_seen};

use crate::rows::{CommandRow, Server};

static COMMANDS: [CommandRow; 20] = [
    CommandRow {
        word: "run",
        server: Server::Paradyn,
        words: &[
            "PROGRAM",
            "CONF",
            "harts",
            "seed",
            "quantum",
            "budget",
            "bins",
            "width",
            "instruments",
            "start",
            "log",
            "output",
            "force",
            "quiet",
        ],
        optional: &[],
        summary: "The report of a run",
        example: "Example: pd run words.elf search.conf -n 4 -o words.report",
    },
    CommandRow {
        word: "check",
        server: Server::Check,
        words: &["PROGRAM", "CONF", "harts"],
        optional: &["CONF"],
        summary: "What would mislead, before a run",
        example: "Example: pd check words.elf search.conf -n 4",
    },
    CommandRow {
        word: "profile",
        server: Server::Paradyn,
        words: &[
            "PROGRAM",
            "harts",
            "seed",
            "quantum",
            "budget",
            "also",
            "table",
            "words",
            "show",
            "top",
            "callgrind",
            "output",
            "force",
            "quiet",
        ],
        optional: &[],
        summary: "Where the time goes, by procedure, loop and word",
        example: "Example: pd profile words.elf -n 4 --top 10",
    },
    CommandRow {
        word: "annotate",
        server: Server::Paradyn,
        words: &[
            "PROGRAM",
            "PROCEDURE",
            "harts",
            "seed",
            "quantum",
            "budget",
            "also",
            "source",
            "by",
            "output",
            "force",
            "quiet",
        ],
        optional: &["PROCEDURE"],
        summary: "The words of procedures, with how often each is executed",
        example: "Example: pd annotate words.elf count -n 4",
    },
    CommandRow {
        word: "show",
        server: Server::Paradyn,
        words: &[
            "REPORT", "columns", "ascii", "json", "csv", "svg", "html", "format", "output",
            "force", "quiet",
        ],
        optional: &[],
        summary: "A report as a person looks at it: bars, and the search as a tree",
        example: "Example: pd show words.report",
    },
    CommandRow {
        word: "diff",
        server: Server::Paradyn,
        words: &["OLD", "NEW", "output", "force", "quiet"],
        optional: &[],
        summary: "What differs between two reports",
        example: "Example: pd diff before.report after.report",
    },
    CommandRow {
        word: "ask",
        server: Server::Paradyn,
        words: &[
            "PROGRAM",
            "METRICS",
            "each",
            "under",
            "from",
            "until",
            "instruments",
            "harts",
            "seed",
            "quantum",
            "budget",
            "output",
            "force",
            "quiet",
        ],
        optional: &[],
        summary: "A configuration that asks for metrics, the hottest procedures first",
        example: "Example: pd ask words.elf cpu calls_made --each procedure -n 4 -o words.conf",
    },
    CommandRow {
        word: "live",
        server: Server::Paradyn,
        words: &[
            "PROGRAM",
            "CONF",
            "harts",
            "workers",
            "quantum",
            "budget",
            "bins",
            "width",
            "instruments",
            "start",
            "log",
            "output",
            "force",
            "quiet",
        ],
        optional: &[],
        summary: "The report of a run that threads share",
        example: "Example: pd live words.elf search.conf -n 4 --workers 2 --log words.log",
    },
    CommandRow {
        word: "replay",
        server: Server::Paradyn,
        words: &["PROGRAM", "CONF", "LOG", "output", "force", "quiet"],
        optional: &[],
        summary: "The report of a run again, from its log",
        example: "Example: pd replay words.elf search.conf words.log",
    },
    CommandRow {
        word: "asm",
        server: Server::Paradyn,
        words: &["TEXT", "output", "force", "quiet"],
        optional: &[],
        summary: "The ELF file of an assembly text",
        example: "Example: pd asm words.s -o words.elf",
    },
    CommandRow {
        word: "points",
        server: Server::Paradyn,
        words: &["PROGRAM", "output", "force", "quiet"],
        optional: &[],
        summary: "The points at which a program can be instrumented",
        example: "Example: pd points words.elf",
    },
    CommandRow {
        word: "plan",
        server: Server::Paradyn,
        words: &[
            "PROGRAM", "CONF", "METRIC", "FOCUS", "harts", "output", "force", "quiet",
        ],
        optional: &[],
        summary: "How a metric would be measured at a focus",
        example: "Example: pd plan words.elf search.conf cpu /Code/program/main",
    },
    CommandRow {
        word: "blocks",
        server: Server::Paradyn,
        words: &[
            "PROGRAM", "harts", "seed", "quantum", "budget", "output", "force", "quiet",
        ],
        optional: &[],
        summary: "How often each basic block of a program is executed",
        example: "Example: pd blocks words.elf -n 4",
    },
    CommandRow {
        word: "visi",
        server: Server::Paradyn,
        words: &[
            "PROGRAM",
            "CONF",
            "harts",
            "seed",
            "views",
            "quantum",
            "budget",
            "bins",
            "width",
            "instruments",
            "start",
            "output",
            "force",
            "quiet",
        ],
        optional: &[],
        summary: "The samples of a run, as threads that view it are given them",
        example: "Example: pd visi words.elf look.conf --views 3",
    },
    CommandRow {
        word: "advise",
        server: Server::Paradyn,
        words: &["REPORT", "output", "force", "quiet"],
        optional: &[],
        summary: "Directives for the next search, from a report",
        example: "Example: pd advise words.report -o words.directives",
    },
    CommandRow {
        word: "direct",
        server: Server::Paradyn,
        words: &[
            "PROGRAM",
            "CONF",
            "DIRECTIVES",
            "harts",
            "seed",
            "quantum",
            "budget",
            "bins",
            "width",
            "instruments",
            "start",
            "output",
            "force",
            "quiet",
        ],
        optional: &[],
        summary: "The report of a run whose search follows directives",
        example: "Example: pd direct words.elf search.conf words.directives -n 4",
    },
    CommandRow {
        word: "relog",
        server: Server::Paradyn,
        words: &["LOG", "output", "force", "quiet"],
        optional: &[],
        summary: "A log in the current format",
        example: "Example: pd relog old.log -o new.log",
    },
    CommandRow {
        word: "stress",
        server: Server::Paradyn,
        words: &["N", "SEED", "output", "force", "quiet"],
        optional: &[],
        summary: "A line that sums up a run of a program made from a seed",
        example: "Example: pd stress 20 7",
    },
    CommandRow {
        word: "man",
        server: Server::Man,
        words: &[],
        optional: &[],
        summary: "The man page",
        example: "Example: pd man > pd.1 && man -l pd.1",
    },
    CommandRow {
        word: "completions",
        server: Server::Completions,
        words: &["SHELL"],
        optional: &[],
        summary: "A script that completes the words of pd in a shell",
        example: "Example: pd completions bash > ~/.local/share/bash-completion/completions/pd",
    },
];

/// Returns all commands but `help`, in the order in which help lists them.
#[tactic(auto, unfolding(crate::specs::Options::typed_commands))]
pub fn all_commands() -> &'static [CommandRow]
    ensures { map command_seen result.now ≡ typed_commands }
{
    &COMMANDS
}

/// Returns the first of some commands whose word this is.
fn first_named(commands: &[CommandRow], word: &str) -> Option<CommandRow>
    ensures { result ≡ find (λ row. bytes_eq row.word.now word.now) commands.now }
{
    commands.iter().copied().find(|row| row.word == word)
}

/// Returns the command of a word.
pub fn command_named(word: &str) -> Option<CommandRow>
    ensures { option_map command_seen result ≡ command_of_word word.now }
{
    first_named(all_commands(), word)
}
