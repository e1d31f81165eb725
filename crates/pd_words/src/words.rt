//! The positional words and the options.
//!
//! Their texts go into help and the man page as they are: none has a backslash, or begins with a dot or a quote.

ghost use Rattle.std.specs.Prelude.{◌≡◌, map};
ghost use Rattle.pd_words.specs.Options.{typed_words};
ghost use Rattle.pd_words.specs.Seen.{row_seen};

use crate::rows::{Kind, Values, WordRow};
use command_words::MAX_VIEWS;
use pn_types::{
    MAX_BINS, MAX_BUDGET, MAX_HARTS, MAX_INSTRUMENTS, MAX_QUANTUM, MAX_WIDTH, MAX_WORKERS, MIN_BINS,
};

const SHELLS: [&str; 2] = ["bash", "zsh"];

const STARTS: [&str; 2] = ["cold", "warm"];

const SHAPES: [&str; 3] = ["lines", "words", "table"];

const UNITS: [&str; 2] = ["words", "lines"];

const FORMATS: [&str; 6] = ["blocks", "ascii", "json", "csv", "svg", "html"];

const KINDS: [&str; 4] = ["procedure", "module", "lock", "hart"];

/// What most positional words have in common.
const PLACE: WordRow = WordRow {
    kind: Kind::Place,
    name: "",
    letter: None,
    value: "",
    values: Values::File,
    default: None,
    what: "",
};

/// What most options have in common.
const OPTION: WordRow = WordRow {
    kind: Kind::ServedOption,
    value: "N",
    ..PLACE
};

/// What options have in common that stand alone.
const FLAG: WordRow = WordRow {
    kind: Kind::OwnOption,
    values: Values::Alone,
    ..PLACE
};

static WORDS: [WordRow; 48] = [
    WordRow {
        name: "PROGRAM",
        what: "The program, an ELF file or an assembly text",
        ..PLACE
    },
    WordRow {
        name: "CONF",
        what: "The configuration, which says what to measure and what to search for",
        ..PLACE
    },
    WordRow {
        name: "LOG",
        what: "The log of a run",
        ..PLACE
    },
    WordRow {
        name: "TEXT",
        what: "The assembly text",
        ..PLACE
    },
    WordRow {
        name: "METRIC",
        values: Values::Text,
        what: "The name of a metric that the configuration has",
        ..PLACE
    },
    WordRow {
        name: "FOCUS",
        values: Values::Text,
        what: "Where it is measured, as /Code/program/main,/Machine/hart0",
        ..PLACE
    },
    WordRow {
        name: "N",
        values: Values::Number(1, 200),
        what: "How many procedures the program is made of, 1 to 200",
        ..PLACE
    },
    WordRow {
        name: "SEED",
        values: Values::Number(0, 4_294_967_295),
        what: "The seed that the program is drawn from, 0 to 4294967295",
        ..PLACE
    },
    WordRow {
        name: "REPORT",
        what: "The report of a run",
        ..PLACE
    },
    WordRow {
        name: "OLD",
        what: "The report before",
        ..PLACE
    },
    WordRow {
        name: "NEW",
        what: "The report after",
        ..PLACE
    },
    WordRow {
        kind: Kind::Places,
        name: "METRICS",
        values: Values::Text,
        what: "The names of shipped metrics, one or more",
        ..PLACE
    },
    WordRow {
        name: "DIRECTIVES",
        what: "Directives for the search, as advise prints them",
        ..PLACE
    },
    WordRow {
        name: "SHELL",
        values: Values::Words(&SHELLS),
        what: "Which shell, bash or zsh",
        ..PLACE
    },
    WordRow {
        kind: Kind::NamedPlace("procedure"),
        name: "PROCEDURE",
        values: Values::Text,
        what: "A procedure, as main or program/main; without one all are shown",
        ..PLACE
    },
    WordRow {
        name: "harts",
        letter: Some("n"),
        values: Values::Number(1, MAX_HARTS as u64),
        default: Some("1"),
        what: "How many harts the machine has, 1 to 32",
        ..OPTION
    },
    WordRow {
        name: "seed",
        letter: Some("s"),
        values: Values::Number(0, 4_294_967_295),
        default: Some("0"),
        what: "The seed that draws whose turn it is, 0 to 4294967295; at 0 harts go by number",
        ..OPTION
    },
    WordRow {
        name: "workers",
        values: Values::Number(1, MAX_WORKERS as u64),
        default: Some("2"),
        what: "How many threads share the run, 1 to 16",
        ..OPTION
    },
    WordRow {
        name: "views",
        values: Values::Number(1, MAX_VIEWS as u64),
        default: Some("2"),
        what: "How many threads view the run, 1 to 8",
        ..OPTION
    },
    WordRow {
        name: "quantum",
        values: Values::Number(1, MAX_QUANTUM as u64),
        default: Some("50"),
        what: "How many turns a hart takes in a row at most, 1 to 10000",
        ..OPTION
    },
    WordRow {
        name: "budget",
        values: Values::Number(1, MAX_BUDGET),
        default: Some("1000000"),
        what: "How many ticks each hart runs at most, 1 to 100000000",
        ..OPTION
    },
    WordRow {
        name: "bins",
        values: Values::Number(MIN_BINS as u64, MAX_BINS as u64),
        default: Some("64"),
        what: "How many bins a histogram has, 2 to 1024",
        ..OPTION
    },
    WordRow {
        name: "width",
        values: Values::Number(1, MAX_WIDTH),
        default: Some("1000"),
        what: "How many ticks a bin has at first, 1 to 1000000",
        ..OPTION
    },
    WordRow {
        name: "instruments",
        values: Values::Number(1, MAX_INSTRUMENTS as u64),
        default: Some("64"),
        what: "How many instruments may be there at once, 1 to 1024",
        ..OPTION
    },
    WordRow {
        name: "start",
        value: "START",
        values: Values::Words(&STARTS),
        default: Some("warm"),
        what: "Whether the run starts cold or warm",
        ..OPTION
    },
    WordRow {
        name: "also",
        value: "ADDR,..",
        values: Values::Text,
        what: "Addresses at which blocks begin too, as those that a jump table has",
        ..OPTION
    },
    WordRow {
        kind: Kind::Choice("show", "table"),
        name: "table",
        what: "Shows a table of the procedures, as a terminal is shown",
        ..FLAG
    },
    WordRow {
        kind: Kind::Choice("show", "words"),
        name: "words",
        what: "Shows a line for each procedure, call, loop and word",
        ..FLAG
    },
    WordRow {
        name: "show",
        value: "SHAPE",
        values: Values::Words(&SHAPES),
        what: "What is shown: lines, words or table",
        ..OPTION
    },
    WordRow {
        name: "top",
        values: Values::Number(1, 1_000_000),
        default: Some("20"),
        what: "How many procedures a table has at most, 1 to 1000000",
        ..OPTION
    },
    WordRow {
        kind: Kind::Choice("by", "lines"),
        name: "source",
        what: "Shows lines of source in place of words, by the program's line table",
        ..FLAG
    },
    WordRow {
        name: "by",
        value: "UNIT",
        values: Values::Words(&UNITS),
        what: "What is shown with its numbers: words or lines of source",
        ..OPTION
    },
    WordRow {
        name: "columns",
        values: Values::Number(20, 1_000),
        default: Some("80"),
        what: "How wide what is shown may be, 20 to 1000",
        ..OPTION
    },
    WordRow {
        kind: Kind::Choice("format", "ascii"),
        name: "ascii",
        what: "Shows bars of ASCII signs",
        ..FLAG
    },
    WordRow {
        kind: Kind::Choice("format", "json"),
        name: "json",
        what: "Prints all of the report as JSON",
        ..FLAG
    },
    WordRow {
        kind: Kind::Choice("format", "csv"),
        name: "csv",
        what: "Prints all of the report as comma-separated values",
        ..FLAG
    },
    WordRow {
        kind: Kind::FileChoice("format", "svg"),
        name: "svg",
        value: "FILE",
        values: Values::File,
        what: "Writes a picture to FILE: time lines, and the search as a tree",
        ..OPTION
    },
    WordRow {
        kind: Kind::FileChoice("format", "html"),
        name: "html",
        value: "FILE",
        values: Values::File,
        what: "Writes a page to FILE: time lines, and the search as a tree",
        ..OPTION
    },
    WordRow {
        name: "format",
        value: "FORMAT",
        values: Values::Words(&FORMATS),
        what: "How it is shown: blocks, ascii, json, csv, svg or html",
        ..OPTION
    },
    WordRow {
        name: "each",
        value: "KIND",
        values: Values::Words(&KINDS),
        what: "Asks for each procedure, module, lock or hart",
        ..OPTION
    },
    WordRow {
        name: "under",
        value: "FOCUS",
        values: Values::Text,
        default: Some("/Code"),
        what: "Asks for what is below FOCUS, as /Code/words.c,/Machine/hart0",
        ..OPTION
    },
    WordRow {
        name: "from",
        values: Values::Number(0, 2_147_483_647),
        default: Some("0"),
        what: "The tick from which on it is asked for, 0 to 2147483647",
        ..OPTION
    },
    WordRow {
        name: "until",
        values: Values::Number(1, 2_147_483_647),
        what: "The tick at which it ends, above that of --from and up to 2147483647",
        ..OPTION
    },
    WordRow {
        name: "callgrind",
        value: "FILE",
        values: Values::File,
        what: "Writes FILE for callgrind_annotate and KCachegrind",
        ..OPTION
    },
    WordRow {
        name: "log",
        value: "FILE",
        values: Values::File,
        what: "Writes the log of the run to FILE, for replay",
        ..OPTION
    },
    WordRow {
        kind: Kind::OwnOption,
        name: "output",
        letter: Some("o"),
        value: "FILE",
        values: Values::File,
        what: "Writes what is printed to FILE, in place of standard output",
        ..OPTION
    },
    WordRow {
        name: "force",
        what: "Lets --log, --callgrind, --svg, --html and --output write over any file",
        ..FLAG
    },
    WordRow {
        name: "quiet",
        letter: Some("q"),
        what: "Says nothing on standard error but what is wrong",
        ..FLAG
    },
];

/// Returns all positional words and options: first the words, each after those that stand before it in commands, and then the options, in
/// the order in which help lists them.
#[tactic(auto, unfolding(crate::specs::Options::typed_words))]
pub fn all_words() -> &'static [WordRow]
    ensures { map row_seen result.now ≡ typed_words }
{
    &WORDS
}
