//! The scripts that complete words in shells: what the tables say is the same in each, and what is done with it stands behind.

use crate::commands::all_commands;
use crate::lines::{add, add_forms};
use crate::rows::{CommandRow, Kind, Values, WordRow};
use crate::words::all_words;
use pn_types::NoMemory;
use std::alloc::Global;

/// How a script begins.
const HEAD: &str = r#"#compdef pd
# The completion of pd.

# The words that may follow a command: those that are few, and then the options.
_pd_words() {
    case $1 in
"#;

/// What stands between the words and the values.
const VALUES_HEAD: &str = r#"    esac
}

# The values of an option, where they are few, or a usual one.
_pd_values() {
    case $1 in
"#;

/// How the script for bash ends. Where it finds no words, bash completes names of files. A word with `=` in it is three words to bash.
pub const BASH: &str = r#"    esac
}

_pd() {
    local current=${COMP_WORDS[COMP_CWORD]} before=${COMP_WORDS[COMP_CWORD - 1]} command= found
    if ((COMP_CWORD > 1)); then
        command=${COMP_WORDS[1]}
    fi
    if [[ $before == '=' ]]; then
        before=${COMP_WORDS[COMP_CWORD - 2]}
    elif [[ $current == '=' ]]; then
        current=
    fi
    found=$(_pd_values "$before")
    if [[ -z ${found// } ]]; then
        found=$(_pd_words "$command")
        [[ $current == -* ]] || found=${found%% -*}
    fi
    mapfile -t COMPREPLY < <(compgen -W "$found" -- "$current")
}
complete -o default -F _pd pd
"#;

/// How the script for zsh ends. It is run at once where it was loaded by name, and else made known.
pub const ZSH: &str = r#"    esac
}

_pd() {
    local before=$words[CURRENT-1] command= found
    if (( CURRENT > 2 )); then
        command=$words[2]
    fi
    if compset -P '--*='; then
        before=${IPREFIX%=}
    fi
    found=$(_pd_values "$before")
    if [[ -z ${found// } ]]; then
        found=$(_pd_words "$command")
        [[ $PREFIX == -* ]] || found=${found%% -*}
    fi
    if [[ -n ${found// } ]]; then
        compadd -- ${=found}
    else
        _files
    fi
}
if [[ $funcstack[1] == _pd ]]; then
    _pd "$@"
else
    compdef _pd pd
fi
"#;

fn add_each(script: &mut String, words: &[&'static str]) -> Result<(), NoMemory> {
    for word in words {
        add(script, &[" ", word])?;
    }
    Ok(())
}

/// Adds what a word, or the value of an option, is likely to be.
fn add_choices(script: &mut String, word: &WordRow) -> Result<(), NoMemory> {
    match word.values {
        Values::Words(words) => add_each(script, words),
        _ => add(script, &[" ", word.default.unwrap_or("")]),
    }
}

fn add_word(script: &mut String, word: &WordRow) -> Result<(), NoMemory> {
    match word.kind {
        Kind::Place | Kind::Places | Kind::NamedPlace(_) => add_choices(script, word),
        Kind::ServedOption | Kind::OwnOption | Kind::Choice(_, _) | Kind::FileChoice(_, _) =>
            add_forms(script, " ", word, " "),
    }
}

/// Adds the case of a command.
fn add_command(script: &mut String, command: &CommandRow) -> Result<(), NoMemory> {
    add(script, &["        ", command.word, ") echo '"])?;
    for word in all_words() {
        if command.has(word) {
            add_word(script, word)?;
        }
    }
    script.push_str(" -h --help' ;;\n")
}

fn add_commands(script: &mut String) -> Result<(), NoMemory> {
    for command in all_commands() {
        add_command(script, command)?;
    }
    Ok(())
}

fn add_command_words(script: &mut String) -> Result<(), NoMemory> {
    for command in all_commands() {
        add(script, &[" ", command.word])?;
    }
    Ok(())
}

/// Adds the case of an option.
fn add_value(script: &mut String, option: &WordRow) -> Result<(), NoMemory> {
    add_forms(script, "        ", option, "|")?;
    script.push_str(") echo '")?;
    add_choices(script, option)?;
    script.push_str("' ;;\n")
}

fn add_values(script: &mut String) -> Result<(), NoMemory> {
    for word in all_words() {
        if !word.kind.is_place() {
            add_value(script, word)?;
        }
    }
    Ok(())
}

/// Returns the script that completes the words of `pd` in the shell for which it ends so.
///
/// # Errors
///
/// `NoMemory` where memory runs out.
pub fn completion(alloc: Global, end: &str) -> Result<String, NoMemory> {
    let mut script = String::from_str(alloc, HEAD)?;
    add_commands(&mut script)?;
    script.push_str("        ''|help) echo '")?;
    add_command_words(&mut script)?;
    add(
        &mut script,
        &[" help -h --help -V --version' ;;\n", VALUES_HEAD],
    )?;
    add_values(&mut script)?;
    script.push_str(end)?;
    Ok(script)
}
