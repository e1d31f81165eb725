//! The names of a program's parts as texts.

use crate::texts::name_text;
use pn_types::{Proc, Symbol, Text};

/// Returns a procedure's name.
pub(crate) fn proc_name(proc: &Proc) -> &str {
    name_text(proc.name.bytes())
}

/// Returns the name of a procedure's module.
pub(crate) fn module_name(proc: &Proc) -> &str {
    name_text(proc.module.bytes())
}

/// Returns a variable's name.
pub(crate) fn variable_name(variable: &Symbol) -> &str {
    name_text(variable.name.bytes())
}

/// Returns whether a variable's name begins as those of objects do.
pub(crate) fn is_object_name(prefixes: &[Text], name: &str) -> bool {
    prefixes
        .iter()
        .any(|prefix| name.starts_with(name_text(prefix.bytes())))
}
