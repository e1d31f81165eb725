//! What of the names of a program would mislead under a configuration.

use crate::counted_names::{COUNTED, CountedNames, ListedName};
use crate::findings::add_finding;
use crate::lock_names::{is_like_lock, is_like_waiting};
use crate::nearest::nearest;
use crate::program_names::is_object_name;
use crate::texts::add;
use pn_types::{NoMemory, Text};
use std::alloc::Global;

/// A program's names, and how those of the objects begin.
#[derive(Clone, Copy, Drop)]
pub(crate) struct Names<'a> {
    pub(crate) procs: &'a [&'a str],
    pub(crate) variables: &'a [&'a str],
    pub(crate) prefixes: &'a [Text],
}

impl<'a> Names<'a> {
    /// Adds a line on a name that is listed, if no procedure has it.
    fn add_listed(
        &self,
        alloc: Global,
        text: &mut String,
        listed: &ListedName<'_>,
    ) -> Result<(), NoMemory> {
        if self.procs.contains(&listed.name) {
            return Ok(());
        }
        let line = listed.line.to_string(alloc)?;
        add(
            text,
            "pd: no procedure {}, which the foreach of line {} names: ",
            &[listed.name, line.as_str()],
        )?;
        match nearest(alloc, listed.name, self.procs)? {
            Some(near) => add(text, "maybe {} is meant\n", &[near]),
            None => text.push_str("nothing is counted there\n"),
        }
    }

    /// Adds a line on each name that a configuration lists and no procedure has.
    fn add_all_listed(
        &self,
        alloc: Global,
        text: &mut String,
        counted: &CountedNames<'_>,
    ) -> Result<(), NoMemory> {
        for listed in &counted.listed {
            self.add_listed(alloc, text, listed)?;
        }
        Ok(())
    }

    /// Adds a line where the shipped metrics count nothing of the program.
    fn add_counted(&self, text: &mut String) -> Result<(), NoMemory> {
        if COUNTED.iter().any(|name| self.procs.contains(name)) {
            return Ok(());
        }
        text.push_str(
            "pd: no lock_acquire, barrier_wait, read or write: the shipped metrics count waiting, input and output in these alone\n",
        )
    }

    /// Adds a line on the procedures that look like waiting and aren't counted.
    fn add_waiting(
        &self,
        alloc: Global,
        text: &mut String,
        counted: &CountedNames<'_>,
    ) -> Result<(), NoMemory> {
        let mut names = Vec::new(alloc);
        for name in self.procs {
            if is_like_waiting(name) && !counted.counts(name) {
                names.push(*name)?;
            }
        }
        let says =
            "no metric counts the waiting there; call it lock_acquire, or write a metric for it";
        add_finding(alloc, text, "locks by other names in", &names, says)
    }

    /// Adds a line on the variables that look like locks and are no objects.
    fn add_locks(&self, alloc: Global, text: &mut String) -> Result<(), NoMemory> {
        let mut names = Vec::new(alloc);
        for name in self.variables {
            if is_like_lock(name) && !is_object_name(self.prefixes, name) {
                names.push(*name)?;
            }
        }
        let says =
            "no sync begins their names, so /SyncObject is without them; write sync and how they begin";
        add_finding(alloc, text, "locks that are no objects:", &names, says)
    }
}

/// Adds a line on each finding on a program's names under what a configuration counts.
pub(crate) fn add_name_findings(
    alloc: Global,
    text: &mut String,
    names: &Names<'_>,
    counted: &CountedNames<'_>,
) -> Result<(), NoMemory> {
    if names.procs.is_empty() {
        return Ok(());
    }
    names.add_all_listed(alloc, text, counted)?;
    if !counted.has_shipped {
        return Ok(());
    }
    names.add_counted(text)?;
    names.add_waiting(alloc, text, counted)?;
    names.add_locks(alloc, text)
}
