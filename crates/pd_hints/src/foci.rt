//! Foci that select nothing.

use crate::nearest::{add_unknown, nearest};
use crate::program_names::{is_object_name, module_name, proc_name, variable_name};
use crate::texts::add;
use pn_types::{MAX_HARTS, NoMemory, Proc, Symbol, Text};
use std::alloc::Global;

/// The hierarchies.
const HIERARCHIES: [&str; 3] = ["Code", "Machine", "SyncObject"];

/// What foci can select of a program.
#[derive(Clone, Copy, Drop)]
pub(crate) struct Resources<'a> {
    /// The procedures.
    pub(crate) procs: &'a [Proc],
    /// The variables.
    pub(crate) variables: &'a [Symbol],
    /// How the names of those variables begin that are objects.
    pub(crate) prefixes: &'a [Text],
    /// The number of harts, where it is known.
    pub(crate) harts: Option<u32>,
}

impl<'a> Resources<'a> {
    /// Returns the procedure of a name, in whatever module.
    fn procedure(&self, name: &str) -> Option<&'a Proc> {
        self.procs.iter().find(|proc| proc_name(proc) == name)
    }

    /// Returns whether there is a module of this name.
    fn has_module(&self, name: &str) -> bool {
        self.procs.iter().any(|proc| module_name(proc) == name)
    }

    /// Returns whether the module has a procedure of this name.
    fn has_procedure(&self, module: &str, name: &str) -> bool {
        self.procs.iter().any(|proc| module_name(proc) == module && proc_name(proc) == name)
    }

    /// Returns the names of the modules, one for each procedure.
    fn modules(&self, alloc: Global) -> Result<Vec<&'a str>, NoMemory> {
        self.procs.iter().map(module_name).collect(alloc)
    }

    /// Returns the names of a module's procedures.
    fn procedures(&self, alloc: Global, module: &str) -> Result<Vec<&'a str>, NoMemory> {
        self.procs
            .iter()
            .filter(|proc| module_name(proc) == module)
            .map(proc_name)
            .collect(alloc)
    }

    /// Returns the names of the objects.
    fn object_names(&self, alloc: Global) -> Result<Vec<&'a str>, NoMemory> {
        self.variables
            .iter()
            .map(variable_name)
            .filter(|name| is_object_name(self.prefixes, name))
            .collect(alloc)
    }

    /// Adds why there is no such procedure of a module.
    fn add_procedure(
        &self,
        alloc: Global,
        text: &mut String,
        module: &str,
        name: &str,
    ) -> Result<(), NoMemory> {
        if self.has_procedure(module, name) {
            return Ok(());
        }
        match self.procedure(name) {
            Some(proc) => add(
                text,
                "The procedure '{}' is /Code/{}/{}.\n",
                &[name, module_name(proc), name],
            ),
            None => add_unknown(
                alloc,
                text,
                "procedure",
                name,
                &self.procedures(alloc, module)?,
            ),
        }
    }

    /// Adds where the procedure is that may be meant by a name.
    fn add_near_procedure(
        &self,
        alloc: Global,
        text: &mut String,
        name: &str,
    ) -> Result<(), NoMemory> {
        let names: Vec<&str> = self.procs.iter().map(proc_name).collect(alloc)?;
        let near = nearest(alloc, name, &names)?.and_then(|near| self.procedure(near));
        match near {
            Some(proc) => add(
                text,
                "Maybe /Code/{}/{} is meant.\n",
                &[module_name(proc), proc_name(proc)],
            ),
            None => Ok(()),
        }
    }

    /// Adds why there is no such module.
    fn add_module(&self, alloc: Global, text: &mut String, name: &str) -> Result<(), NoMemory> {
        if self.procs.is_empty() {
            return text.push_str(
                "The program has no procedures: it is stripped, so there is only /Code as a whole.\n",
            );
        }
        match self.procedure(name) {
            Some(proc) => add(
                text,
                "'{}' is no module, but the procedure /Code/{}/{}.\n",
                &[name, module_name(proc), name],
            ),
            None => {
                add_unknown(alloc, text, "module", name, &self.modules(alloc)?)?;
                self.add_near_procedure(alloc, text, name)
            }
        }
    }

    /// Adds what isn't there of a module, or of a module and a procedure.
    fn add_code(&self, alloc: Global, text: &mut String, below: &str) -> Result<(), NoMemory> {
        let (module, name) = match below.split_once('/') {
            Some((module, name)) => (module, Some(name)),
            None => (below, None),
        };
        match name {
            _ if !self.has_module(module) => self.add_module(alloc, text, module),
            Some(name) => self.add_procedure(alloc, text, module, name),
            None => Ok(()),
        }
    }

    /// Adds why there is no such hart.
    fn add_hart(&self, alloc: Global, text: &mut String, name: &str) -> Result<(), NoMemory> {
        let Some(harts) = self.harts else {
            return Ok(());
        };
        let number = name
            .strip_prefix("hart")
            .and_then(|digits| digits.parse::<u32>().ok());
        match number {
            Some(number) if number < harts => Ok(()),
            Some(number) if number < MAX_HARTS => {
                let wanted = (number + 1).to_string(alloc)?;
                add(
                    text,
                    "'{}' is there with --harts {} or more.\n",
                    &[name, wanted.as_str()],
                )
            }
            _ => add(
                text,
                "'{}' is no hart: they are hart0 to hart31.\n",
                &[name],
            ),
        }
    }

    /// Adds why there is no such object.
    fn add_object(&self, alloc: Global, text: &mut String, name: &str) -> Result<(), NoMemory> {
        let is_variable = self
            .variables
            .iter()
            .any(|variable| variable_name(variable) == name);
        match (is_variable, is_object_name(self.prefixes, name)) {
            (true, true) => Ok(()),
            (true, false) => add(
                text,
                "The variable '{}' is no object, since no `sync` begins its name: write `sync {};`.\n",
                &[name, name],
            ),
            (false, _) => {
                add_unknown(alloc, text, "object", name, &self.object_names(alloc)?)?;
                text.push_str(
                    "Objects are the variables whose names a `sync` of the configuration begins.\n",
                )
            }
        }
    }

    /// Adds what isn't there of a part of a focus.
    fn add_part(&self, alloc: Global, text: &mut String, part: &str) -> Result<(), NoMemory> {
        let Some(path) = part.strip_prefix('/') else {
            return add(
                text,
                "'{}' is no part of a focus: these begin with /Code, /Machine or /SyncObject.\n",
                &[part],
            );
        };
        match path.split_once('/') {
            Some(("Code", below)) => self.add_code(alloc, text, below),
            Some(("Machine", below)) => self.add_hart(alloc, text, below),
            Some(("SyncObject", below)) => self.add_object(alloc, text, below),
            Some((hierarchy, _)) => add_unknown(alloc, text, "hierarchy", hierarchy, &HIERARCHIES),
            None if HIERARCHIES.contains(&path) => Ok(()),
            None => add_unknown(alloc, text, "hierarchy", path, &HIERARCHIES),
        }
    }

    /// Adds a line on each part of a focus that selects nothing.
    pub(crate) fn add_focus(
        &self,
        alloc: Global,
        text: &mut String,
        focus: &str,
    ) -> Result<(), NoMemory> {
        for part in focus.split(',') {
            self.add_part(alloc, text, part)?;
        }
        Ok(())
    }
}
