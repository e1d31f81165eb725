//! The modules and procedures of a tree.

ghost use Rattle.std.specs.Prelude.{◌≡◌, ◌<◌, ◌^◌, IfOk, length, position, slice_get};
ghost use Rattle.std.specs.List.{range_with_len};
ghost use Rattle.std.specs.Option.{option_map};
ghost use Rattle.std.specs.Str.{bytes_eq};
ghost use Rattle.resource_tree.specs.Resources.{HasFewMembers, code_of, proc_of};
ghost use Rattle.resource_tree.specs.Foci.{path_of, procs_of_module};

use first_places::{FirstPlaces, PlacesByName};
use pn_types::{NoMemory, Proc};
use std::alloc::Global;
use std::marker::Model;

/// The modules and procedures of a program.
pub(crate) struct CodeTree {
    /// The module of each procedure.
    modules: PlacesByName,
    /// The path of each procedure: its module, a `/` and its name.
    paths: FirstPlaces,
}

impl Model for CodeTree {
    ghost use Rattle.resource_tree.specs.Resources.{CodeNodes};
    ghost use Rattle.resource_tree.specs.Columns.{AreColumns, code_at};

    ghost Value = { CodeNodes };

    ghost view = { λ c. code_at c.modules c.paths };

    ghost invariant = { λ c. AreColumns c.modules c.paths };
}

// A function of its own, so that what drops it need not prove the drops of all its parts.
impl Drop for CodeTree {
    fn drop(self) {
        let CodeTree {
            modules: _,
            paths: _,
        } = self;
    }
}

/// The path of a procedure.
fn path_of(alloc: Global, proc: &Proc) -> Result<Vec<u8>, NoMemory>
    ensures { IfOk result (λ path. path.items ≡ path_of (proc_of proc.now)) }
{
    let mut path = Vec::from_slice(alloc, proc.module.bytes())?;
    path.extend_from_slice(b"/")?;
    path.extend_from_slice(proc.name.bytes())?;
    Ok(path)
}

/// The numbers below a count.
fn numbers_below(alloc: Global, count: u32) -> Result<Vec<u32>, NoMemory>
    ensures { IfOk result (λ all. all.items ≡ range_with_len 0 count) }
{
    let mut all = Vec::new(alloc);
    for number in 0..count {
        all.push(number)?;
    }
    Ok(all)
}

impl CodeTree {
    /// The modules and procedures, of which there are fewer than 2^32.
    pub(crate) fn of(alloc: Global, procs: &[Proc]) -> Result<CodeTree, NoMemory>
        requires { length procs.now < 2 ^ 32 }
        ensures { IfOk result (λ code. code ≡ code_of procs.now) }
    {
        let mut modules = PlacesByName::new(alloc);
        let mut paths = FirstPlaces::new(alloc);
        for proc in procs {
            modules.push(alloc, proc.module.bytes())?;
            let path = path_of(alloc, proc)?;
            paths.push(alloc, &path)?;
        }
        Ok(CodeTree { modules, paths })
    }

    /// An equal tree.
    pub(crate) fn copy(&self, alloc: Global) -> Result<CodeTree, NoMemory>
        ensures { IfOk result (λ copy. copy ≡ self.now) }
    {
        Ok(CodeTree {
            modules: self.modules.copy(alloc)?,
            paths: self.paths.copy(alloc)?,
        })
    }

    /// The number of the module of this name.
    pub(crate) fn module_named(&self, name: &[u8]) -> Option<u32>
        ensures { result ≡ position (λ m. bytes_eq name.now m.name) self.now.modules }
    {
        self.modules.group_named(name)
    }

    /// The number of the first procedure with this path.
    pub(crate) fn proc_at(&self, path: &[u8]) -> Option<u32>
        ensures { result ≡ position (λ p. bytes_eq path.now (path_of p)) self.now.procs }
    {
        let number = self.paths.lookup(path)?;
        Some(number as u32)
    }

    /// The numbers of all procedures.
    pub(crate) fn all(&self, alloc: Global) -> Result<Vec<u32>, NoMemory>
        ensures { IfOk result (λ all. all.items ≡ range_with_len 0 (length self.now.procs)) }
    {
        numbers_below(alloc, self.paths.len() as u32)
    }

    /// The name of a module.
    pub(crate) fn module_name(&self, number: u32) -> Option<&[u8]>
        ensures { option_map (λ name. name.now) result ≡ option_map (λ m. m.name) (slice_get self.now.modules number) }
    {
        self.modules.name(number)
    }

    /// The numbers of the procedures of a module. Empty where there is no such module.
    pub(crate) fn members(&self, number: u32) -> &[u32]
        ensures { result.now ≡ procs_of_module self.now number }
    {
        self.modules.group(number)
    }

    /// The path of a procedure.
    pub(crate) fn path(&self, number: usize) -> Option<&[u8]>
        ensures { option_map (λ path. path.now) result ≡ option_map path_of (slice_get self.now.procs number) }
    {
        self.paths.name(number)
    }

    /// How many modules there are.
    pub(crate) fn len(&self) -> u32
        ensures { result ≡ length self.now.modules }
    {
        self.modules.group_count()
    }

    /// How many procedures a module has. It is 0 where there is no such module.
    pub(crate) fn member_count(&self, number: u32) -> u32
        requires { HasFewMembers (length self.now.procs) self.now.modules }
        ensures { result ≡ length (procs_of_module self.now number) }
    {
        // A read field brings in the invariant, which bounds the members.
        let _paths = &self.paths;
        self.members(number).len() as u32
    }
}
