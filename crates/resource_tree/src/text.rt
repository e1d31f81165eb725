//! The canonical text of a focus.

ghost use Rattle.std.specs.Prelude.{◌≡◌, ◌≤◌, ◌++◌, IfOk, OnOk};
ghost use Rattle.std.specs.Option.{option_map};
ghost use Rattle.resource_tree.specs.Foci.{canonical, code_text, named_text, object_text, IsFocusOf, IsTextOf};
ghost use Rattle.resource_tree.specs.Names.{IsNamed};

use crate::code::CodeTree;
use crate::harts::add_hart;
use crate::objects::Objects;
use crate::tree::Tree;
use pn_types::{CodePart, Focus, MAX_HARTS, NoMemory, Text};
use std::alloc::Global;

/// Adds a name after a `/`, where there is one.
fn add_named(text: &mut Vec<u8>, name: Option<&[u8]>) -> Result<(), NoMemory>
    ensures { OnOk result (text.new.items ≡ text.old.items ++ named_text (option_map (λ name. name.now) name.entry)) }
{
    if let Some(name) = name {
        text.extend_from_slice(b"/")?;
        text.extend_from_slice(name)?;
    }
    Ok(())
}

/// Adds what a node of the code has after its hierarchy.
fn add_code(text: &mut Vec<u8>, code: &CodeTree, node: CodePart) -> Result<(), NoMemory>
    ensures { OnOk result (text.new.items ≡ text.old.items ++ code_text code.now node) }
{
    match node {
        CodePart::All => Ok(()),
        CodePart::Module(number) => add_named(text, code.module_name(number)),
        CodePart::Procedure(number) => add_named(text, code.path(number as usize)),
    }
}

/// Adds what a node of the objects has after its hierarchy.
fn add_object(text: &mut Vec<u8>, objects: &Objects, node: Option<u32>) -> Result<(), NoMemory>
    ensures { OnOk result (text.new.items ≡ text.old.items ++ object_text objects.now node) }
{
    match node {
        None => Ok(()),
        Some(number) => add_named(text, objects.name(number as usize)),
    }
}

impl Tree {
    /// The bytes of the canonical text of a focus.
    fn canonical(&self, alloc: Global, focus: &Focus) -> Result<Vec<u8>, NoMemory>
        ensures text { IfOk result (λ text. text.items ≡ canonical self.now focus.now) }
        ensures harts { OnOk result (self.now.harts ≤ MAX_HARTS) }
    {
        let mut text = Vec::new(alloc);
        text.extend_from_slice(b"/Code")?;
        add_code(&mut text, &self.code, focus.code)?;
        text.extend_from_slice(b",/Machine")?;
        add_hart(alloc, &mut text, focus.hart)?;
        text.extend_from_slice(b",/SyncObject")?;
        add_object(&mut text, &self.objects, focus.object)?;
        Ok(text)
    }

    /// Returns the canonical text of a focus: its parts in the order `/Code`, `/Machine`, `/SyncObject`. Of a focus of the tree it
    /// is read as that focus, where the names of modules and procedures are good and no two procedures have the same
    /// module and name.
    ///
    /// # Errors
    ///
    /// `NoMemory` where memory runs out.
    pub fn focus_text(&self, alloc: Global, focus: &Focus) -> Result<Text, NoMemory>
        ensures text { IfOk result (λ text. text ≡ canonical self.now focus.now) }
        ensures read { IsNamed self.now → IsFocusOf self.now focus.now → IfOk result (λ text. IsTextOf self.now text focus.now) }
    {
        Ok(Text::from_vec(self.canonical(alloc, focus)?))
    }
}
