//! What the first pass makes of the lines.

ghost use Rattle.std.specs.Prelude.{◌≡◌, ◌≤◌, ◌<◌, ◌+◌, ◌^◌, true, IfOk, OnOk};
ghost use Rattle.rv_asm.specs.Checks.{numbers_fit};
ghost use Rattle.rv_asm.specs.FirstPass.{text_end, data_end, here, good_module, placed_after, declaring, draft_ended, draft_after_statement, blank_draft};

use crate::addresses::Labels;
use crate::layout::len;
use crate::statement::{Section, Statement};
use pn_types::{PROGRAM_MODULE, SEGMENTS_FROM, is_good_name};
use std::alloc::{AllocError, Global};
use std::marker::Model;

/// Where the text begins: at the lowest address of a segment.
pub(crate) const TEXT_START: u64 = SEGMENTS_FROM;

/// Where the data begins.
pub(crate) const DATA_START: u64 = 0x100_0000;

/// What is declared.
#[derive(Clone, Copy)]
pub(crate) enum DeclarationKind {
    /// A procedure.
    Procedure,
    /// An object, with its length in bytes.
    Object(u128),
}

/// The declaration of a procedure or an object that begins at an address.
#[derive(Clone, Copy)]
pub(crate) struct Declaration<'a> {
    pub(crate) name: &'a [u8],
    pub(crate) kind: DeclarationKind,
    pub(crate) at: u128,
    pub(crate) module: &'a [u8],
}

/// A statement, its line and its address, with the name or the string that it has.
#[derive(Clone, Copy)]
pub(crate) struct Placed<'a> {
    pub(crate) line: u32,
    pub(crate) at: u128,
    pub(crate) statement: Statement,
    pub(crate) text: &'a [u8],
}

/// What the lines so far make.
pub(crate) struct Draft<'a> {
    pub(crate) section: Section,
    /// Where the text ends.
    pub(crate) text_end: u128,
    /// Where the data ends.
    pub(crate) data_end: u128,
    /// The line of the procedure that is open.
    pub(crate) opened: Option<u32>,
    pub(crate) module: &'a [u8],
    pub(crate) labels: Labels,
    pub(crate) declarations: Vec<Declaration<'a>>,
    /// Where the procedures end.
    pub(crate) ends: Vec<u128>,
    pub(crate) text_part: Vec<Placed<'a>>,
    pub(crate) data_part: Vec<Placed<'a>>,
}

impl<'a> Model for Draft<'a> {
    ghost use Rattle.std.specs.Prelude.{map};
    ghost use Rattle.rv_asm.specs.FirstPass.{Draft};
    ghost use Rattle.rv_asm.specs.DraftSeen.{placed_seen, declaration_seen, AreEnds};

    ghost Value = { Draft };

    ghost view = { λ d. record {
      section = d.section;
      opened = d.opened;
      «module» = d.«module».now;
      labels = d.labels;
      declarations = map declaration_seen d.declarations.items;
      ends = d.ends.items;
      text_part = map placed_seen d.text_part.items;
      data_part = map placed_seen d.data_part.items;
    } };

    ghost invariant = { λ d. AreEnds d.text_end d.data_end (map placed_seen d.text_part.items) (map placed_seen d.data_part.items) };
}

// A function of its own, so that what drops it need not prove the drops of all its parts.
impl Drop for Draft<'_> {
    fn drop(self) {
        let Draft {
            section: _,
            text_end: _,
            data_end: _,
            opened: _,
            module: _,
            labels: _,
            declarations: _,
            ends: _,
            text_part: _,
            data_part: _,
        } = self;
    }
}

impl<'a> Draft<'a> {
    /// Before the first line.
    pub(crate) fn new(alloc: Global) -> Draft<'a>
        ensures { result ≡ blank_draft }
    {
        Draft {
            section: Section::Text,
            text_end: TEXT_START as u128,
            data_end: DATA_START as u128,
            opened: None,
            module: PROGRAM_MODULE,
            labels: Labels::new(alloc),
            declarations: Vec::new(alloc),
            ends: Vec::new(alloc),
            text_part: Vec::new(alloc),
            data_part: Vec::new(alloc),
        }
    }

    /// The next address of the section.
    pub(crate) fn here(&self) -> u128
        ensures { result ≡ here self.now }
    {
        if self.section.is_text() {
            self.text_end
        } else {
            self.data_end
        }
    }

    /// The statement stands at the end of its section.
    fn place(&mut self, line: u32, statement: Statement, text: &'a [u8]) -> Result<(), AllocError>
        requires fits { numbers_fit statement ≡ true }
        requires text_room { text_end self.old < 2 ^ 100 }
        requires data_room { data_end self.old < 2 ^ 100 }
        ensures value { OnOk result (self.new ≡ placed_after line self.old statement text.now) }
        ensures text_grows { OnOk result (text_end self.new ≤ text_end self.old + 2 ^ 64) }
        ensures data_grows { OnOk result (data_end self.new ≤ data_end self.old + 2 ^ 64) }
    {
        let at = self.here();
        let end = at + len(at, &statement, text);
        let placed = Placed {
            line,
            at,
            statement,
            text,
        };
        if self.section.is_text() {
            self.text_part.push(placed)?;
            self.text_end = end;
        } else {
            self.data_part.push(placed)?;
            self.data_end = end;
        }
        Ok(())
    }

    /// Declares what begins at the address.
    fn declare(&mut self, name: &'a [u8], kind: DeclarationKind, at: u128) -> Result<(), AllocError>
        ensures value { OnOk result (self.new ≡ declaring self.old name.now kind at) }
        ensures text_grows { OnOk result (text_end self.new ≤ text_end self.old + 2 ^ 64) }
        ensures data_grows { OnOk result (data_end self.new ≤ data_end self.old + 2 ^ 64) }
    {
        let module = self.module;
        self.declarations.push(Declaration {
            name,
            kind,
            at,
            module,
        })?;
        Ok(())
    }

    /// The open procedure ends here.
    fn end_procedure(&mut self) -> Result<(), AllocError>
        ensures value { OnOk result (self.new ≡ draft_ended self.old) }
        ensures text_grows { OnOk result (text_end self.new ≤ text_end self.old + 2 ^ 64) }
        ensures data_grows { OnOk result (data_end self.new ≤ data_end self.old + 2 ^ 64) }
    {
        self.ends.push(self.text_end)?;
        self.opened = None;
        Ok(())
    }

    /// What the statement adds.
    #[tactic(auto, unfolding(crate::specs::FirstPass::draft_after_statement))]
    pub(crate) fn apply(
        &mut self,
        line: u32,
        statement: Statement,
        text: &'a [u8],
    ) -> Result<(), AllocError>
        requires fits { numbers_fit statement ≡ true }
        requires text_room { text_end self.old < 2 ^ 100 }
        requires data_room { data_end self.old < 2 ^ 100 }
        ensures value { OnOk result (self.new ≡ draft_after_statement line self.old statement text.now) }
        ensures text_grows { OnOk result (text_end self.new ≤ text_end self.old + 2 ^ 64) }
        ensures data_grows { OnOk result (data_end self.new ≤ data_end self.old + 2 ^ 64) }
    {
        match statement {
            Statement::Empty => Ok(()),
            Statement::Text => {
                self.section = Section::Text;
                Ok(())
            }
            Statement::Data => {
                self.section = Section::Data;
                Ok(())
            }
            Statement::Procedure => {
                self.declare(text, DeclarationKind::Procedure, self.text_end)?;
                self.opened = Some(line);
                Ok(())
            }
            Statement::End => self.end_procedure(),
            Statement::Object(size) => self.declare(
                text,
                DeclarationKind::Object(size.size),
                self.data_end,
            ),
            Statement::Module => {
                self.module = good_module(text);
                Ok(())
            }
            _ => self.place(line, statement, text),
        }
    }
}

/// The module of this name, and `program` where the name isn't good.
fn good_module(name: &[u8]) -> &[u8]
    ensures { result.now ≡ good_module name.now }
{
    if is_good_name(name) {
        name
    } else {
        PROGRAM_MODULE
    }
}
