//! The canonical text of insertions and blocks.

ghost use Rattle.std.specs.Prelude.{◌≡◌, ◌++◌, ◌+◌, ◌<◌, ◌^◌, map, OnOk};
ghost use Rattle.std.specs.List.{flat_map};
ghost use Rattle.mdl_parse.specs.Grammar.{names_words, event_name, insertion_head, set_words, block_head};
ghost use Rattle.mdl_parse.specs.PrintParts.{others_words};
ghost use Rattle.mdl_parse.specs.Printing.{line_text, insertion_line, block_lines};

use crate::line::{Line, add_close, one_of};
use crate::print_statements::add_statements;
use crate::seen::Seen::{DollarAll, DollarFocus, Name, Sign};
use mdl_ast::{Block, EventKind, Insertion, Set};
use pn_text::Sign::{CloseBracket, CloseCode, Comma, OpenBrace, OpenBracket, OpenCode};
use pn_types::{NoMemory, Text};
use std::alloc::Global;

/// Adds names, each after a comma.
fn add_others<'a>(line: &mut Line<'a>, names: &'a [Text]) -> Result<(), NoMemory>
    ensures { OnOk result (line.new ≡ line.old ++ flat_map others_words names.now) }
{
    for name in names {
        line.add(&[Sign(Comma), Name(name.bytes())])?;
    }
    Ok(())
}

/// Adds names between commas.
pub(crate) fn add_names<'a>(line: &mut Line<'a>, names: &'a [Text]) -> Result<(), NoMemory>
    ensures { OnOk result (line.new ≡ line.old ++ names_words names.now) }
{
    match names.split_first() {
        Some((first, others)) => {
            line.add(&[Name(first.bytes())])?;
            add_others(line, others)
        }
        None => Ok(()),
    }
}

/// Adds a set of procedures.
fn add_set<'a>(line: &mut Line<'a>, set: &'a Set) -> Result<(), NoMemory>
    ensures { OnOk result (line.new ≡ line.old ++ set_words set.now) }
{
    match set {
        Set::Focus => line.add(&[DollarFocus]),
        Set::All => line.add(&[DollarAll]),
        Set::Names(names) => {
            line.add(&[Sign(OpenBracket)])?;
            add_names(line, names.as_slice())?;
            line.add(&[Sign(CloseBracket)])
        }
    }
}

/// The name of a kind of points.
fn event_name(kind: EventKind) -> &'static [u8]
    ensures { result.now ≡ event_name kind }
{
    match kind {
        EventKind::Entry => b"entry",
        EventKind::After => b"after",
        EventKind::Return => b"return",
        EventKind::Call => b"call",
    }
}

/// Adds how an insertion begins.
fn add_insertion_head<'a>(line: &mut Line<'a>, insertion: &Insertion) -> Result<(), NoMemory>
    ensures { OnOk result (line.new ≡ line.old ++ insertion_head insertion.now) }
{
    let place = one_of(insertion.prepend, b"prepend", b"append");
    let kind = event_name(insertion.kind);
    if insertion.constrained {
        line.add(&[
            Name(place),
            Name(kind),
            Name(b"constrained"),
            Sign(OpenCode),
        ])
    } else {
        line.add(&[Name(place), Name(kind), Sign(OpenCode)])
    }
}

/// Adds the line of an insertion.
fn add_insertion(
    alloc: Global,
    out: &mut Vec<u8>,
    level: usize,
    insertion: &Insertion,
) -> Result<(), NoMemory>
    ensures { OnOk result (out.new.items ≡ out.old.items ++ line_text (insertion_line level insertion.now)) }
{
    let mut line = Line::new(alloc);
    add_insertion_head(&mut line, insertion)?;
    add_statements(&mut line, insertion.stmts.as_slice())?;
    line.add(&[Sign(CloseCode)])?;
    line.write(alloc, out, level)
}

/// Adds the lines of insertions.
fn add_insertions(
    alloc: Global,
    out: &mut Vec<u8>,
    level: usize,
    insertions: &[Insertion],
) -> Result<(), NoMemory>
    ensures { OnOk result (out.new.items ≡ out.old.items ++ flat_map line_text (map (insertion_line level) insertions.now)) }
{
    for insertion in insertions {
        add_insertion(alloc, out, level, insertion)?;
    }
    Ok(())
}

/// Adds the line with which a block begins.
fn add_block_head(
    alloc: Global,
    out: &mut Vec<u8>,
    level: usize,
    block: &Block,
) -> Result<(), NoMemory>
    ensures { OnOk result (out.new.items ≡ out.old.items ++ line_text (level, block_head block.now)) }
{
    let mut line = Line::new(alloc);
    line.add(&[Name(b"foreach"), Name(b"func"), Name(b"in")])?;
    add_set(&mut line, &block.set)?;
    line.add(&[Sign(OpenBrace)])?;
    line.write(alloc, out, level)
}

/// Adds the lines of a block.
#[tactic(auto, using(crate::proofs::LineTexts::lines_text))]
fn add_block(alloc: Global, out: &mut Vec<u8>, level: usize, block: &Block) -> Result<(), NoMemory>
    requires { level + 1 < 2 ^ 64 }
    ensures { OnOk result (out.new.items ≡ out.old.items ++ flat_map line_text (block_lines level block.now)) }
{
    add_block_head(alloc, out, level, block)?;
    add_insertions(alloc, out, level + 1, block.insertions.as_slice())?;
    add_close(alloc, out, level)
}

/// Adds the lines of blocks.
#[tactic(auto, using(crate::proofs::LineTexts::lines_text))]
pub(crate) fn add_blocks(
    alloc: Global,
    out: &mut Vec<u8>,
    level: usize,
    blocks: &[Block],
) -> Result<(), NoMemory>
    requires { level + 1 < 2 ^ 64 }
    ensures { OnOk result (out.new.items ≡ out.old.items ++ flat_map line_text (flat_map (block_lines level) blocks.now)) }
{
    for block in blocks {
        add_block(alloc, out, level, block)?;
    }
    Ok(())
}
