//! The first pass: the lines in order, each with its place, and the first that is faulty.

ghost use Rattle.std.specs.Prelude.{◌≡◌, ◌≤◌, ◌<◌, ◌+◌, ◌^◌, true, IfOk, OnOk, map, length};
ghost use Rattle.pn_text.specs.Lines.{lines};
ghost use Rattle.rv_asm.specs.Checks.{numbers_fit};
ghost use Rattle.rv_asm.specs.FirstPass.{judged_line, define, define_all, define_own, stepped, draft_after_lines, blank_draft, text_end, data_end};
ghost use Rattle.rv_asm.specs.Seen.{IsSeenAs, Leaves, line_seen};

use crate::addresses::Labels;
use crate::checks::{has_x31, numbers_fit, stands};
use crate::draft::Draft;
use crate::fault::{AsmError, AsmFault};
use crate::line::{ParsedLine, parse};
use crate::statement::{Section, Statement};
use pn_text::next_line;
use std::alloc::Global;

/// The line with this number, if it has a form, stands there, its numbers fit and it doesn't name x31.
#[tactic(auto, unfolding(crate::specs::FirstPass::judged_line))]
fn judged<'a>(
    alloc: Global,
    line: u32,
    section: Section,
    inside: bool,
    bytes: &'a [u8],
) -> Result<ParsedLine<'a>, AsmError>
    ensures value { IsSeenAs line_seen result (judged_line line section inside bytes.now) }
    ensures fits { IfOk result (λ parsed. numbers_fit parsed.statement ≡ true) }
{
    let Some(parsed) = parse(alloc, bytes)? else {
        return Err(AsmFault::BadLine(line).into());
    };
    if !stands(section, inside, &parsed.statement) {
        return Err(AsmFault::BadLine(line).into());
    }
    if !numbers_fit(&parsed.statement) {
        return Err(AsmFault::BadNumber(line).into());
    }
    if has_x31(section, &parsed.statement) {
        return Err(AsmFault::UsesScratch(line).into());
    }
    Ok(parsed)
}

/// Defines a name that is new.
fn define(
    alloc: Global,
    labels: &mut Labels,
    line: u32,
    at: u128,
    name: &[u8],
) -> Result<(), AsmError>
    ensures { Leaves labels.new result (define line at name.now labels.old) }
{
    if labels.define(alloc, name, at)? {
        return Err(AsmFault::TwiceNamed(line).into());
    }
    Ok(())
}

/// Defines these names, each of which is new.
fn define_all(
    alloc: Global,
    labels: &mut Labels,
    line: u32,
    at: u128,
    names: &[&[u8]],
) -> Result<(), AsmError>
    ensures { Leaves labels.new result (define_all line at (map (λ name. name.now) names.now) labels.old) }
{
    for name in names {
        define(alloc, labels, line, at, *name)?;
    }
    Ok(())
}

/// Defines the name of a procedure or an object.
fn define_own(
    alloc: Global,
    labels: &mut Labels,
    line: u32,
    at: u128,
    statement: &Statement,
    name: &[u8],
) -> Result<(), AsmError>
    ensures { Leaves labels.new result (define_own line at statement.now name.now labels.old) }
{
    match *statement {
        Statement::Procedure | Statement::Object(_) => define(alloc, labels, line, at, name),
        _ => Ok(()),
    }
}

impl<'a> Draft<'a> {
    /// Adds the line with this number.
    #[tactic(auto, unfolding(crate::specs::FirstPass::stepped))]
    fn step(&mut self, alloc: Global, line: u32, bytes: &'a [u8]) -> Result<(), AsmError>
        requires text_room { text_end self.old < 2 ^ 100 }
        requires data_room { data_end self.old < 2 ^ 100 }
        ensures value { Leaves self.new result (stepped line self.old bytes.now) }
        ensures text_grows { OnOk result (text_end self.new ≤ text_end self.old + 2 ^ 64) }
        ensures data_grows { OnOk result (data_end self.new ≤ data_end self.old + 2 ^ 64) }
    {
        let parsed = judged(alloc, line, self.section, self.opened.is_some(), bytes)?;
        let at = self.here();
        define_all(alloc, &mut self.labels, line, at, parsed.labels.as_slice())?;
        define_own(
            alloc,
            &mut self.labels,
            line,
            at,
            &parsed.statement,
            parsed.text,
        )?;
        self.apply(line, parsed.statement, parsed.text)?;
        Ok(())
    }
}

/// What the lines of the text make, or the fault of the first that is faulty.
pub(crate) fn pass<'a>(alloc: Global, text: &'a [u8]) -> Result<Draft<'a>, AsmError>
    requires { length text.now < 2 ^ 31 }
    ensures { IsSeenAs (λ draft. draft) result (draft_after_lines 1 blank_draft (lines text.now)) }
{
    let mut draft = Draft::new(alloc);
    let mut rest = text;
    let mut line = 0u32;
    'lines: while let Some((bytes, behind)) = next_line(rest) {
        line += 1;
        draft.step(alloc, line, bytes)?;
        rest = behind;
    }
    Ok(draft)
}
