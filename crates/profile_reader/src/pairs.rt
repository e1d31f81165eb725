//! A profile as the parts of a report.

ghost use Rattle.std.specs.Prelude.{◌≡◌, ◌++◌, IfOk, OnOk, flat_map};
ghost use Rattle.profile_reader.specs.Pairs.{pair, procedure_pairs, profile_parts, run_pairs};

use crate::profile::{ReadProcedure, ReadProfile};
use fold_hist::Bin;
use pair_wishes::procedure_node;
use pn_types::{NoMemory, Seq, Text};
use report::{ReportParts, ShownPart};
use std::alloc::Global;

/// Returns a text of these bytes.
fn text(alloc: Global, bytes: &[u8]) -> Result<Text, NoMemory>
    ensures { IfOk result (λ text. text ≡ bytes.now) }
{
    Ok(Text::from_vec(Vec::from_slice(alloc, bytes)?))
}

/// Returns a number as the only bin of what was shown under a name at a focus.
fn pair(alloc: Global, name: &[u8], focus: Text, number: u64) -> Result<ShownPart, NoMemory>
    ensures { IfOk result (λ part. part ≡ pair name.now focus number) }
{
    let mut bins = Vec::new(alloc);
    bins.push(Bin {
        from: 0,
        to: 0,
        sum: number,
    })?;
    Ok(ShownPart {
        metric: text(alloc, name)?,
        focus,
        units: Text::from_vec(Vec::new(alloc)),
        from: None,
        width: 1,
        bins: Seq::from_vec(bins),
    })
}

/// Adds the pairs of a procedure.
fn add_procedure(
    alloc: Global,
    pairs: &mut Vec<ShownPart>,
    procedure: &ReadProcedure,
) -> Result<(), NoMemory>
    ensures { OnOk result (pairs.new.items ≡ pairs.old.items ++ procedure_pairs procedure.now) }
{
    let node = procedure_node(alloc, &procedure.proc)?;
    pairs.push(pair(alloc, b"ticks", node, procedure.ticks)?)?;
    let node = procedure_node(alloc, &procedure.proc)?;
    pairs.push(pair(alloc, b"entered", node, procedure.entered)?)?;
    Ok(())
}

/// Adds the pairs of procedures.
fn add_procedures(
    alloc: Global,
    pairs: &mut Vec<ShownPart>,
    procedures: &[ReadProcedure],
) -> Result<(), NoMemory>
    ensures { OnOk result (pairs.new.items ≡ pairs.old.items ++ flat_map procedure_pairs procedures.now) }
{
    for procedure in procedures {
        add_procedure(alloc, pairs, procedure)?;
    }
    Ok(())
}

/// Returns what no number tells, what was outside of the text, and the words that no procedure has.
fn run_pairs(alloc: Global, profile: &ReadProfile) -> Result<Vec<ShownPart>, NoMemory>
    ensures { IfOk result (λ pairs. pairs.items ≡ run_pairs profile.now) }
{
    let mut pairs = Vec::new(alloc);
    let all = text(alloc, b"/Code")?;
    pairs.push(pair(alloc, b"untold", all, profile.untold)?)?;
    let all = text(alloc, b"/Code")?;
    pairs.push(pair(alloc, b"outside", all, profile.outside)?)?;
    let none = text(alloc, b"/Code/-")?;
    pairs.push(pair(alloc, b"ticks", none, profile.rest_ticks)?)?;
    Ok(pairs)
}

/// Returns a profile as the parts of a report: its harts, and of each procedure how many ticks it took and how often it was entered.
///
/// # Errors
///
/// `NoMemory` where memory runs out.
pub fn profile_parts(alloc: Global, profile: ReadProfile) -> Result<ReportParts, NoMemory>
    ensures { IfOk result (λ parts. parts ≡ profile_parts profile) }
{
    let mut shown = run_pairs(alloc, &profile)?;
    add_procedures(alloc, &mut shown, profile.procedures.as_slice())?;
    Ok(ReportParts {
        harts: profile.harts,
        samples: 0,
        output: Text::from_vec(Vec::new(alloc)),
        refused: Seq::from_vec(Vec::new(alloc)),
        shown: Seq::from_vec(shown),
        search: None,
    })
}
