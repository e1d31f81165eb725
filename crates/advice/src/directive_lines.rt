//! The lines of directives.

ghost use Rattle.std.specs.Prelude.{◌≡◌, ◌++◌, IfOk, OnOk, flat_map};
ghost use Rattle.std.specs.List.{All};
ghost use Rattle.advice.specs.Advice.{HasTicks};
ghost use Rattle.advice.specs.Directives.{advice, prune_line, threshold_line, first_line, directive};

use crate::hypothesis::{Hypothesis, hypotheses_of};
use crate::verdict::Verdict;
use pn_types::{NoMemory, Text};
use std::alloc::Global;

/// Adds the line of a directive that only names a hypothesis.
fn add_directive(out: &mut Vec<u8>, word: &[u8], name: &Text) -> Result<(), NoMemory>
    ensures { OnOk result (out.new.items ≡ out.old.items ++ directive word.now name.now) }
{
    out.extend_from_slice(word)?;
    out.extend_from_slice(name.bytes())?;
    out.extend_from_slice(b";\n")
}

/// Prunes a hypothesis that never was true.
fn add_prune(out: &mut Vec<u8>, one: &Hypothesis) -> Result<(), NoMemory>
    ensures { OnOk result (out.new.items ≡ out.old.items ++ prune_line one.now) }
{
    match one.threshold {
        None => add_directive(out, b"prune ", &one.name),
        Some(_) => Ok(()),
    }
}

/// Sets the threshold of a hypothesis that was true.
fn add_threshold(alloc: Global, out: &mut Vec<u8>, one: &Hypothesis) -> Result<(), NoMemory>
    ensures { OnOk result (out.new.items ≡ out.old.items ++ threshold_line one.now) }
{
    let Some(threshold) = one.threshold else {
        return Ok(());
    };
    out.extend_from_slice(b"threshold ")?;
    out.extend_from_slice(one.name.bytes())?;
    let rest = format!(in alloc; " {threshold};\n")?;
    out.extend_from_slice(rest.as_bytes())
}

/// Puts a hypothesis that was true first.
fn add_first(out: &mut Vec<u8>, one: &Hypothesis) -> Result<(), NoMemory>
    ensures { OnOk result (out.new.items ≡ out.old.items ++ first_line one.now) }
{
    match one.threshold {
        None => Ok(()),
        Some(_) => add_directive(out, b"first ", &one.name),
    }
}

/// All prunes.
fn add_prunes(out: &mut Vec<u8>, hypotheses: &[Hypothesis]) -> Result<(), NoMemory>
    ensures { OnOk result (out.new.items ≡ out.old.items ++ flat_map prune_line hypotheses.now) }
{
    for one in hypotheses {
        add_prune(out, one)?;
    }
    Ok(())
}

/// All thresholds.
fn add_thresholds(
    alloc: Global,
    out: &mut Vec<u8>,
    hypotheses: &[Hypothesis],
) -> Result<(), NoMemory>
    ensures { OnOk result (out.new.items ≡ out.old.items ++ flat_map threshold_line hypotheses.now) }
{
    for one in hypotheses {
        add_threshold(alloc, out, one)?;
    }
    Ok(())
}

/// All firsts.
fn add_firsts(out: &mut Vec<u8>, hypotheses: &[Hypothesis]) -> Result<(), NoMemory>
    ensures { OnOk result (out.new.items ≡ out.old.items ++ flat_map first_line hypotheses.now) }
{
    for one in hypotheses {
        add_first(out, one)?;
    }
    Ok(())
}

/// Returns the directives that earlier verdicts advise, as a text of one directive a line: hypotheses that never were true are
/// pruned, and each other one gets the greatest threshold that keeps its true verdicts true, and goes first.
///
/// # Errors
///
/// `NoMemory` where memory runs out.
pub fn advise(alloc: Global, verdicts: &[Verdict]) -> Result<Vec<u8>, NoMemory>
    requires { All HasTicks verdicts.now }
    ensures { IfOk result (λ text. text.items ≡ advice verdicts.now) }
{
    let mut hypotheses = hypotheses_of(alloc, verdicts)?;
    let mut out = Vec::new(alloc);
    add_prunes(&mut out, hypotheses.as_slice())?;
    add_thresholds(alloc, &mut out, hypotheses.as_slice())?;
    // Each goes before those that went first so far.
    hypotheses.reverse();
    add_firsts(&mut out, hypotheses.as_slice())?;
    Ok(out)
}
