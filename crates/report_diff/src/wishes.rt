//! Wishes that were refused.

ghost use Rattle.std.specs.Prelude.{◌≡◌, ◌++◌, IfOk, OnOk};
ghost use Rattle.report.specs.ShownTexts.{pair_text};
ghost use Rattle.report_diff.specs.Matches.{alone_text};
ghost use Rattle.report_diff.specs.Wishes.{lone_wish, lone_wishes, wish_names, wish_word, wishes_diff};

use crate::labels::{add_label, add_pair};
use crate::matches::{Match, matches_of};
use crate::pieces::add_only_in;
use pn_types::{NoMemory, Text};
use report::RefusedPart;
use std::alloc::Global;

/// Returns the word for what was wished.
fn wish_word(show: bool) -> &'static [u8]
    ensures { result.now ≡ wish_word show }
{
    if show { b"show " } else { b"drop " }
}

/// Returns the name by which a wish is matched.
fn wish_name(alloc: Global, part: &RefusedPart) -> Result<Text, NoMemory>
    ensures { IfOk result (λ name. name ≡ wish_word part.now.show ++ pair_text part.now.metric part.now.focus) }
{
    let mut name = Vec::from_slice(alloc, wish_word(part.show))?;
    add_pair(&mut name, &part.metric, &part.focus)?;
    Ok(Text::from_vec(name))
}

/// Returns the names of wishes.
fn wish_names(alloc: Global, parts: &[RefusedPart]) -> Result<Vec<Text>, NoMemory>
    ensures { IfOk result (λ names. names.items ≡ wish_names parts.now) }
{
    let mut names = Vec::new(alloc);
    for part in parts {
        names.push(wish_name(alloc, part)?)?;
    }
    Ok(names)
}

/// Adds a wish that was refused in one report alone.
#[tactic(auto, unfolding(crate::specs::Wishes::lone_wish))]
fn add_lone_wish(
    alloc: Global,
    out: &mut Vec<u8>,
    report: &[u8],
    part: &RefusedPart,
) -> Result<(), NoMemory>
    ensures { OnOk result (out.new.items ≡ out.old.items ++ lone_wish report.now part.now) }
{
    add_only_in(out, report)?;
    out.extend_from_slice(b"refused ")?;
    out.extend_from_slice(wish_word(part.show))?;
    add_label(alloc, out, &part.metric, &part.focus)?;
    out.extend_from_slice(b"\n")
}

/// Adds the wish of a match, where it has no other.
fn add_if_alone(
    alloc: Global,
    out: &mut Vec<u8>,
    report: &[u8],
    parts: &[RefusedPart],
    found: &Match,
) -> Result<(), NoMemory>
    ensures { OnOk result (out.new.items ≡ out.old.items ++ alone_text (lone_wish report.now) parts.now found.now) }
{
    if found.other.is_some() {
        return Ok(());
    }
    match parts.get(found.place) {
        Some(part) => add_lone_wish(alloc, out, report, part),
        None => Ok(()),
    }
}

/// Adds the wishes that were refused in one report alone.
fn add_lone_wishes(
    alloc: Global,
    out: &mut Vec<u8>,
    report: &[u8],
    parts: &[RefusedPart],
    matches: &[Match],
) -> Result<(), NoMemory>
    ensures { OnOk result (out.new.items ≡ out.old.items ++ lone_wishes report.now parts.now matches.now) }
{
    for found in matches {
        add_if_alone(alloc, out, report, parts, found)?;
    }
    Ok(())
}

/// Adds what differs between the wishes that were refused.
///
/// # Errors
///
/// `NoMemory` where memory runs out.
#[tactic(auto, unfolding(crate::specs::Wishes::wishes_diff))]
pub fn add_wishes_diff(
    alloc: Global,
    out: &mut Vec<u8>,
    olds: &[RefusedPart],
    news: &[RefusedPart],
) -> Result<(), NoMemory>
    ensures { OnOk result (out.new.items ≡ out.old.items ++ wishes_diff olds.now news.now) }
{
    let names = wish_names(alloc, olds)?;
    let others = wish_names(alloc, news)?;
    let matches = matches_of(alloc, &names, &others)?;
    let back = matches_of(alloc, &others, &names)?;
    add_lone_wishes(alloc, out, b"OLD", olds, &matches)?;
    add_lone_wishes(alloc, out, b"NEW", news, &back)
}
