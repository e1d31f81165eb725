//! What the lines of a profile say.

ghost use Rattle.std.specs.Prelude.{◌≡◌, ◌+◌, ◌<◌, ◌≤◌, IfOk, IfSome, drop, length, map, position};
ghost use Rattle.profile_reader.specs.Lines.{harts_of, is_slash, module_len, procedure_of_line};
ghost use Rattle.profile_reader.specs.Reading.{profile_of_lines};

use crate::line_kinds::{first_with, lines_with, other_lines};
use crate::profile::{ReadProcedure, ReadProfile};
use advice::{number_at, word_at};
use pn_types::{NoMemory, Proc, Seq, Text};
use report::HartPart;
use report_lines::{address_at, hart_of_line};
use std::alloc::Global;

/// How many harts there may be.
const MOST_HARTS: usize = 32;

/// Returns where the first slash stands.
fn first_slash(path: &[u8]) -> Option<usize>
    ensures number { result ≡ position is_slash path.now }
    ensures range { IfSome result (λ place. place < length path.now) }
{
    path.iter().position(|byte| *byte == b'/')
}

/// Returns where the name of a module ends.
fn module_len(path: &[u8]) -> usize
    ensures number { result ≡ module_len path.now }
    ensures range { result ≤ length path.now }
{
    first_slash(path).unwrap_or(path.len())
}

/// Returns what stands behind so many bytes and one more.
fn behind(path: &[u8], count: usize) -> &[u8]
    ensures { result.now ≡ drop (count + 1) path.now }
{
    if count < path.len() {
        &path[count + 1..]
    } else {
        &[]
    }
}

/// Returns a text of these bytes.
fn text(alloc: Global, bytes: &[u8]) -> Result<Text, NoMemory>
    ensures { IfOk result (λ text. text ≡ bytes.now) }
{
    Ok(Text::from_vec(Vec::from_slice(alloc, bytes)?))
}

/// Returns the procedure that a line tells. What the line doesn't say is empty or 0.
fn procedure_of_line(alloc: Global, line: &[u8]) -> Result<ReadProcedure, NoMemory>
    ensures { IfOk result (λ procedure. procedure ≡ procedure_of_line line.now) }
{
    let path = word_at(1, line);
    let end = module_len(path);
    Ok(ReadProcedure {
        proc: Proc {
            name: text(alloc, behind(path, end))?,
            module: text(alloc, &path[..end])?,
            start: address_at(3, line),
            len: number_at(5, line).wrapping_mul(4),
        },
        entered: number_at(7, line),
        ticks: number_at(9, line),
    })
}

/// Returns the harts that lines tell, of which the first 32 count.
fn harts(alloc: Global, lines: &[&[u8]]) -> Result<Vec<HartPart>, NoMemory>
    ensures parts { IfOk result (λ parts. parts.items ≡ harts_of (map (λ line. line.now) lines.now)) }
    ensures few { IfOk result (λ parts. length parts.items ≤ 32) }
{
    let mut parts = Vec::new(alloc);
    for line in lines {
        if parts.len() == MOST_HARTS {
            return Ok(parts);
        }
        parts.push(hart_of_line(line))?;
    }
    Ok(parts)
}

/// Returns the procedures that lines tell.
fn procedures(alloc: Global, lines: &[&[u8]]) -> Result<Vec<ReadProcedure>, NoMemory>
    ensures { IfOk result (λ procedures. procedures.items ≡ map procedure_of_line (map (λ line. line.now) lines.now)) }
{
    let mut procedures = Vec::new(alloc);
    for line in lines {
        procedures.push(procedure_of_line(alloc, line)?)?;
    }
    Ok(procedures)
}

/// Returns the profile that lines tell.
#[tactic(auto, unfolding(crate::specs::Reading::profile_of_lines))]
pub(crate) fn profile_of_lines(alloc: Global, lines: &[&[u8]]) -> Result<ReadProfile, NoMemory>
    ensures profile { IfOk result (λ profile. profile ≡ profile_of_lines (map (λ line. line.now) lines.now)) }
    ensures few { IfOk result (λ profile. length profile.harts ≤ 32) }
{
    let run = first_with(b"profile ", lines);
    let rest = first_with(b"rest ", lines);
    let harts = harts(alloc, &lines_with(alloc, b"hart ", lines)?)?;
    let procedures = procedures(alloc, &lines_with(alloc, b"procedure ", lines)?)?;
    Ok(ReadProfile {
        ticks: number_at(4, run),
        untold: number_at(6, run),
        outside: number_at(8, run),
        harts: Seq::from_vec(harts),
        procedures: Seq::from_vec(procedures),
        rest_words: number_at(2, rest),
        rest_ticks: number_at(4, rest),
        others: Text::from_vec(other_lines(alloc, lines)?),
    })
}
