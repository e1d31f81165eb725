//! The instrumentation points of procedures.

ghost use Rattle.std.specs.Prelude.{◌≡◌, ◌+◌, ◌/◌, ◌<◌, ◌≤◌, ◌^◌, ◌++◌, OnOk, IfOk, length, map};
ghost use Rattle.std.specs.List.Sorted.{IsStrictlyIncreasing};
ghost use Rattle.pn_types.specs.Images.{IsImage};
ghost use Rattle.rv_word.specs.Names.{is_return_of};
ghost use Rattle.rv_word.specs.Plain.{words_from};
ghost use Rattle.code_points.specs.Points.{instr_at, calls_at, point_at, has_kind, points_in, points_of};
ghost use Rattle.code_points.specs.Procedures.{AreProcsOf};

use crate::text::word;
use pn_types::{Image, NoMemory, Point, Proc};
use rv_word::{is_call, is_return};
use std::alloc::Global;

/// Whether a word that calls is at the address.
fn calls_at(text: &[u8], text_at: u64, at: u64) -> bool
    ensures { result ≡ calls_at (words_from text_at text.now) at }
{
    match word(text, text_at, at) {
        Some(word) => is_call(word),
        None => false,
    }
}

/// Whether a word that leaves the procedure is at the address.
fn returns_at(text: &[u8], text_at: u64, at: u64, proc: &Proc) -> bool
    ensures { result ≡ is_return_of (instr_at (words_from text_at text.now) at) at proc.now.start proc.now.len }
{
    match word(text, text_at, at) {
        Some(word) => is_return(word, at, proc.start, proc.len),
        None => false,
    }
}

/// The kinds of an address of a procedure.
fn point_at(text: &[u8], text_at: u64, proc_no: u32, proc: &Proc, at: u64) -> Point
    requires { proc.now.start < at → 4 ≤ at }
    ensures { result ≡ point_at (words_from text_at text.now) proc_no proc.now at }
{
    Point {
        at,
        proc_no,
        entry: at == proc.start,
        after: proc.start < at && calls_at(text, text_at, at - 4),
        ret: returns_at(text, text_at, at, proc),
        call: calls_at(text, text_at, at),
    }
}

/// Whether one of the kinds holds.
fn has_kind(point: &Point) -> bool
    ensures { result ≡ has_kind point.now }
{
    point.entry || point.after || point.ret || point.call
}

/// Adds the points of one procedure.
fn add_points(
    points: &mut Vec<Point>,
    text: &[u8],
    text_at: u64,
    proc_no: u32,
    proc: &Proc,
) -> Result<(), NoMemory>
    requires end { proc.now.start + proc.now.len < 2 ^ 64 }
    ensures { OnOk result (points.new.items ≡ points.old.items ++ points_in (words_from text_at text.now) proc_no proc.now) }
{
    for number in 0..proc.len / 4 {
        let point = point_at(text, text_at, proc_no, proc, proc.start + 4 * number);
        if has_kind(&point) {
            points.push(point)?;
        }
    }
    Ok(())
}

/// Returns the points of an image's procedures, by ascending address. An address of a procedure is a point where it is the
/// first, its word leaves the procedure or calls, or the word before it is the procedure's too and calls. The number
/// of a point's procedure is its place among these procedures.
///
/// # Errors
///
/// `NoMemory` where memory runs out.
#[tactic(auto, using(crate::proofs::NamedProcs::text_below))]
pub fn points(alloc: Global, image: &Image, procs: &[Proc]) -> Result<Vec<Point>, NoMemory>
    requires image { IsImage image.now }
    requires procs { AreProcsOf image.now procs.now }
    ensures points { IfOk result (λ points. points.items ≡ points_of image.now procs.now) }
    ensures ascending { IfOk result (λ points. IsStrictlyIncreasing (map (λ q. q.at) points.items)) }
    ensures few { IfOk result (λ points. length points.items ≤ image.now.text_len / 4) }
{
    let text = image.text_bytes();
    let mut points = Vec::new(alloc);
    for (number, proc) in procs.iter().enumerate() {
        add_points(&mut points, text, image.text_at, number as u32, proc)?;
    }
    Ok(points)
}
