//! The command `diff`.

ghost use Rattle.std.specs.Prelude.{◌≡◌, ◌<◌, ◌^◌, IfOk, sum_by};
ghost use Rattle.command_words.specs.Asked.{asked_diff};
ghost use Rattle.commands.specs.Differing.{IsComparedFile, IsDiffDue, are_alike, begins_profile, compared_file, diff_of, compared_profile, compared_report};
ghost use Rattle.commands.specs.FileReadings.{reads, Looks};
ghost use Rattle.commands.specs.Sides.{bad_side};
ghost use Rattle.profile_reader.specs.Reading.{profile_in};
ghost use Rattle.refusals.specs.Refusals.{Comes};
ghost use Rattle.report_reader.specs.Reading.{report_in};

use crate::advising::REPORT_LIMIT;
use crate::files::read_file;
use crate::texts::Texts;
use advice::{ReportError, ReportFault};
use command_words::DiffRequest;
use outside::Files;
use profile_reader::{profile_parts, read_profile};
use refusals::{Fault, Refusal};
use report::ReportParts;
use report_diff::diff_text;
use report_reader::read_report;
use std::alloc::Global;

/// Which of two files.
#[derive(Clone, Copy, Drop)]
enum Side {
    /// The one of before.
    Old,
    /// The one of after.
    New,
}

/// What is compared of a file.
#[derive(Drop)]
pub struct ComparedFile {
    /// It is a profile, and not a report.
    pub is_profile: bool,
    /// What it says, a profile as the parts of a report.
    pub parts: ReportParts,
}

/// Returns the fault of a file that has none up to a place.
fn bad_report(side: Side, place: u64) -> Fault
    ensures { result ≡ bad_side side place }
{
    match side {
        Side::Old => Fault::BadReport(place),
        Side::New => Fault::BadNewReport(place),
    }
}

/// Returns what is compared of the report that bytes are.
fn compared_report(alloc: Global, side: Side, bytes: &[u8]) -> Result<ComparedFile, Refusal>
    ensures compared { Comes result (λ compared. compared ≡ compared_report (bad_side side) (report_in bytes.now)) }
    ensures ticks { IfOk result (λ compared. sum_by (λ part. part.ticks) compared.parts.harts < 2 ^ 64) }
{
    match read_report(alloc, bytes) {
        Ok(report) => Ok(ComparedFile {
            is_profile: false,
            parts: report.parts,
        }),
        Err(ReportError::Fault(ReportFault::BadReport(place))) => {
            Err(Refusal::Fault(bad_report(side, place)))
        }
        Err(ReportError::NoMemory) => Err(Refusal::NoMemory),
    }
}

/// Returns what is compared of the profile that bytes are.
fn compared_profile(alloc: Global, side: Side, bytes: &[u8]) -> Result<ComparedFile, Refusal>
    ensures compared { Comes result (λ compared. compared ≡ compared_profile (bad_side side) (profile_in bytes.now)) }
    ensures ticks { IfOk result (λ compared. sum_by (λ part. part.ticks) compared.parts.harts < 2 ^ 64) }
{
    match read_profile(alloc, bytes) {
        Ok(profile) => Ok(ComparedFile {
            is_profile: true,
            parts: profile_parts(alloc, profile)?,
        }),
        Err(ReportError::Fault(ReportFault::BadReport(place))) => {
            Err(Refusal::Fault(bad_report(side, place)))
        }
        Err(ReportError::NoMemory) => Err(Refusal::NoMemory),
    }
}

/// Returns whether bytes are a profile's, and not a report's.
fn begins_profile(bytes: &[u8]) -> bool
    ensures { result ≡ begins_profile bytes.now }
{
    bytes.starts_with(b"profile ")
}

/// Returns what is compared of the report or the profile that bytes are.
fn compared_file(alloc: Global, side: Side, bytes: &[u8]) -> Result<ComparedFile, Refusal>
    ensures compared { Comes result (λ compared. compared ≡ compared_file (bad_side side) bytes.now) }
    ensures ticks { IfOk result (λ compared. sum_by (λ part. part.ticks) compared.parts.harts < 2 ^ 64) }
{
    if begins_profile(bytes) {
        compared_profile(alloc, side, bytes)
    } else {
        compared_report(alloc, side, bytes)
    }
}

/// Reads a report or a profile.
fn read_side<F: Files>(
    alloc: Global,
    files: &mut F,
    name: &str,
    side: Side,
) -> Result<ComparedFile, Refusal>
    ensures compared { Comes result (IsComparedFile (bad_side side) (reads (F.holds files.old) (F.faults files.old) (F.faults files.new)) name.now) }
    ensures ticks { IfOk result (λ compared. sum_by (λ part. part.ticks) compared.parts.harts < 2 ^ 64) }
    ensures looks { Looks F.holds F.faults files.old files.new result }
{
    let too_long = bad_report(side, REPORT_LIMIT);
    let bytes = read_file(alloc, files, name, REPORT_LIMIT, too_long)?;
    compared_file(alloc, side, bytes.as_slice())
}

/// Returns whether both are profiles, or both are reports.
fn are_alike(old: &ComparedFile, new: &ComparedFile) -> bool
    ensures { result ≡ are_alike old.now new.now }
{
    if old.is_profile {
        new.is_profile
    } else {
        !new.is_profile
    }
}

/// Returns what differs.
fn diff_of(alloc: Global, old: &ComparedFile, new: &ComparedFile) -> Result<Texts, Refusal>
    requires old { sum_by (λ part. part.ticks) old.now.parts.harts < 2 ^ 64 }
    requires new { sum_by (λ part. part.ticks) new.now.parts.harts < 2 ^ 64 }
    ensures { Comes result (λ texts. texts ≡ diff_of old.now new.now) }
{
    if !are_alike(old, new) {
        return Err(Refusal::Fault(Fault::BadNewReport(0)));
    }
    let text = diff_text(alloc, &old.parts, &new.parts)?;
    Ok(Texts::output(alloc, text))
}

/// Returns what is due for `diff`.
///
/// # Errors
///
/// `Refusal::NoMemory` where memory runs out, or the first fault that is due.
pub fn diff<F: Files>(
    alloc: Global,
    request: &DiffRequest<'_>,
    files: &mut F,
) -> Result<Texts, Refusal>
    ensures due { Comes result (IsDiffDue (asked_diff request.now) (reads (F.holds files.old) (F.faults files.old) (F.faults files.new))) }
    ensures looks { Looks F.holds F.faults files.old files.new result }
{
    let old = read_side(alloc, files, request.old, Side::Old)?;
    let new = read_side(alloc, files, request.new, Side::New)?;
    diff_of(alloc, &old, &new)
}
