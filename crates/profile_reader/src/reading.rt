//! Reading a profile.

ghost use Rattle.std.specs.Prelude.{◌≡◌, ◌<◌, ◌≤◌, ◌^◌, IfOk, bytes_eq, length, sum_by, IsTrue};
ghost use Rattle.profile_reader.specs.Reading.{ReadsProfile, adds_up, common_len, is_spelled, profile_in, profile_spelling};

use crate::line_kinds::lines_of;
use crate::profile::ReadProfile;
use crate::read_lines::profile_of_lines;
use crate::spelling::spelling;
use advice::{ReportError, ReportFault};
use report::HartPart;
use std::alloc::Global;

/// Returns how many bytes two texts have in common from their beginnings on.
#[tactic(auto, using(crate::proofs::Cuts::nothing_common))]
fn common_len(one: &[u8], other: &[u8]) -> usize
    ensures { result ≡ common_len one.now other.now }
{
    let mut count = 0;
    while count < one.len() && count < other.len() && one[count] == other[count] {
        count += 1;
    }
    count
}

/// Returns whether two texts are the same.
fn is_same(one: &[u8], other: &[u8]) -> bool
    ensures { result ≡ bytes_eq one.now other.now }
{
    one == other
}

/// Returns the ticks of all harts together.
fn total_ticks(harts: &[HartPart]) -> u128
    requires { length harts.now < 2 ^ 64 }
    ensures { result ≡ sum_by (λ part. part.ticks) harts.now }
{
    let mut total = 0;
    for part in harts {
        total += part.ticks as u128;
    }
    total
}

/// Returns whether the ticks of the harts are those that the first line tells.
fn adds_up(profile: &ReadProfile) -> bool
    ensures same { result ≡ adds_up profile.now }
    ensures small { IsTrue result → sum_by (λ part. part.ticks) profile.now.harts < 2 ^ 64 }
{
    total_ticks(profile.harts.as_slice()) == profile.ticks as u128
}

/// Returns whether the text of a profile is these bytes.
fn is_spelled(text: &[u8], bytes: &[u8], profile: &ReadProfile) -> bool
    requires { text.now ≡ profile_spelling profile.now }
    ensures same { result ≡ is_spelled bytes.now profile.now }
    ensures small { IsTrue result → sum_by (λ part. part.ticks) profile.now.harts < 2 ^ 64 }
{
    is_same(text, bytes) && adds_up(profile)
}

/// Returns the profile that bytes are. Its harts' ticks together are below 2^64.
///
/// # Errors
///
/// Out of memory, or a fault: at the first byte that isn't as in the text of what these lines say, or at the end where the ticks that the
/// first line tells aren't those of the harts together.
pub fn read_profile(alloc: Global, bytes: &[u8]) -> Result<ReadProfile, ReportError>
    ensures told { ReadsProfile result (profile_in bytes.now) }
    ensures ticks { IfOk result (λ profile. sum_by (λ part. part.ticks) profile.harts < 2 ^ 64) }
{
    let profile = profile_of_lines(alloc, &lines_of(alloc, bytes)?)?;
    let text = spelling(alloc, &profile)?;
    if is_spelled(&text, bytes, &profile) {
        return Ok(profile);
    }
    let place = common_len(&text, bytes);
    Err(ReportError::Fault(ReportFault::BadReport(place as u64)))
}
