//! The command `profile`.

ghost use Rattle.std.specs.Prelude.{◌≡◌, [], IfOk};
ghost use Rattle.std.specs.Option.{option_map_or};
ghost use Rattle.code_points.specs.Procedures.{AreProcsOf, procedures_of};
ghost use Rattle.command_words.specs.Addresses.{addresses_of};
ghost use Rattle.command_words.specs.Asked.{asked_profile, asked_source};
ghost use Rattle.command_words.specs.Requests.{HasRanges, IsBlocksInRange, profile};
ghost use Rattle.commands.specs.FileReadings.{reads, Looks};
ghost use Rattle.commands.specs.Given.{IsUnscratched};
ghost use Rattle.commands.specs.Profiles.{AreProfileTexts, IsProfileDue, IsProfiled, callgrind_asked, shape_text, start_of, starts_of};
ghost use Rattle.pn_types.specs.Images.{IsImage};
ghost use Rattle.profile_text.specs.Totals.{Fits};
ghost use Rattle.refusals.specs.Refusals.{Comes};

use crate::inputs::read_program;
use crate::texts::Texts;
use block_count::CountFault;
use code_points::procedures;
use command_words::{ProfileRequest, ProfileShape, ProfileSource, addresses};
use outside::Files;
use pn_types::{Image, NoMemory, Proc, Seq, Text};
use profile_text::{callgrind_text, profile_lines, profile_table};
use refusals::{Fault, Refusal};
use std::alloc::Global;
use word_counts::{Profile, profile_words};

/// Returns an address at which a block begins, as a procedure without a name and words.
fn start(alloc: Global, address: u64) -> Proc
    ensures { result ≡ start_of address }
{
    Proc {
        name: Text::from_vec(Vec::new(alloc)),
        module: Text::from_vec(Vec::new(alloc)),
        start: address,
        len: 0,
    }
}

/// Returns the addresses in the text of `also`, where it is given.
///
/// # Errors
///
/// `NoMemory` where memory runs out.
pub(crate) fn also(alloc: Global, text: Option<&str>) -> Result<Vec<u64>, NoMemory>
    ensures { IfOk result (λ also. also.items ≡ option_map_or (λ s. addresses_of s.now) text.entry []) }
{
    match text {
        Some(text) => addresses(alloc, text),
        None => Ok(Vec::new(alloc)),
    }
}

/// Returns the procedures, and the addresses at which a block begins beside those that the program's words tell.
///
/// # Errors
///
/// `NoMemory` where memory runs out.
pub(crate) fn starts(alloc: Global, image: &Image, also: &[u64]) -> Result<Vec<Proc>, NoMemory>
    requires { IsImage image.now }
    ensures { IfOk result (λ starts. starts.items ≡ starts_of image.now also.now) }
{
    let (mut starts, _) = procedures(alloc, image)?;
    for address in also {
        starts.push(start(alloc, *address))?;
    }
    Ok(starts)
}

/// Returns the profile of an image's run.
///
/// # Errors
///
/// `Refusal::NoMemory` where memory runs out; `TooManyBlocks` where more blocks can be counted than a hart has slots.
pub(crate) fn profiled(
    alloc: Global,
    source: &ProfileSource<'_>,
    image: &Image,
    starts: &[Proc],
) -> Result<Profile, Refusal>
    requires image { IsImage image.now }
    requires unscratched { IsUnscratched image.now }
    requires ranges { IsBlocksInRange (asked_source source.now).counted }
    requires starts { starts.now ≡ starts_of image.now (asked_source source.now).also }
    ensures profile { Comes result (IsProfiled (asked_source source.now) image.now) }
    ensures fits { IfOk result (Fits image.now) }
{
    let counted = &source.counted;
    match profile_words(
        alloc,
        image,
        starts,
        counted.harts,
        counted.budget,
        counted.order.seed,
        counted.order.quantum,
    ) {
        Ok(profile) => Ok(profile),
        Err(CountFault::TooManyBlocks(count)) => {
            Err(Refusal::Fault(Fault::TooManyBlocks(count)))
        }
        Err(CountFault::NoMemory) => Err(Refusal::NoMemory),
    }
}

/// Returns a profile in a shape.
fn shape_text(
    alloc: Global,
    request: &ProfileRequest<'_>,
    image: &Image,
    procs: &[Proc],
    profile: &Profile,
) -> Result<Vec<u8>, NoMemory>
    requires image { IsImage image.now }
    requires procs { procs.now ≡ procedures_of image.now }
    requires are_procs { AreProcsOf image.now procs.now }
    requires fits { Fits image.now profile.now }
    ensures { IfOk result (λ text. text.items ≡ shape_text request.now.shape request.now.top image.now profile.now) }
{
    match request.shape {
        ProfileShape::Lines => profile_lines(alloc, image, procs, profile, false),
        ProfileShape::Words => profile_lines(alloc, image, procs, profile, true),
        ProfileShape::Table => profile_table(alloc, image, procs, profile, request.top),
    }
}

/// Returns what callgrind's tools read of a profile, and nothing where it isn't asked for.
fn callgrind(
    alloc: Global,
    request: &ProfileRequest<'_>,
    image: &Image,
    procs: &[Proc],
    profile: &Profile,
) -> Result<Vec<u8>, NoMemory>
    requires image { IsImage image.now }
    requires procs { procs.now ≡ procedures_of image.now }
    requires are_procs { AreProcsOf image.now procs.now }
    requires fits { Fits image.now profile.now }
    ensures { IfOk result (λ text. text.items ≡ callgrind_asked (asked_profile request.now) image.now profile.now) }
{
    match request.callgrind {
        Some(_) => callgrind_text(alloc, image, procs, profile),
        None => Ok(Vec::new(alloc)),
    }
}

/// Returns the texts of an image's profile.
fn profile_texts(
    alloc: Global,
    request: &ProfileRequest<'_>,
    image: &Image,
) -> Result<Texts, Refusal>
    requires image { IsImage image.now }
    requires unscratched { IsUnscratched image.now }
    requires ranges { HasRanges (profile (asked_profile request.now)) }
    ensures { Comes result (AreProfileTexts (asked_profile request.now) image.now) }
{
    let also = also(alloc, request.source.also)?;
    let starts = starts(alloc, image, &also)?;
    let (procs, _) = procedures(alloc, image)?;
    let profile = profiled(alloc, &request.source, image, &starts)?;
    let out = shape_text(alloc, request, image, &procs, &profile)?;
    let log = callgrind(alloc, request, image, &procs, &profile)?;
    Ok(Texts {
        out: Seq::from_vec(out),
        log: Seq::from_vec(log),
    })
}

/// Returns what is due for `profile`.
///
/// # Errors
///
/// `Refusal::NoMemory` where memory runs out, or the first fault that is due.
pub fn profile<F: Files>(
    alloc: Global,
    request: &ProfileRequest<'_>,
    files: &mut F,
) -> Result<Texts, Refusal>
    requires ranges { HasRanges (profile (asked_profile request.now)) }
    ensures due { Comes result
        (IsProfileDue (asked_profile request.now) (reads (F.holds files.old) (F.faults files.old) (F.faults files.new))) }
    ensures looks { Looks F.holds F.faults files.old files.new result }
{
    let image = read_program(alloc, files, request.source.counted.program)?;
    profile_texts(alloc, request, &image)
}
