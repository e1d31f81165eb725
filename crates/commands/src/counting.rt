//! The command `blocks`.

ghost use Rattle.command_words.specs.Asked.{asked_blocks};
ghost use Rattle.command_words.specs.Requests.{HasRanges, blocks};
ghost use Rattle.commands.specs.Blocks.{IsBlocksDue, AreCounted};
ghost use Rattle.commands.specs.Given.{IsUnscratched};
ghost use Rattle.commands.specs.FileReadings.{reads, Looks};
ghost use Rattle.pn_types.specs.Images.{IsImage};
ghost use Rattle.refusals.specs.Refusals.{Comes};

use crate::inputs::read_program;
use crate::texts::Texts;
use block_count::{CountFault, blocks_text, count, heads};
use code_points::procedures;
use command_words::BlocksRequest;
use outside::Files;
use pn_types::Image;
use refusals::{Fault, Refusal};
use std::alloc::Global;

/// Returns the text of what is counted of an image's blocks.
fn counted(alloc: Global, request: &BlocksRequest<'_>, image: &Image) -> Result<Texts, Refusal>
    requires image { IsImage image.now }
    requires unscratched { IsUnscratched image.now }
    requires ranges { HasRanges (blocks (asked_blocks request.now)) }
    ensures { Comes result (AreCounted (asked_blocks request.now) image.now) }
{
    let (procs, _) = procedures(alloc, image)?;
    let heads = heads(alloc, image, &procs)?;
    match count(
        alloc,
        image,
        &procs,
        request.harts,
        request.budget,
        request.order.seed,
        request.order.quantum,
    ) {
        Ok(counts) => {
            let text = blocks_text(alloc, &heads, &counts)?;
            Ok(Texts::output(alloc, text))
        }
        Err(CountFault::TooManyBlocks(count)) => {
            Err(Refusal::Fault(Fault::TooManyBlocks(count)))
        }
        Err(CountFault::NoMemory) => Err(Refusal::NoMemory),
    }
}

/// Returns what is due for `blocks`.
///
/// # Errors
///
/// `Refusal::NoMemory` where memory runs out, or the first fault that is due.
pub fn blocks<F: Files>(
    alloc: Global,
    request: &BlocksRequest<'_>,
    files: &mut F,
) -> Result<Texts, Refusal>
    requires ranges { HasRanges (blocks (asked_blocks request.now)) }
    ensures due { Comes result
        (IsBlocksDue (asked_blocks request.now) (reads (F.holds files.old) (F.faults files.old) (F.faults files.new))) }
    ensures looks { Looks F.holds F.faults files.old files.new result }
{
    let image = read_program(alloc, files, request.program)?;
    counted(alloc, request, &image)
}
