//! The commands `points` and `asm`.

ghost use Rattle.std.specs.Prelude.{◌≡◌, IfOk};
ghost use Rattle.code_points.specs.Points.{points_of};
ghost use Rattle.code_points.specs.Procedures.{procedures_of, skipped_of};
ghost use Rattle.commands.specs.Listing.{IsPointsDue, IsAsmDue};
ghost use Rattle.commands.specs.FileReadings.{reads, Looks};
ghost use Rattle.pn_types.specs.Images.{IsImage};
ghost use Rattle.refusals.specs.Refusals.{Comes};
ghost use Rattle.report.specs.Points.{points_text};

use crate::inputs::{read_program, read_text};
use crate::texts::Texts;
use code_points::procedures;
use outside::Files;
use pn_types::{Image, NoMemory};
use refusals::Refusal;
use report::points_text;
use std::alloc::Global;

/// Returns the text of an image's points.
fn points_of_image(alloc: Global, image: &Image) -> Result<Vec<u8>, NoMemory>
    requires { IsImage image.now }
    ensures { IfOk result (λ text. text.items
        ≡ points_text (procedures_of image.now) (points_of image.now (procedures_of image.now)) (skipped_of image.now)) }
{
    let (procs, skipped) = procedures(alloc, image)?;
    let points = code_points::points(alloc, image, &procs)?;
    points_text(alloc, &procs, &points, skipped)
}

/// Returns what is due for `points`.
///
/// # Errors
///
/// `Refusal::NoMemory` where memory runs out, or the first fault that is due.
pub fn points<F: Files>(alloc: Global, program: &str, files: &mut F) -> Result<Texts, Refusal>
    ensures due { Comes result (IsPointsDue program.now (reads (F.holds files.old) (F.faults files.old) (F.faults files.new))) }
    ensures looks { Looks F.holds F.faults files.old files.new result }
{
    let image = read_program(alloc, files, program)?;
    let text = points_of_image(alloc, &image)?;
    Ok(Texts::output(alloc, text))
}

/// Returns what is due for `asm`.
///
/// # Errors
///
/// `Refusal::NoMemory` where memory runs out, or the first fault that is due.
pub fn asm<F: Files>(alloc: Global, text: &str, files: &mut F) -> Result<Texts, Refusal>
    ensures due { Comes result (IsAsmDue text.now (reads (F.holds files.old) (F.faults files.old) (F.faults files.new))) }
    ensures looks { Looks F.holds F.faults files.old files.new result }
{
    let file = read_text(alloc, files, text)?;
    Ok(Texts::output(alloc, file.into_vec()))
}
