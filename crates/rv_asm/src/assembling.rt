//! The assembler.

ghost use Rattle.std.specs.Prelude.{◌≡◌, ◌+◌, ◌*◌, ◌<◌, ◌≤◌, ◌^◌, true, None, IfOk, length};
ghost use Rattle.rv_word.specs.Names.{words_of, scratch_in};
ghost use Rattle.pn_types.specs.Images.{IsImage, text_of};
ghost use Rattle.pn_types.specs.GoodNames.{is_good_name};
ghost use Rattle.std.specs.List.{All};
ghost use Rattle.rv_asm.specs.Assembly.{sized, completed, assembled, names_room};
ghost use Rattle.rv_asm.specs.Seen.{IsSeenAs};
ghost use Rattle.rv_asm.specs.Means.{Means};

use crate::draft::{DATA_START, Draft};
use crate::fault::{AsmError, AsmFault};
use crate::first_pass::pass;
use crate::image::image;
use crate::second_pass::code;
use pn_types::{Image, MAX_TEXT_LEN};
use std::alloc::Global;

/// The greatest length of the data in bytes.
const MAX_DATA_LEN: u128 = 16_777_216;

/// The image of the draft, whose text has these bytes, if the text is there, and neither it nor the data is too long.
#[tactic(auto, unfolding(crate::specs::Assembly::sized))]
fn sized(alloc: Global, draft: &Draft, text: Vec<u8>) -> Result<Image, AsmError>
    ensures { IsSeenAs (λ image. image) result (sized draft.now text.items) }
{
    if text.is_empty() {
        return Err(AsmFault::NoText.into());
    }
    if text.len() as u64 > MAX_TEXT_LEN {
        return Err(AsmFault::TextTooLong(text.len() as u64).into());
    }
    let data_len = draft.data_end.saturating_sub(DATA_START as u128);
    if data_len > MAX_DATA_LEN {
        return Err(AsmFault::DataTooLong(data_len).into());
    }
    Ok(image(alloc, draft, text)?)
}

/// The program of what the lines make, if no procedure is open.
fn completed(alloc: Global, draft: &Draft) -> Result<Image, AsmError>
    ensures { IsSeenAs (λ image. image) result (completed draft.now) }
{
    if let Some(line) = draft.opened {
        return Err(AsmFault::BadLine(line).into());
    }
    let bytes = code(alloc, &draft.labels, draft.text_part.as_slice())?;
    sized(alloc, draft, bytes)
}

/// Returns the program that the text stands for.
///
/// # Errors
///
/// Out of memory, or why the text is no program: the fault of the first line that is faulty in itself, else that of the first that
/// leads nowhere or too far, else what is wrong with the whole.
#[tactic(auto, unfolding(crate::specs::Assembly::assembled))]
pub fn assemble(alloc: Global, text: &[u8]) -> Result<Image, AsmError>
    requires { length text.now < 2 ^ 31 }
    ensures meaning { Means result (assembled text.now) }
    ensures image { IfOk result IsImage }
    // No word of the text names x31.
    ensures unscratched { IfOk result (λ image. scratch_in (words_of (text_of image)) image.text_at ≡ None) }
    ensures modules { IfOk result (λ image. All (λ s. is_good_name s.«module» ≡ true) image.symbols) }
    ensures named { IfOk result (λ image. names_room image.symbols ≤ 127 * (length text.now + 1)) }
{
    let draft = pass(alloc, text)?;
    completed(alloc, &draft)
}
