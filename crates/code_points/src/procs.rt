//! The procedures of an image.

ghost use Rattle.std.specs.Prelude.{◌≡◌, ◌+◌, ◌<◌, ◌≤◌, ◌^◌, IfOk, length, map};
ghost use Rattle.pn_types.specs.Images.{IsImage};
ghost use Rattle.code_points.specs.Procedures.{can_be_procedure, proc_of, functions_of, procedures_of, skipped_of, AreProcsOf};

use crate::symbols::functions_by_address;
use pn_types::{Image, NoMemory, Proc, Symbol, is_good_name};
use std::alloc::Global;
use std::collections::HashSet;

/// Whether the symbol has a good name, and is at least one whole word, all in the text.
fn can_be_procedure(image: &Image, symbol: &Symbol) -> bool
    requires { image.now.text_at + image.now.text_len < 2 ^ 64 }
    ensures { result ≡ can_be_procedure image.now symbol.now }
{
    is_good_name(symbol.name.bytes())
        && symbol.at % 4 == 0
        && symbol.size % 4 == 0
        && 0 < symbol.size
        && image.text_at <= symbol.at
        && symbol.size <= image.text_len
        && symbol.at - image.text_at <= image.text_len - symbol.size
}

/// The procedure of a function symbol.
fn proc_of(alloc: Global, symbol: &Symbol) -> Result<Proc, NoMemory>
    ensures { IfOk result (λ proc. proc ≡ proc_of symbol.now) }
{
    Ok(Proc {
        name: symbol.name.copy(alloc)?,
        module: symbol.module.copy(alloc)?,
        start: symbol.at,
        len: symbol.size,
    })
}

/// The procedures among the function symbols of an image, which ascend.
fn kept(alloc: Global, image: &Image, functions: &[&Symbol]) -> Result<Vec<Proc>, NoMemory>
    requires text { image.now.text_at + image.now.text_len < 2 ^ 64 }
    requires few { length functions.now < 2 ^ 32 }
    requires functions { map (λ s. s.now) functions.now ≡ functions_of image.now }
    ensures procs { IfOk result (λ procs. procs.items ≡ procedures_of image.now) }
    ensures are_procs { IfOk result (λ procs. AreProcsOf image.now procs.items) }
    ensures few { IfOk result (λ procs. length procs.items ≤ length functions.now) }
{
    let mut procs = Vec::new(alloc);
    let mut names = HashSet::new(alloc);
    let mut end = 0;
    for &symbol in functions {
        if can_be_procedure(image, symbol)
            && end <= symbol.at
            && names.insert((symbol.module.bytes(), symbol.name.bytes()))?
        {
            procs.push(proc_of(alloc, symbol)?)?;
            end = symbol.at + symbol.size;
        }
    }
    Ok(procs)
}

/// Returns the procedures of an image by ascending address, and how many function symbols are none. The function symbols are
/// judged by ascending address, ties in the order of the image's symbols. One is a procedure where its name is good,
/// its address and its size are multiples of 4, its size isn't 0, it lies in the text, it overlaps no procedure before
/// it, and none of them has its module and name.
///
/// # Errors
///
/// `NoMemory` where memory runs out.
#[tactic(auto, using(crate::proofs::NamedProcs::text_below))]
pub fn procedures(alloc: Global, image: &Image) -> Result<(Vec<Proc>, u32), NoMemory>
    requires { IsImage image.now }
    ensures procs { IfOk result (λ r. r.0.items ≡ procedures_of image.now) }
    ensures skipped { IfOk result (λ r. r.1 ≡ skipped_of image.now) }
    ensures are_procs { IfOk result (λ r. AreProcsOf image.now r.0.items) }
{
    let functions = functions_by_address(alloc, image.symbols.as_slice())?;
    let procs = kept(alloc, image, &functions)?;
    let skipped = functions.len() - procs.len();
    Ok((procs, skipped as u32))
}
