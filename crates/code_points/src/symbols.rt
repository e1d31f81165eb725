//! The function symbols of an image.

ghost use Rattle.std.specs.Prelude.{◌≡◌, ◌≤◌, IfOk, length, map};
ghost use Rattle.std.specs.List.{filter};
ghost use Rattle.code_points.specs.Procedures.{is_func, by_address};

use pn_types::{NoMemory, SymKind, Symbol};
use std::alloc::Global;

/// The function symbols.
fn functions(alloc: Global, symbols: &[Symbol]) -> Result<Vec<&Symbol>, NoMemory>
    ensures { IfOk result (λ found. map (λ s. s.now) found.items ≡ filter (λ s. is_func s.kind) symbols.now) }
{
    let mut found = Vec::new(alloc);
    for symbol in symbols {
        if symbol.kind == SymKind::Func {
            found.push(symbol)?;
        }
    }
    Ok(found)
}

/// Returns the function symbols by ascending address, ties in their order.
///
/// # Errors
///
/// `NoMemory` where memory runs out.
pub fn functions_by_address(alloc: Global, symbols: &[Symbol]) -> Result<Vec<&Symbol>, NoMemory>
    ensures found { IfOk result (λ found. map (λ s. s.now) found.items ≡ by_address (filter (λ s. is_func s.kind) symbols.now)) }
    ensures few { IfOk result (λ found. length found.items ≤ length symbols.now) }
{
    let mut found = functions(alloc, symbols)?;
    found.sort_by_key(|symbol| symbol.at)?;
    Ok(found)
}
