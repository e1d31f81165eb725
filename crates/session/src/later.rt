//! The wishes in the order in which they are looked at.

ghost use Rattle.std.specs.Prelude.{◌≡◌, ◌==◌, ◌++◌, ◌∷◌, [], if◌then◌else◌, IfOk, filter, is_ok, not};
ghost use Rattle.session_spec.specs.Inputs.{by_tick};

use mdl_check::CheckedWish;
use pn_types::{Focus, NoMemory};
use std::alloc::Global;

/// Appends a copy of a wish.
fn put(list: &mut Vec<CheckedWish>, wish: &CheckedWish) -> Result<(), NoMemory>
    ensures { list.new.items ≡ (if is_ok result then list.old.items ++ wish.now ∷ [] else list.old.items) }
{
    // The focus is written out here, since the prover doesn't take one that was made elsewhere.
    list.push(CheckedWish {
        at: wish.at,
        show: wish.show,
        metric: wish.metric,
        focus: Focus {
            code: wish.focus.code,
            hart: wish.focus.hart,
            object: wish.focus.object,
        },
    })?;
    Ok(())
}

/// Copies the wishes of the opening, in the order of the text.
///
/// # Errors
///
/// `NoMemory` where memory runs out.
pub(crate) fn first(alloc: Global, wishes: &[CheckedWish]) -> Result<Vec<CheckedWish>, NoMemory>
    ensures { IfOk result (λ list. list.items ≡ filter (λ w. w.at == 0) wishes.now) }
{
    let mut list = Vec::new(alloc);
    for wish in wishes {
        if wish.at == 0 {
            put(&mut list, wish)?;
        }
    }
    Ok(list)
}

/// Copies the wishes after the opening, in the order of the text.
///
/// # Errors
///
/// `NoMemory` where memory runs out.
fn after_opening(alloc: Global, wishes: &[CheckedWish]) -> Result<Vec<CheckedWish>, NoMemory>
    ensures { IfOk result (λ list. list.items ≡ filter (λ w. not (w.at == 0)) wishes.now) }
{
    let mut list = Vec::new(alloc);
    for wish in wishes {
        if wish.at != 0 {
            put(&mut list, wish)?;
        }
    }
    Ok(list)
}

/// Copies the later wishes, in the order of their ticks, and those of one tick in the order of the text.
///
/// # Errors
///
/// `NoMemory` where memory runs out.
pub(crate) fn later(alloc: Global, wishes: &[CheckedWish]) -> Result<Vec<CheckedWish>, NoMemory>
    ensures { IfOk result (λ list. list.items ≡ by_tick (filter (λ w. not (w.at == 0)) wishes.now)) }
{
    let mut list = after_opening(alloc, wishes)?;
    list.sort_by_key(|wish| wish.at)?;
    Ok(list)
}
