//! The first faulty item.

ghost use Rattle.std.specs.Prelude.{◌≡◌, [], IfErr, None, OnOk, Some};
ghost use Rattle.mdl_check.specs.Rules.{fault_of, parents_of};
ghost use Rattle.mdl_check.specs.Checking.{first_fault, CheckRefuses};
ghost use Rattle.mdl_check.specs.Indexes.{AreNoted};

use crate::ancestors::Ancestry;
use crate::before::{Before, Noted};
use crate::entry::Entry;
use crate::fault::{CheckError, CheckFault, CheckKind};
use crate::index::Index;
use crate::repeated::is_repeated;
use crate::wrong::{is_astray, is_unknown, is_wrong};
use std::alloc::Global;

/// What is wrong with an item, given all items, their parents, and the items before this one.
fn fault_of<'a>(
    index: &Index<'_, 'a>,
    ancestry: &Ancestry,
    before: &Before<'_, '_, 'a>,
    entry: &Entry<'a>,
) -> Option<CheckKind>
    requires { ancestry.now ≡ parents_of index.now }
    ensures { result ≡ fault_of index.now before.now entry.now }
{
    let item = entry.item();
    if is_repeated(index, before, item, entry.focus()) {
        return Some(CheckKind::TwiceNamed);
    }
    if is_unknown(index, item) {
        return Some(CheckKind::UnknownName);
    }
    if is_wrong(index, before, item) {
        return Some(CheckKind::WrongKind);
    }
    if ancestry.is_cyclic(before.len()) {
        return Some(CheckKind::CyclicParent);
    }
    if is_astray(item, entry.focus()) {
        return Some(CheckKind::BadFocus);
    }
    None
}

/// Looks for the first faulty item, given the parents of all items, where nothing is noted yet.
fn find_fault_by<'a>(
    alloc: Global,
    index: &Index<'_, 'a>,
    ancestry: &Ancestry,
    noted: &mut Noted<'a>,
) -> Result<(), CheckError>
    requires parents { ancestry.now ≡ parents_of index.now }
    requires none { AreNoted [] noted.old }
    ensures none { OnOk result (first_fault index.now ≡ None) }
    ensures fault { IfErr result (λ e. CheckRefuses e (λ fault. first_fault index.now ≡ Some fault)) }
{
    let all = index.all();
    for (place, entry) in all.iter().enumerate() {
        let before = Before::new(&all[..place], noted);
        if let Some(kind) = fault_of(index, ancestry, &before, entry) {
            return Err(CheckError::Fault(CheckFault {
                line: entry.line(),
                kind,
            }));
        }
        noted.add(alloc, entry)?;
    }
    Ok(())
}

/// Looks for the first faulty item, whose line and fault are told.
pub(crate) fn find_fault(alloc: Global, index: &Index<'_, '_>) -> Result<(), CheckError>
    ensures none { OnOk result (first_fault index.now ≡ None) }
    ensures fault { IfErr result (λ e. CheckRefuses e (λ fault. first_fault index.now ≡ Some fault)) }
{
    let ancestry = Ancestry::of(alloc, index)?;
    let mut noted = Noted::none(alloc);
    find_fault_by(alloc, index, &ancestry, &mut noted)
}
