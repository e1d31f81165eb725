//! The canonical text of the simple items.

ghost use Rattle.std.specs.Prelude.{◌≡◌, [], ◌∷◌, ◌++◌, OnOk};
ghost use Rattle.std.specs.List.{flat_map};
ghost use Rattle.pn_text.specs.Words.{NumberWord, SignWord};
ghost use Rattle.pn_text.specs.declared.token.Sign.TheVariants.{Semicolon};
ghost use Rattle.mdl_parse.specs.Grammar.{keyword};
ghost use Rattle.mdl_parse.specs.ItemGrammar.{include_words, sync_words, phase_words, wish_words};
ghost use Rattle.mdl_parse.specs.Printing.{line_text, search_lines};

use crate::line::{add_close, add_line, one_of};
use crate::seen::Seen::{Name, Number, Path, Sign};
use mdl_ast::{Include, PhaseDecl, SearchDecl, SyncDecl, Wish};
use pn_text::Sign::{OpenBrace, Semicolon};
use pn_types::NoMemory;
use std::alloc::Global;

/// Adds an include.
pub(crate) fn add_include(
    alloc: Global,
    out: &mut Vec<u8>,
    include: &Include,
) -> Result<(), NoMemory>
    ensures { OnOk result (out.new.items ≡ out.old.items ++ line_text (0, include_words include.now)) }
{
    let items = one_of(include.metrics, b"metrics", b"hypotheses");
    add_line(
        alloc,
        out,
        0,
        &[Name(b"include"), Name(items), Sign(Semicolon)],
    )
}

/// Adds a beginning of object names.
pub(crate) fn add_sync(alloc: Global, out: &mut Vec<u8>, sync: &SyncDecl) -> Result<(), NoMemory>
    ensures { OnOk result (out.new.items ≡ out.old.items ++ line_text (0, sync_words sync.now)) }
{
    add_line(
        alloc,
        out,
        0,
        &[Name(b"sync"), Name(sync.name.bytes()), Sign(Semicolon)],
    )
}

/// Adds a phase.
pub(crate) fn add_phase(alloc: Global, out: &mut Vec<u8>, phase: &PhaseDecl) -> Result<(), NoMemory>
    ensures { OnOk result (out.new.items ≡ out.old.items ++ line_text (0, phase_words phase.now)) }
{
    let name = phase.name.bytes();
    add_line(
        alloc,
        out,
        0,
        &[
            Name(b"phase"),
            Name(name),
            Name(b"at"),
            Number(phase.at),
            Sign(Semicolon),
        ],
    )
}

/// Adds a wish.
pub(crate) fn add_wish(alloc: Global, out: &mut Vec<u8>, wish: &Wish) -> Result<(), NoMemory>
    ensures { OnOk result (out.new.items ≡ out.old.items ++ line_text (0, wish_words wish.now)) }
{
    let show = one_of(wish.show, b"show", b"drop");
    let metric = wish.metric.bytes();
    let focus = wish.focus.bytes();
    add_line(
        alloc,
        out,
        0,
        &[
            Name(b"at"),
            Number(wish.at),
            Name(show),
            Name(metric),
            Path(focus),
            Sign(Semicolon),
        ],
    )
}

/// Adds a field with a number.
pub(crate) fn add_number(
    alloc: Global,
    out: &mut Vec<u8>,
    field: &[u8],
    number: u32,
) -> Result<(), NoMemory>
    ensures { OnOk result (out.new.items
        ≡ out.old.items ++ line_text (1, keyword field.now ∷ NumberWord number ∷ SignWord Semicolon ∷ [])) }
{
    add_line(
        alloc,
        out,
        1,
        &[Name(field), Number(number), Sign(Semicolon)],
    )
}

/// Adds how the search goes.
pub(crate) fn add_search(
    alloc: Global,
    out: &mut Vec<u8>,
    search: &SearchDecl,
) -> Result<(), NoMemory>
    ensures { OnOk result (out.new.items ≡ out.old.items ++ flat_map line_text (search_lines search.now)) }
{
    add_line(alloc, out, 0, &[Name(b"search"), Sign(OpenBrace)])?;
    add_number(alloc, out, b"window", search.window)?;
    add_number(alloc, out, b"cost", search.cost)?;
    add_number(alloc, out, b"observed", search.observed)?;
    add_close(alloc, out, 0)?;
    Ok(())
}
