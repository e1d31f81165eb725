//! The image of a program.

ghost use Rattle.std.specs.Prelude.{◌≡◌, ◌++◌, ◌∷◌, [], IfOk, OnOk, map, replicate, false, filter};
ghost use Rattle.rv_word.specs.Values.{wrap};
ghost use Rattle.rv_asm.specs.Layout.{value_bytes, data_of, unescaped, escaped_byte};
ghost use Rattle.rv_asm.specs.DraftSeen.{placed_seen, declaration_seen};
ghost use Rattle.rv_asm.specs.Assembly.{ends_after, first_or, symbol_kind, symbol_size, symbol_of, symbols_from, is_own, belongs, belonging, symbols_of, data_bytes, segment, segments_of, entry_at, image_of};

use crate::draft::{DATA_START, Declaration, DeclarationKind, Draft, Placed, TEXT_START};
use crate::layout::padding;
use crate::statement::{Statement, ValueWidth};
use pn_types::{Image, PROGRAM_MODULE, Segment, Seq, SymKind, Symbol, Text};
use std::alloc::{AllocError, Global};

/// Adds the low bytes of the number.
#[tactic(auto, unfolding(crate::specs::Layout::value_bytes))]
fn add_value(out: &mut Vec<u8>, width: ValueWidth, value: u64) -> Result<(), AllocError>
    ensures { OnOk result (out.new.items ≡ out.old.items ++ value_bytes width value) }
{
    let bytes = value.to_le_bytes();
    out.extend_from_slice(&bytes[..width.len()])
}

/// Adds `count` zeros.
fn add_zeros(out: &mut Vec<u8>, count: u128) -> Result<(), AllocError>
    ensures { OnOk result (out.new.items ≡ out.old.items ++ replicate count 0) }
{
    for _i in 0..count {
        out.push(0)?;
    }
    Ok(())
}

/// What an escape's letter stands for.
fn escaped_byte(byte: u8) -> u8
    ensures { result ≡ escaped_byte byte }
{
    match byte {
        b'n' => b'\n',
        b'0' => 0,
        _ => byte,
    }
}

/// Adds the bytes of the string of which this stands between its quotes.
fn add_string(out: &mut Vec<u8>, written: &[u8]) -> Result<(), AllocError>
    ensures { OnOk result (out.new.items ≡ out.old.items ++ unescaped false written.now) }
{
    let mut escaped = false;
    for byte in written {
        if escaped {
            out.push(escaped_byte(*byte))?;
            escaped = false;
        } else if *byte == b'\\' {
            escaped = true;
        } else {
            out.push(*byte)?;
        }
    }
    Ok(())
}

/// Adds the bytes of the statement of the data.
#[tactic(auto, unfolding(crate::specs::Layout::data_of))]
fn add_data(out: &mut Vec<u8>, placed: &Placed) -> Result<(), AllocError>
    ensures { OnOk result (out.new.items ≡ out.old.items ++ data_of placed.now.at placed.now.statement placed.now.text.now) }
{
    match placed.statement {
        Statement::Value(width, number) => add_value(out, width, number.wrapped()),
        Statement::Zeros(number) => add_zeros(out, number.size),
        Statement::Align(number) => add_zeros(out, padding(number.size, placed.at)),
        Statement::Ascii => add_string(out, placed.text),
        _ => Ok(()),
    }
}

/// The bytes of the data.
fn data(alloc: Global, data_part: &[Placed]) -> Result<Vec<u8>, AllocError>
    ensures { IfOk result (λ bytes. bytes.items ≡ data_bytes (map placed_seen data_part.now)) }
{
    let mut out = Vec::new(alloc);
    for placed in data_part {
        add_data(&mut out, placed)?;
    }
    Ok(out)
}

/// The text of these bytes.
fn text(alloc: Global, bytes: &[u8]) -> Result<Text, AllocError>
    ensures { IfOk result (λ text. text ≡ bytes.now) }
{
    Ok(Text::from_vec(bytes.to_vec(alloc)?))
}

/// The ends that a declaration leaves: a procedure takes the first.
fn ends_after<'b>(kind: DeclarationKind, ends: &'b [u128]) -> &'b [u128]
    ensures { result.now ≡ ends_after kind ends.now }
{
    match kind {
        DeclarationKind::Procedure => match ends.split_first() {
            Some((_, rest)) => rest,
            None => ends,
        },
        DeclarationKind::Object(_) => ends,
    }
}

/// The first of the ends, or the address where there is none.
fn first_or(at: u128, ends: &[u128]) -> u128
    ensures { result ≡ first_or at ends.now }
{
    match ends.first() {
        Some(end) => *end,
        None => at,
    }
}

/// The low 64 bits.
fn low(number: u128) -> u64
    ensures { result ≡ wrap number }
{
    (number % 0x1_0000_0000_0000_0000) as u64
}

/// What the symbol of such a declaration stands for.
fn symbol_kind(kind: DeclarationKind) -> SymKind
    ensures { result ≡ symbol_kind kind }
{
    match kind {
        DeclarationKind::Procedure => SymKind::Func,
        DeclarationKind::Object(_) => SymKind::Object,
    }
}

/// The size of what begins at the address, if the next procedure ends at the first of these.
fn symbol_size(at: u128, kind: DeclarationKind, ends: &[u128]) -> u128
    ensures { result ≡ symbol_size at kind ends.now }
{
    match kind {
        DeclarationKind::Procedure => first_or(at, ends).saturating_sub(at),
        DeclarationKind::Object(size) => size,
    }
}

/// The symbol of the declaration, if the next procedure ends at the first of these.
#[tactic(auto, unfolding(crate::specs::Assembly::symbol_of))]
fn symbol(alloc: Global, declaration: &Declaration, ends: &[u128]) -> Result<Symbol, AllocError>
    ensures { IfOk result (λ symbol. symbol ≡ symbol_of (declaration_seen declaration.now) ends.now) }
{
    let name = text(alloc, declaration.name)?;
    let module = text(alloc, declaration.module)?;
    let at = low(declaration.at);
    let kind = symbol_kind(declaration.kind);
    let size = low(symbol_size(declaration.at, declaration.kind, ends));
    Ok(Symbol {
        name,
        kind,
        at,
        size,
        module,
    })
}

/// Whether a module is the program's own.
fn is_own(name: &[u8]) -> bool
    ensures { result ≡ is_own name.now }
{
    name == PROGRAM_MODULE
}

/// Whether a module is the program's own, or whether it is another.
fn belongs(own: bool, name: &[u8]) -> bool
    ensures { result ≡ belongs own name.now }
{
    if own { is_own(name) } else { !is_own(name) }
}

/// Adds the symbols of the program itself, or those of other modules.
fn add_symbols(
    alloc: Global,
    symbols: &mut Vec<Symbol>,
    draft: &Draft,
    own: bool,
) -> Result<(), AllocError>
    ensures { OnOk result (symbols.new.items ≡ symbols.old.items ++ belonging own (symbols_from draft.now.ends draft.now.declarations)) }
{
    add_belonging(
        alloc,
        symbols,
        draft.declarations.as_slice(),
        draft.ends.as_slice(),
        own,
    )
}

/// Adds the symbol of the declaration, if it belongs to the program itself, or to another module.
#[tactic(auto, unfolding(crate::specs::Assembly::symbol_of))]
fn add_symbol(
    alloc: Global,
    symbols: &mut Vec<Symbol>,
    declaration: &Declaration,
    ends: &[u128],
    own: bool,
) -> Result<(), AllocError>
    ensures { OnOk result (symbols.new.items
        ≡ symbols.old.items ++ belonging own (symbol_of (declaration_seen declaration.now) ends.now ∷ [])) }
{
    if belongs(own, declaration.module) {
        symbols.push(symbol(alloc, declaration, ends)?)?;
    }
    Ok(())
}

/// Adds the symbols of these declarations that belong to the program itself, or to other modules.
fn add_belonging(
    alloc: Global,
    symbols: &mut Vec<Symbol>,
    declarations: &[Declaration],
    ends: &[u128],
    own: bool,
) -> Result<(), AllocError>
    ensures { OnOk result (symbols.new.items
        ≡ symbols.old.items ++ belonging own (symbols_from ends.now (map declaration_seen declarations.now))) }
{
    let mut left = ends;
    for declaration in declarations {
        add_symbol(alloc, symbols, declaration, left, own)?;
        left = ends_after(declaration.kind, left);
    }
    Ok(())
}

/// The symbols of other modules, and then those of the program.
fn symbols(alloc: Global, draft: &Draft) -> Result<Vec<Symbol>, AllocError>
    ensures { IfOk result (λ symbols. symbols.items ≡ symbols_of draft.now) }
{
    let mut symbols = Vec::new(alloc);
    add_symbols(alloc, &mut symbols, draft, false)?;
    add_symbols(alloc, &mut symbols, draft, true)?;
    Ok(symbols)
}

/// A segment of these bytes.
fn segment(at: u64, bytes: Vec<u8>) -> Segment
    ensures { result ≡ segment at bytes.items }
{
    let size = bytes.len() as u64;
    Segment {
        at,
        bytes: Seq::from_vec(bytes),
        size,
    }
}

/// The text, and the data where there is some.
fn segments(alloc: Global, text: Vec<u8>, bytes: Vec<u8>) -> Result<Vec<Segment>, AllocError>
    ensures { IfOk result (λ segments. segments.items ≡ segments_of text.items bytes.items) }
{
    let mut segments = Vec::new(alloc);
    segments.push(segment(TEXT_START, text))?;
    if !bytes.is_empty() {
        segments.push(segment(DATA_START, bytes))?;
    }
    Ok(segments)
}

/// The label `_start` in the text, else the text's start.
fn entry(start: Option<u128>) -> u64
    ensures { result ≡ entry_at start }
{
    match start {
        Some(at) if at < DATA_START as u128 => at as u64,
        _ => TEXT_START,
    }
}

/// The image of the draft, whose text has these bytes.
#[tactic(auto, unfolding(crate::specs::Assembly::image_of))]
pub(crate) fn image(alloc: Global, draft: &Draft, text: Vec<u8>) -> Result<Image, AllocError>
    ensures { IfOk result (λ image. image ≡ image_of draft.now text.items) }
{
    let bytes = data(alloc, draft.data_part.as_slice())?;
    let text_len = text.len() as u64;
    let entry = entry(draft.labels.get(b"_start"));
    let symbols = Seq::from_vec(symbols(alloc, draft)?);
    Ok(Image {
        segments: Seq::from_vec(segments(alloc, text, bytes)?),
        text_at: TEXT_START,
        text_len,
        entry,
        symbols,
    })
}
