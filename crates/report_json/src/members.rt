//! Brackets, and values of JSON with their names.

ghost use Rattle.std.specs.Prelude.{◌≡◌, ◌++◌, ◌∷◌, [], IfOk, OnOk, codes, string_bytes};
ghost use Rattle.std.specs.Str.{encode_utf8_all};
ghost use Rattle.json.specs.Json.{boolean, null, string};
ghost use Rattle.json.specs.Token.{begin_array, begin_object, end_array, end_object, key};
ghost use Rattle.json.specs.Tree.{json_tokens};
ghost use Rattle.pn_types.specs.Texts.{cause_text};
ghost use Rattle.report_json.specs.Values.{byte_string, natural, natural_or_null, signed};

use json::Writer;
use pn_types::{NoMemory, PickCause};
use std::alloc::Global;

/// Begins an object.
pub(crate) fn begin_object(out: &mut Writer) -> Result<(), NoMemory>
    ensures before { OnOk result (out.new.before ≡ out.old.before) }
    ensures tokens { OnOk result (out.new.tokens ≡ out.old.tokens ++ begin_object ∷ []) }
{
    out.begin_object()
}

/// Ends an object.
pub(crate) fn end_object(out: &mut Writer) -> Result<(), NoMemory>
    ensures before { OnOk result (out.new.before ≡ out.old.before) }
    ensures tokens { OnOk result (out.new.tokens ≡ out.old.tokens ++ end_object ∷ []) }
{
    out.end_object()
}

/// Begins an array.
pub(crate) fn begin_array(out: &mut Writer, name: &str) -> Result<(), NoMemory>
    ensures before { OnOk result (out.new.before ≡ out.old.before) }
    ensures tokens { OnOk result (out.new.tokens ≡ out.old.tokens ++ key name.now ∷ begin_array ∷ []) }
{
    out.key(name)?;
    out.begin_array()
}

/// Ends an array.
pub(crate) fn end_array(out: &mut Writer) -> Result<(), NoMemory>
    ensures before { OnOk result (out.new.before ≡ out.old.before) }
    ensures tokens { OnOk result (out.new.tokens ≡ out.old.tokens ++ end_array ∷ []) }
{
    out.end_array()
}

/// Adds a null.
pub(crate) fn add_null(out: &mut Writer, name: &str) -> Result<(), NoMemory>
    ensures before { OnOk result (out.new.before ≡ out.old.before) }
    ensures tokens { OnOk result (out.new.tokens ≡ out.old.tokens ++ key name.now ∷ json_tokens null) }
{
    out.key(name)?;
    out.null()
}

/// Adds a number.
pub(crate) fn add_natural(out: &mut Writer, name: &str, value: u64) -> Result<(), NoMemory>
    ensures before { OnOk result (out.new.before ≡ out.old.before) }
    ensures tokens { OnOk result (out.new.tokens ≡ out.old.tokens ++ key name.now ∷ json_tokens (natural value)) }
{
    out.key(name)?;
    out.u64(value)
}

/// Adds a number that may be missing.
pub(crate) fn add_optional(out: &mut Writer, name: &str, value: Option<u64>) -> Result<(), NoMemory>
    ensures before { OnOk result (out.new.before ≡ out.old.before) }
    ensures tokens { OnOk result (out.new.tokens ≡ out.old.tokens ++ key name.now ∷ json_tokens (natural_or_null value)) }
{
    match value {
        None => add_null(out, name),
        Some(value) => add_natural(out, name, value),
    }
}

/// Adds a value of 64 bits of which the upper half are negative numbers.
pub(crate) fn add_signed(out: &mut Writer, name: &str, value: u64) -> Result<(), NoMemory>
    ensures before { OnOk result (out.new.before ≡ out.old.before) }
    ensures tokens { OnOk result (out.new.tokens ≡ out.old.tokens ++ key name.now ∷ json_tokens (signed value)) }
{
    out.key(name)?;
    out.i64(value.cast_signed())
}

/// Adds a truth value.
pub(crate) fn add_boolean(out: &mut Writer, name: &str, value: bool) -> Result<(), NoMemory>
    ensures before { OnOk result (out.new.before ≡ out.old.before) }
    ensures tokens { OnOk result (out.new.tokens ≡ out.old.tokens ++ key name.now ∷ json_tokens (boolean value)) }
{
    out.key(name)?;
    out.boolean(value)
}

/// Adds a text.
pub(crate) fn add_string(out: &mut Writer, name: &str, text: &str) -> Result<(), NoMemory>
    ensures before { OnOk result (out.new.before ≡ out.old.before) }
    ensures tokens { OnOk result (out.new.tokens ≡ out.old.tokens ++ key name.now ∷ json_tokens (string text.now)) }
{
    out.key(name)?;
    out.string(text)
}

/// Returns the characters of which each has the number of a byte.
fn characters(alloc: Global, bytes: &[u8]) -> Result<String, NoMemory>
    ensures { IfOk result (λ text. string_bytes text ≡ encode_utf8_all bytes.now) }
{
    bytes.iter().map(|byte| char::from(*byte)).collect(alloc)
}

/// Adds bytes of any values: each is the character of its number, from U+0000 to U+00FF.
pub(crate) fn add_bytes(
    alloc: Global,
    out: &mut Writer,
    name: &str,
    bytes: &[u8],
) -> Result<(), NoMemory>
    ensures before { OnOk result (out.new.before ≡ out.old.before) }
    ensures tokens { OnOk result (out.new.tokens ≡ out.old.tokens ++ key name.now ∷ json_tokens (byte_string bytes.now)) }
{
    let text = characters(alloc, bytes)?;
    add_string(out, name, &text)
}

/// Adds why a metric can't be measured at a focus.
pub(crate) fn add_cause(alloc: Global, out: &mut Writer, cause: PickCause) -> Result<(), NoMemory>
    ensures before { OnOk result (out.new.before ≡ out.old.before) }
    ensures tokens { OnOk result (out.new.tokens ≡ out.old.tokens ++ key (codes "cause") ∷ json_tokens (string (cause_text cause))) }
{
    let text = format!(in alloc; "{cause}")?;
    add_string(out, "cause", &text)
}
