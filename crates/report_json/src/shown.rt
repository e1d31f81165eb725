//! Wishes that were refused, and what was shown.

ghost use Rattle.std.specs.Prelude.{◌≡◌, ◌++◌, ◌∷◌, if◌then◌else◌, OnOk, codes, map};
ghost use Rattle.json.specs.Token.{key};
ghost use Rattle.json.specs.Tree.{json_tokens};
ghost use Rattle.report_json.specs.Report.{bin_value, refused_value, shown_value};
ghost use Rattle.report_json.specs.Values.{array_of};

use crate::members::{
    add_bytes, add_cause, add_natural, add_optional, add_signed, add_string, begin_array,
    begin_object, end_array, end_object,
};
use fold_hist::Bin;
use json::Writer;
use pn_types::NoMemory;
use report::{RefusedPart, ShownPart};
use std::alloc::Global;

/// Returns what was wished.
fn wish(show: bool) -> &'static str
    ensures { result.now ≡ (if show then codes "show" else codes "drop") }
{
    if show { "show" } else { "drop" }
}

/// Adds a wish that was refused.
fn add_refused(alloc: Global, out: &mut Writer, part: &RefusedPart) -> Result<(), NoMemory>
    ensures before { OnOk result (out.new.before ≡ out.old.before) }
    ensures tokens { OnOk result (out.new.tokens ≡ out.old.tokens ++ json_tokens (refused_value part.now)) }
{
    begin_object(out)?;
    add_string(out, "wish", wish(part.show))?;
    add_bytes(alloc, out, "metric", part.metric.bytes())?;
    add_bytes(alloc, out, "focus", part.focus.bytes())?;
    add_natural(out, "at", part.at)?;
    add_cause(alloc, out, part.cause)?;
    end_object(out)
}

/// Adds the wishes that were refused, in order.
pub(crate) fn add_all_refused(
    alloc: Global,
    out: &mut Writer,
    parts: &[RefusedPart],
) -> Result<(), NoMemory>
    ensures before { OnOk result (out.new.before ≡ out.old.before) }
    ensures tokens { OnOk result (out.new.tokens ≡ out.old.tokens ++ key (codes "refused") ∷ json_tokens (array_of (map refused_value parts.now))) }
{
    begin_array(out, "refused")?;
    for part in parts {
        add_refused(alloc, out, part)?;
    }
    end_array(out)
}

/// Adds a bin.
fn add_bin(out: &mut Writer, bin: &Bin) -> Result<(), NoMemory>
    ensures before { OnOk result (out.new.before ≡ out.old.before) }
    ensures tokens { OnOk result (out.new.tokens ≡ out.old.tokens ++ json_tokens (bin_value bin.now)) }
{
    begin_object(out)?;
    add_natural(out, "from", bin.from)?;
    add_natural(out, "to", bin.to)?;
    add_signed(out, "value", bin.sum)?;
    end_object(out)
}

/// Adds the bins, by number.
fn add_bins(out: &mut Writer, bins: &[Bin]) -> Result<(), NoMemory>
    ensures before { OnOk result (out.new.before ≡ out.old.before) }
    ensures tokens { OnOk result (out.new.tokens ≡ out.old.tokens ++ key (codes "bins") ∷ json_tokens (array_of (map bin_value bins.now))) }
{
    begin_array(out, "bins")?;
    for bin in bins {
        add_bin(out, bin)?;
    }
    end_array(out)
}

/// Adds what was shown of a metric at a focus.
fn add_shown(alloc: Global, out: &mut Writer, part: &ShownPart) -> Result<(), NoMemory>
    ensures before { OnOk result (out.new.before ≡ out.old.before) }
    ensures tokens { OnOk result (out.new.tokens ≡ out.old.tokens ++ json_tokens (shown_value part.now)) }
{
    begin_object(out)?;
    add_bytes(alloc, out, "metric", part.metric.bytes())?;
    add_bytes(alloc, out, "focus", part.focus.bytes())?;
    add_bytes(alloc, out, "units", part.units.bytes())?;
    add_optional(out, "from", part.from)?;
    add_natural(out, "width", part.width)?;
    add_bins(out, part.bins.as_slice())?;
    end_object(out)
}

/// Adds all that was shown, in the order of the admissions.
pub(crate) fn add_all_shown(
    alloc: Global,
    out: &mut Writer,
    parts: &[ShownPart],
) -> Result<(), NoMemory>
    ensures before { OnOk result (out.new.before ≡ out.old.before) }
    ensures tokens { OnOk result (out.new.tokens ≡ out.old.tokens ++ key (codes "shown") ∷ json_tokens (array_of (map shown_value parts.now))) }
{
    begin_array(out, "shown")?;
    for part in parts {
        add_shown(alloc, out, part)?;
    }
    end_array(out)
}
