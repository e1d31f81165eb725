//! The harts.

ghost use Rattle.std.specs.Prelude.{◌≡◌, ◌++◌, ◌∷◌, [], OnOk, codes, map};
ghost use Rattle.json.specs.Json.{string};
ghost use Rattle.json.specs.Token.{key};
ghost use Rattle.pn_types.specs.Texts.{stop_text};
ghost use Rattle.json.specs.Tree.{json_tokens};
ghost use Rattle.report_json.specs.Report.{hart_value};
ghost use Rattle.report_json.specs.Values.{array_of};

use crate::fields::stop_code;
use crate::members::{
    add_natural, add_optional, add_string, begin_array, begin_object, end_array, end_object,
};
use json::Writer;
use pn_types::{NoMemory, StopText};
use report::HartPart;
use std::alloc::Global;

/// Adds how a hart ended.
fn add_stop(alloc: Global, out: &mut Writer, stop: StopText) -> Result<(), NoMemory>
    ensures before { OnOk result (out.new.before ≡ out.old.before) }
    ensures tokens { OnOk result (out.new.tokens ≡ out.old.tokens ++ key (codes "stop") ∷ json_tokens (string (stop_text stop))) }
{
    let text = format!(in alloc; "{stop}")?;
    add_string(out, "stop", &text)
}

/// Adds a hart.
fn add_hart(alloc: Global, out: &mut Writer, part: &HartPart) -> Result<(), NoMemory>
    ensures before { OnOk result (out.new.before ≡ out.old.before) }
    ensures tokens { OnOk result (out.new.tokens ≡ out.old.tokens ++ json_tokens (hart_value part.now)) }
{
    begin_object(out)?;
    add_natural(out, "ticks", part.ticks)?;
    add_stop(alloc, out, part.stop)?;
    add_optional(out, "code", stop_code(part.stop))?;
    add_natural(out, "pc", part.pc)?;
    end_object(out)
}

/// Adds the harts, by number.
pub(crate) fn add_harts(alloc: Global, out: &mut Writer, parts: &[HartPart]) -> Result<(), NoMemory>
    ensures before { OnOk result (out.new.before ≡ out.old.before) }
    ensures tokens { OnOk result (out.new.tokens ≡ out.old.tokens ++ key (codes "harts") ∷ json_tokens (array_of (map hart_value parts.now))) }
{
    begin_array(out, "harts")?;
    for part in parts {
        add_hart(alloc, out, part)?;
    }
    end_array(out)
}
