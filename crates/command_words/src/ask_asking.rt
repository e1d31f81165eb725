//! Reads what words ask of `ask`.

ghost use Rattle.std.specs.Prelude.{◌≡◌, ◌≤◌, ◌+◌, IfSome, option_map, unwrap_or};
ghost use Rattle.command_words.specs.Asked.{asked, asked_interval};
ghost use Rattle.command_words.specs.Numbers.{instruments_option, number_given};
ghost use Rattle.command_words.specs.Requests.{ask_request, each_given, interval_given, kind_named, until_given, HasRanges};

use crate::asking::{blocks, number_between, number_given, place};
use crate::given::Given;
use crate::numbers::{FROM, INSTRUMENTS};
use crate::requests::{AskInterval, AskRequest, NodeKind, Request};

/// The last tick that a configuration can name.
const LAST_TICK: u64 = 2_147_483_647;

/// Returns the kind of this name.
fn kind_named(text: &str) -> Option<NodeKind>
    ensures { result ≡ kind_named text.now }
{
    match text {
        "procedure" => Some(NodeKind::Procedure),
        "module" => Some(NodeKind::Module),
        "lock" => Some(NodeKind::Lock),
        "hart" => Some(NodeKind::Hart),
        _ => None,
    }
}

/// Returns the kind that is given, or none where none is; nothing where the name is no kind's.
fn each_given<'a, G: Given<'a>>(given: &G) -> Option<Option<NodeKind>>
    ensures { result ≡ each_given (G.given given.now) }
{
    match given.value("each") {
        Some(text) => Some(Some(kind_named(text)?)),
        None => Some(None),
    }
}

/// Returns the last tick that is given, or none where none is; nothing where it isn't above the first.
fn until_given<'a, G: Given<'a>>(given: &G, from: u32) -> Option<Option<u32>>
    ensures { result ≡ until_given from (G.given given.now) }
{
    match given.value("until") {
        Some(text) => {
            let until = number_between(text, from as u64 + 1, LAST_TICK)?;
            Some(Some(until as u32))
        }
        None => Some(None),
    }
}

/// Returns the interval that is given, or the whole run where none is.
fn interval_given<'a, G: Given<'a>>(given: &G) -> Option<AskInterval>
    ensures { option_map asked_interval result ≡ interval_given (G.given given.now) }
{
    let from = number_given(given, FROM)? as u32;
    let until = until_given(given, from)?;
    Some(AskInterval { from, until })
}

/// Returns how many pairs are asked for, at most.
fn limit_given<'a, G: Given<'a>>(given: &G) -> Option<u32>
    ensures { result ≡ number_given (G.given given.now) instruments_option }
{
    let limit = number_given(given, INSTRUMENTS)?;
    Some(limit as u32)
}

/// Returns the request that the values of `ask` give, if each is in its range.
pub(crate) fn ask_request<'a, G: Given<'a>>(given: &G) -> Option<Request<'a>>
    ensures request { option_map asked result ≡ ask_request (G.given given.now) }
    ensures ranges { IfSome result (λ request. HasRanges (asked request)) }
{
    let counted = blocks(given)?;
    let each = each_given(given)?;
    let interval = interval_given(given)?;
    let limit = limit_given(given)?;
    Some(Request::Ask(AskRequest {
        counted,
        metrics: place(given, "metrics"),
        each,
        under: given.value("under").unwrap_or("/Code"),
        interval,
        limit,
    }))
}
