//! Reads what words ask of `show`.

ghost use Rattle.std.specs.Prelude.{◌≡◌, IfSome, option_map};
ghost use Rattle.command_words.specs.Asked.{asked};
ghost use Rattle.command_words.specs.Requests.{format_given, format_named, show_request, HasRanges};

use crate::asking::{number_given, place};
use crate::given::Given;
use crate::numbers::COLUMNS;
use crate::requests::{Request, ShowRequest, ViewFormat};

/// Returns the format of this name.
fn format_named(text: &str) -> Option<ViewFormat>
    ensures { result ≡ format_named text.now }
{
    match text {
        "blocks" => Some(ViewFormat::Blocks),
        "ascii" => Some(ViewFormat::Ascii),
        "json" => Some(ViewFormat::Json),
        "csv" => Some(ViewFormat::Csv),
        "svg" => Some(ViewFormat::Svg),
        "html" => Some(ViewFormat::Html),
        _ => None,
    }
}

/// Returns the format that is given, or that of a terminal with blocks where none is.
fn format_given<'a, G: Given<'a>>(given: &G) -> Option<ViewFormat>
    ensures { result ≡ format_given (G.given given.now) }
{
    match given.value("format") {
        Some(text) => format_named(text),
        None => Some(ViewFormat::Blocks),
    }
}

/// Returns the request that the values of `show` give, if each is in its range.
pub(crate) fn show_request<'a, G: Given<'a>>(given: &G) -> Option<Request<'a>>
    ensures request { option_map asked result ≡ show_request (G.given given.now) }
    ensures ranges { IfSome result (λ request. HasRanges (asked request)) }
{
    let columns = number_given(given, COLUMNS)?;
    let format = format_given(given)?;
    Some(Request::Show(ShowRequest {
        report: place(given, "report"),
        columns: columns as u32,
        format,
    }))
}
