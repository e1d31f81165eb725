//! What a page begins with.

ghost use Rattle.std.specs.Prelude.{◌≡◌, ◌++◌, OnOk};
ghost use Rattle.report_picture.specs.Html.{page_head, page_meta, page_start, page_style};

use pn_types::NoMemory;

/// Adds what a page says of itself.
#[tactic(auto, unfolding(crate::specs::Html::page_meta))]
fn add_page_meta(out: &mut Vec<u8>) -> Result<(), NoMemory>
    ensures { OnOk result (out.new.items ≡ out.old.items ++ page_meta) }
{
    out.extend_from_slice(
        b"<!DOCTYPE html>\n<html lang=\"en\">\n<head>\n<meta charset=\"utf-8\">\n",
    )?;
    out.extend_from_slice(
        b"<meta name=\"viewport\" content=\"width=device-width, initial-scale=1\">\n<title>Report of a run</title>\n",
    )
}

/// Adds how a page looks.
#[tactic(auto, unfolding(crate::specs::Html::page_style))]
fn add_page_style(out: &mut Vec<u8>) -> Result<(), NoMemory>
    ensures { OnOk result (out.new.items ≡ out.old.items ++ page_style) }
{
    out.extend_from_slice(
        b"<style>\nbody{max-width:1100px;margin:0 auto;padding:0 1em;font:14px/1.5 monospace;color:#222;background:#fff}\n",
    )?;
    out.extend_from_slice(
        b"h3{margin:1em 0 0}\np{margin:0 0 0 2em}\ndetails{margin-left:1em}\np,summary{overflow-wrap:anywhere}\n",
    )
}

/// Adds how its tables and pictures look, and its heading.
#[tactic(auto, unfolding(crate::specs::Html::page_start))]
fn add_page_start(out: &mut Vec<u8>) -> Result<(), NoMemory>
    ensures { OnOk result (out.new.items ≡ out.old.items ++ page_start) }
{
    out.extend_from_slice(
        b"table{border-collapse:collapse;max-width:100%}\nth,td{padding:0 1em 0 0;text-align:left}\n",
    )?;
    out.extend_from_slice(
        b"div{max-width:100%;overflow-x:auto}\nsvg{display:block;width:100%;min-width:800px}\n</style>\n</head>\n<body>\n<h1>Report of a run</h1>\n",
    )
}

/// Adds what a page begins with.
///
/// # Errors
///
/// `NoMemory` where memory runs out.
#[tactic(auto, unfolding(crate::specs::Html::page_head))]
pub fn add_page_head(out: &mut Vec<u8>) -> Result<(), NoMemory>
    ensures { OnOk result (out.new.items ≡ out.old.items ++ page_head) }
{
    add_page_meta(out)?;
    add_page_style(out)?;
    add_page_start(out)
}
