//! The shipped configuration.

ghost use Rattle.std.specs.Prelude.{◌≡◌, IfOk};
ghost use Rattle.std.specs.List.{AllByRecursion};
ghost use Rattle.mdl_ast.specs.Small.{HasSmall};
ghost use Rattle.mdl_shipped.specs.Shipped.{shipped_conf};

use crate::lines::but_lines;
use crate::text::SHIPPED;
use mdl_ast::Conf;
use mdl_parse::{ParseError, parse};
use pn_types::NoMemory;
use std::alloc::{AllocError, Global};

/// The shipped configuration, metrics first. It is what its text spells, with every line 0.
///
/// # Errors
///
/// Out of memory alone: the text has no fault.
pub fn shipped(alloc: Global) -> Result<Conf, NoMemory>
    ensures conf { IfOk result (λ conf. conf ≡ shipped_conf) }
    ensures small { IfOk result (λ conf. AllByRecursion HasSmall conf.items) }
{
    match parse(alloc, SHIPPED) {
        Ok(conf) => but_lines(alloc, conf),
        Err(ParseError::NoMemory) => Err(AllocError),
        Err(ParseError::Fault(_)) => unreachable!(),
    }
}
