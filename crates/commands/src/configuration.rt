//! Configurations from bytes.

ghost use Rattle.std.specs.Prelude.{◌≡◌, ◌≤◌, IfOk, length};
ghost use Rattle.std.specs.List.{AllByRecursion};
ghost use Rattle.mdl_ast.specs.Small.{HasSmall};
ghost use Rattle.commands.specs.Inputs.{MeansConf};
ghost use Rattle.refusals.specs.Kinds.{fault_at};
ghost use Rattle.refusals.specs.Refusals.{Comes};

use mdl_ast::Conf;
use mdl_parse::{ParseError, parse};
use refusals::{ConfFault, ConfKind, Fault, Refusal, syntax_kind};
use std::alloc::Global;

/// The greatest length of a configuration in bytes.
pub const CONFIGURATION_LIMIT: u64 = 1_048_576;

/// Returns the refusal of a configuration at a line and a column.
pub fn bad_configuration(line: u32, col: u32, kind: ConfKind) -> Refusal
    ensures { result ≡ Refusal.Fault (Fault.BadConf (fault_at line col kind)) }
{
    Refusal::Fault(Fault::BadConf(ConfFault { line, col, kind }))
}

/// Returns the configuration of a text.
///
/// # Errors
///
/// `Refusal::NoMemory` where memory runs out, or the text's first fault.
pub fn configuration(alloc: Global, text: &[u8]) -> Result<Conf, Refusal>
    requires { length text.now ≤ CONFIGURATION_LIMIT }
    ensures means { Comes result (MeansConf text.now) }
    ensures few { IfOk result (λ conf. length conf.items ≤ CONFIGURATION_LIMIT) }
    ensures small { IfOk result (λ conf. AllByRecursion HasSmall conf.items) }
{
    match parse(alloc, text) {
        Ok(conf) => Ok(conf),
        Err(ParseError::NoMemory) => Err(Refusal::NoMemory),
        Err(ParseError::Fault(fault)) => {
            Err(bad_configuration(fault.line, fault.col, syntax_kind(fault.kind)))
        }
    }
}
