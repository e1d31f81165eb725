//! What of a program and a configuration would mislead.

ghost use Rattle.std.specs.Prelude.{◌≤◌, IfOk, length};
ghost use Rattle.std.specs.List.{AllByRecursion};
ghost use Rattle.code_points.specs.Procedures.{AreModulesGood};
ghost use Rattle.commands.specs.Given.{IsUnscratched};
ghost use Rattle.mdl_ast.specs.Small.{HasSmall};
ghost use Rattle.pn_types.specs.Images.{IsImage};

use crate::code_findings::add_code_findings;
use crate::contents::{PROGRAM_LIMIT, inputs_of};
use crate::counted_names::CountedNames;
use crate::name_findings::{Names, add_name_findings};
use crate::plan_findings::{Plans, add_plan_findings};
use crate::program_names::{proc_name, variable_name};
use code_points::objects;
use headline::{Found, Inputs, find, read_inputs};
use mdl_check::prefixes;
use mdl_plan::PlanIndex;
use mdl_shipped::shipped;
use outside::{Files, ReadFault, read_whole};
use pn_types::{MAX_HARTS, NoMemory, Text};
use refusals::{Fault, ProgramFault, Refusal};
use std::alloc::Global;

/// The configuration under which a program is looked at where none is named.
const SHIPPED_METRICS: &[u8] = b"include metrics;\ninclude hypotheses;\n";

/// Reads a program, with the shipped configuration.
fn read_program<F: Files>(alloc: Global, program: &str, files: &mut F) -> Result<Inputs, Refusal>
    ensures image { IfOk result (λ inputs. IsImage inputs.image) }
    ensures modules { IfOk result (λ inputs. AreModulesGood inputs.image) }
    ensures unscratched { IfOk result (λ inputs. IsUnscratched inputs.image) }
    ensures few { IfOk result (λ inputs. length inputs.conf.items ≤ 1048576) }
    ensures small { IfOk result (λ inputs. AllByRecursion HasSmall inputs.conf.items) }
{
    let name = Text::from_vec(program.as_bytes().to_vec(alloc)?);
    match read_whole(alloc, files, program, PROGRAM_LIMIT) {
        Ok(bytes) => inputs_of(alloc, &bytes, SHIPPED_METRICS),
        Err(ReadFault::NoMemory) => Err(Refusal::NoMemory),
        Err(ReadFault::Outside) => Err(Refusal::Fault(Fault::FileFault(name))),
        Err(ReadFault::TooLong) => Err(Refusal::Fault(Fault::BadProgram(ProgramFault::TooLong))),
    }
}

/// Reads a program and the configuration of a name, or the shipped one.
fn read<F: Files>(
    alloc: Global,
    program: &str,
    conf: Option<&str>,
    files: &mut F,
) -> Result<Inputs, Refusal>
    ensures image { IfOk result (λ inputs. IsImage inputs.image) }
    ensures modules { IfOk result (λ inputs. AreModulesGood inputs.image) }
    ensures unscratched { IfOk result (λ inputs. IsUnscratched inputs.image) }
    ensures few { IfOk result (λ inputs. length inputs.conf.items ≤ 1048576) }
    ensures small { IfOk result (λ inputs. AllByRecursion HasSmall inputs.conf.items) }
{
    match conf {
        Some(conf) => read_inputs(alloc, files, program, conf),
        None => read_program(alloc, program, files),
    }
}

/// Adds a line on each finding on the names of a program.
fn add_names(
    alloc: Global,
    text: &mut String,
    inputs: &Inputs,
    found: &Found,
) -> Result<(), NoMemory> {
    let objects = objects(alloc, &inputs.image)?;
    let prefixes = prefixes(alloc, &inputs.conf, &shipped(alloc)?)?;
    let procs: Vec<&str> = found.procs.as_slice().iter().map(proc_name).collect(alloc)?;
    let variables: Vec<&str> = objects.iter().map(variable_name).collect(alloc)?;
    let names = Names {
        procs: &procs,
        variables: &variables,
        prefixes: &prefixes,
    };
    let counted = CountedNames::of(alloc, &inputs.conf)?;
    add_name_findings(alloc, text, &names, &counted)
}

/// Returns a line on each thing that would mislead in a run of a program on so many harts, under the configuration of a name or else under
/// the shipped one; and where there is nothing, a line that says so.
///
/// # Errors
///
/// As of a run: `Refusal::NoMemory` where memory runs out, or the first fault of the program or the configuration.
pub fn check<F: Files>(
    alloc: Global,
    program: &str,
    conf: Option<&str>,
    harts: u32,
    files: &mut F,
) -> Result<String, Refusal>
    requires { harts ≤ MAX_HARTS }
{
    let inputs = read(alloc, program, conf, files)?;
    let found = find(alloc, &inputs.image, harts, &inputs.conf)?;
    let mut text = String::new(alloc);
    add_code_findings(alloc, &mut text, &inputs.image, found.procs.as_slice())?;
    add_names(alloc, &mut text, &inputs, &found)?;
    let index = PlanIndex::new(alloc, found.procs, found.points)?;
    let plans = Plans {
        checked: &found.checked,
        tree: &found.tree,
        index: &index,
    };
    add_plan_findings(alloc, &mut text, &plans, inputs.conf.items.as_slice())?;
    if text.is_empty() {
        text.push_str("pd: nothing found that would mislead\n")?;
    }
    Ok(text)
}
