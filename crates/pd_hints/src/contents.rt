//! The files of a call, which are read again.

ghost use Rattle.std.specs.Prelude.{◌≤◌, IfOk, IfSome, length};
ghost use Rattle.std.specs.List.{AllByRecursion};
ghost use Rattle.code_points.specs.Procedures.{AreModulesGood};
ghost use Rattle.commands.specs.Given.{IsUnscratched};
ghost use Rattle.mdl_ast.specs.Small.{HasSmall};
ghost use Rattle.pd_hints.specs.Readings.{OnlyReads};
ghost use Rattle.pn_types.specs.Images.{IsImage};

use crate::calls::Call;
use headline::{Inputs, read_inputs};
use outside::{Files, ReadFault, SureFiles, read_whole};
use pn_types::NoMemory;
use refusals::Refusal;
use std::alloc::{AllocError, Global};

/// The greatest length of a program, in bytes.
pub(crate) const PROGRAM_LIMIT: u64 = 33_554_432;

/// The greatest length of a configuration or of directives, in bytes.
const CONFIGURATION_LIMIT: u64 = 1_048_576;

/// The configuration of the shipped metrics alone.
const SHIPPED_METRICS: &[u8] = b"include metrics;\n";

/// The bytes of a call's files; none of one that isn't named or can't be read whole.
#[derive(Drop)]
pub(crate) struct Contents {
    pub(crate) program: Option<Vec<u8>>,
    pub(crate) conf: Option<Vec<u8>>,
    pub(crate) directives: Option<Vec<u8>>,
}

/// Reads the file of a name, where there is one.
fn read_bytes<F: Files>(
    alloc: Global,
    files: &mut F,
    name: Option<&str>,
    most: u64,
) -> Result<Option<Vec<u8>>, NoMemory>
    ensures { OnlyReads F.holds F.faults files.old files.new }
{
    let Some(name) = name else {
        return Ok(None);
    };
    match read_whole(alloc, files, name, most) {
        Ok(bytes) => Ok(Some(bytes)),
        Err(ReadFault::NoMemory) => Err(AllocError),
        Err(ReadFault::Outside | ReadFault::TooLong) => Ok(None),
    }
}

/// Reads the files that a call names.
pub(crate) fn read_contents<F: Files>(
    alloc: Global,
    files: &mut F,
    call: &Call<'_>,
) -> Result<Contents, NoMemory>
    ensures { OnlyReads F.holds F.faults files.old files.new }
{
    let program = read_bytes(alloc, files, call.program, PROGRAM_LIMIT)?;
    let mut conf = read_bytes(alloc, files, call.conf, CONFIGURATION_LIMIT)?;
    let directives = read_bytes(alloc, files, call.directives, CONFIGURATION_LIMIT)?;
    if call.is_shipped {
        conf = Some(SHIPPED_METRICS.to_vec(alloc)?);
    }
    Ok(Contents {
        program,
        conf,
        directives,
    })
}

/// Returns the program and the configuration that bytes are.
pub(crate) fn inputs_of(alloc: Global, program: &[u8], conf: &[u8]) -> Result<Inputs, Refusal>
    ensures image { IfOk result (λ inputs. IsImage inputs.image) }
    ensures modules { IfOk result (λ inputs. AreModulesGood inputs.image) }
    ensures unscratched { IfOk result (λ inputs. IsUnscratched inputs.image) }
    ensures few { IfOk result (λ inputs. length inputs.conf.items ≤ 1048576) }
    ensures small { IfOk result (λ inputs. AllByRecursion HasSmall inputs.conf.items) }
{
    let mut files = SureFiles::new(alloc);
    files.give(alloc, "program", program.to_vec(alloc)?)?;
    files.give(alloc, "configuration", conf.to_vec(alloc)?)?;
    read_inputs(alloc, &mut files, "program", "configuration")
}

impl Contents {
    /// Returns the program and the configuration, if both are there and have no fault of form.
    pub(crate) fn inputs(&self, alloc: Global) -> Result<Option<Inputs>, NoMemory>
        ensures { IfOk result (λ inputs. IfSome inputs (λ inputs. IsImage inputs.image)) }
    {
        let (Some(program), Some(conf)) = (&self.program, &self.conf) else {
            return Ok(None);
        };
        match inputs_of(alloc, program, conf) {
            Ok(inputs) => Ok(Some(inputs)),
            Err(Refusal::NoMemory) => Err(AllocError),
            Err(Refusal::Fault(_)) => Ok(None),
        }
    }
}
