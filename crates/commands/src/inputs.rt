//! What commands read: programs and configurations.

ghost use Rattle.std.specs.Prelude.{◌≤◌, IfOk, length};
ghost use Rattle.std.specs.List.{AllByRecursion};
ghost use Rattle.code_points.specs.Procedures.{AreModulesGood};
ghost use Rattle.mdl_ast.specs.Small.{HasSmall};
ghost use Rattle.commands.specs.Given.{IsUnscratched};
ghost use Rattle.commands.specs.Inputs.{IsProgramContent, IsProgramOfFile, IsElfFile, IsConfiguration, AreInputs};
ghost use Rattle.commands.specs.FileReadings.{reads, Looks};
ghost use Rattle.pn_types.specs.Images.{IsImage};
ghost use Rattle.refusals.specs.Refusals.{Comes};

use crate::configuration::{CONFIGURATION_LIMIT, configuration};
use crate::files::read_file;
use crate::loading::{load, make_file};
use elf_form::MAX_PROGRAM_LEN;
use mdl_ast::Conf;
use outside::Files;
use pn_types::{Image, Seq};
use refusals::{ConfFault, ConfKind, Fault, ProgramFault, Refusal};
use std::alloc::Global;

/// Reads a program file.
///
/// # Errors
///
/// `Refusal::NoMemory` where memory runs out, or the first fault that is due.
pub fn read_program_file<F: Files>(
    alloc: Global,
    files: &mut F,
    name: &str,
) -> Result<Seq<u8>, Refusal>
    ensures content { Comes result (IsProgramContent (reads (F.holds files.old) (F.faults files.old) (F.faults files.new)) name.now) }
    ensures short { IfOk result (λ bytes. length bytes ≤ MAX_PROGRAM_LEN) }
    ensures looks { Looks F.holds F.faults files.old files.new result }
{
    let too_long = Fault::BadProgram(ProgramFault::TooLong);
    read_file(alloc, files, name, MAX_PROGRAM_LEN, too_long)
}

/// Reads a program file, and returns its image.
///
/// # Errors
///
/// `Refusal::NoMemory` where memory runs out, or the first fault that is due.
pub fn read_program<F: Files>(alloc: Global, files: &mut F, name: &str) -> Result<Image, Refusal>
    ensures program { Comes result (IsProgramOfFile (reads (F.holds files.old) (F.faults files.old) (F.faults files.new)) name.now) }
    ensures image { IfOk result IsImage }
    ensures modules { IfOk result AreModulesGood }
    ensures unscratched { IfOk result IsUnscratched }
    ensures looks { Looks F.holds F.faults files.old files.new result }
{
    let bytes = read_program_file(alloc, files, name)?;
    load(alloc, bytes.as_slice())
}

/// Reads an assembly text, and returns its ELF file.
///
/// # Errors
///
/// `Refusal::NoMemory` where memory runs out, or the first fault that is due.
pub fn read_text<F: Files>(alloc: Global, files: &mut F, name: &str) -> Result<Seq<u8>, Refusal>
    ensures file { Comes result (IsElfFile (reads (F.holds files.old) (F.faults files.old) (F.faults files.new)) name.now) }
    ensures looks { Looks F.holds F.faults files.old files.new result }
{
    let bytes = read_program_file(alloc, files, name)?;
    make_file(alloc, bytes.as_slice())
}

/// Reads a configuration.
///
/// # Errors
///
/// `Refusal::NoMemory` where memory runs out, or the first fault that is due.
pub fn read_configuration<F: Files>(
    alloc: Global,
    files: &mut F,
    name: &str,
) -> Result<Conf, Refusal>
    ensures configuration { Comes result (IsConfiguration (reads (F.holds files.old) (F.faults files.old) (F.faults files.new)) name.now) }
    ensures few { IfOk result (λ conf. length conf.items ≤ 1048576) }
    ensures small { IfOk result (λ conf. AllByRecursion HasSmall conf.items) }
    ensures looks { Looks F.holds F.faults files.old files.new result }
{
    let too_long = Fault::BadConf(ConfFault {
        line: 0,
        col: 0,
        kind: ConfKind::TooLong,
    });
    let bytes = read_file(alloc, files, name, CONFIGURATION_LIMIT, too_long)?;
    configuration(alloc, bytes.as_slice())
}

/// A program and a configuration.
#[derive(Drop)]
pub struct Inputs {
    /// The program's image.
    pub image: Image,
    /// The configuration.
    pub conf: Conf,
}

/// Reads a program and then a configuration.
///
/// # Errors
///
/// `NoMemory` where memory runs out, or the first fault that is due.
pub fn read_inputs<F: Files>(
    alloc: Global,
    files: &mut F,
    program: &str,
    conf: &str,
) -> Result<Inputs, Refusal>
    ensures inputs { Comes result (AreInputs (reads (F.holds files.old) (F.faults files.old) (F.faults files.new)) program.now conf.now) }
    ensures image { IfOk result (λ inputs. IsImage inputs.image) }
    ensures modules { IfOk result (λ inputs. AreModulesGood inputs.image) }
    ensures unscratched { IfOk result (λ inputs. IsUnscratched inputs.image) }
    ensures few { IfOk result (λ inputs. length inputs.conf.items ≤ 1048576) }
    ensures small { IfOk result (λ inputs. AllByRecursion HasSmall inputs.conf.items) }
    ensures looks { Looks F.holds F.faults files.old files.new result }
{
    let image = read_program(alloc, files, program)?;
    let conf = read_configuration(alloc, files, conf)?;
    Ok(Inputs { image, conf })
}
