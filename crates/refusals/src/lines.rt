//! The line of each fault.

ghost use Rattle.std.specs.Prelude.{◌≡◌, ◌++◌, OnOk, IfOk};
ghost use Rattle.refusals.specs.Faults.{conf_text, pick_text, fault_line};

use crate::configuration::ConfFault;
use crate::fault::Fault;
use crate::log::{LogCause, add_log};
use crate::program::{ProgramFault, add_number, add_program};
use pn_types::{NoMemory, PickCause, Text};
use std::alloc::Global;

fn bad_program(alloc: Global, fault: ProgramFault) -> Result<Vec<u8>, NoMemory>
    ensures { IfOk result (λ text. text.items ≡ fault_line (Fault.BadProgram fault)) }
{
    let mut line = Vec::new(alloc);
    line.extend_from_slice(b"paradyn: bad program: ")?;
    add_program(alloc, &mut line, fault)?;
    line.extend_from_slice(b"\n")?;
    Ok(line)
}

/// Adds what is wrong with a configuration or with directives, and where.
fn add_configuration(alloc: Global, line: &mut Vec<u8>, fault: ConfFault) -> Result<(), NoMemory>
    ensures { OnOk result (line.new.items ≡ line.old.items ++ conf_text fault) }
{
    add_number(alloc, line, b"line ", fault.line as u128)?;
    add_number(alloc, line, b" column ", fault.col as u128)?;
    line.extend_from_slice(b": ")?;
    line.extend_from_slice(fault.kind.text())
}

fn bad_configuration(alloc: Global, fault: ConfFault) -> Result<Vec<u8>, NoMemory>
    ensures { IfOk result (λ text. text.items ≡ fault_line (Fault.BadConf fault)) }
{
    let mut line = Vec::new(alloc);
    line.extend_from_slice(b"paradyn: bad configuration: ")?;
    add_configuration(alloc, &mut line, fault)?;
    line.extend_from_slice(b"\n")?;
    Ok(line)
}

/// Adds a metric at a focus.
fn add_pick(line: &mut Vec<u8>, metric: &Text, focus: &Text) -> Result<(), NoMemory>
    ensures { OnOk result (line.new.items ≡ line.old.items ++ pick_text metric.now focus.now) }
{
    line.extend_from_slice(metric.bytes())?;
    line.extend_from_slice(b" ")?;
    line.extend_from_slice(focus.bytes())
}

fn bad_pick(
    alloc: Global,
    metric: &Text,
    focus: &Text,
    cause: PickCause,
) -> Result<Vec<u8>, NoMemory>
    ensures { IfOk result (λ text. text.items ≡ fault_line (Fault.BadPick metric.now focus.now cause)) }
{
    let mut line = Vec::new(alloc);
    line.extend_from_slice(b"paradyn: cannot measure ")?;
    add_pick(&mut line, metric, focus)?;
    let end = format!(in alloc; ": {cause}\n")?;
    line.extend_from_slice(end.as_bytes())?;
    Ok(line)
}

fn faulty_log(alloc: Global, place: u64, cause: LogCause) -> Result<Vec<u8>, NoMemory>
    ensures { IfOk result (λ text. text.items ≡ fault_line (Fault.BadLog place cause)) }
{
    let mut line = Vec::new(alloc);
    add_number(alloc, &mut line, b"paradyn: bad log at ", place as u128)?;
    line.extend_from_slice(b": ")?;
    add_log(alloc, &mut line, cause)?;
    line.extend_from_slice(b"\n")?;
    Ok(line)
}

fn bad_directives(alloc: Global, fault: ConfFault) -> Result<Vec<u8>, NoMemory>
    ensures { IfOk result (λ text. text.items ≡ fault_line (Fault.BadDirectives fault)) }
{
    let mut line = Vec::new(alloc);
    line.extend_from_slice(b"paradyn: bad directives: ")?;
    add_configuration(alloc, &mut line, fault)?;
    line.extend_from_slice(b"\n")?;
    Ok(line)
}

fn bad_report(alloc: Global, place: u64) -> Result<Vec<u8>, NoMemory>
    ensures { IfOk result (λ text. text.items ≡ fault_line (Fault.BadReport place)) }
{
    let mut line = Vec::new(alloc);
    add_number(alloc, &mut line, b"paradyn: bad report at ", place as u128)?;
    line.extend_from_slice(b"\n")?;
    Ok(line)
}

fn bad_new_report(alloc: Global, place: u64) -> Result<Vec<u8>, NoMemory>
    ensures { IfOk result (λ text. text.items ≡ fault_line (Fault.BadNewReport place)) }
{
    let mut line = Vec::new(alloc);
    add_number(
        alloc,
        &mut line,
        b"paradyn: bad new report at ",
        place as u128,
    )?;
    line.extend_from_slice(b"\n")?;
    Ok(line)
}

fn bad_lines(alloc: Global, place: u64) -> Result<Vec<u8>, NoMemory>
    ensures { IfOk result (λ text. text.items ≡ fault_line (Fault.BadLines place)) }
{
    let mut line = Vec::new(alloc);
    add_number(
        alloc,
        &mut line,
        b"paradyn: bad line table at ",
        place as u128,
    )?;
    line.extend_from_slice(b"\n")?;
    Ok(line)
}

fn too_many_blocks(alloc: Global, count: u32) -> Result<Vec<u8>, NoMemory>
    ensures { IfOk result (λ text. text.items ≡ fault_line (Fault.TooManyBlocks count)) }
{
    let mut line = Vec::new(alloc);
    add_number(
        alloc,
        &mut line,
        b"paradyn: too many blocks ",
        count as u128,
    )?;
    line.extend_from_slice(b"\n")?;
    Ok(line)
}

/// Returns the line of a fault.
///
/// # Errors
///
/// `NoMemory` where memory runs out.
pub fn faults_text(alloc: Global, fault: &Fault) -> Result<Vec<u8>, NoMemory>
    ensures { IfOk result (λ text. text.items ≡ fault_line fault.now) }
{
    match fault {
        Fault::Usage => Ok(b"paradyn: usage\n".to_vec(alloc)?),
        Fault::FileFault(name) => Ok(unreadable(alloc, name)?),
        Fault::BadProgram(fault) => Ok(bad_program(alloc, *fault)?),
        Fault::BadConf(fault) => Ok(bad_configuration(alloc, *fault)?),
        Fault::BadPick(metric, focus, cause) => Ok(bad_pick(alloc, metric, focus, *cause)?),
        Fault::BadLog(place, cause) => Ok(faulty_log(alloc, *place, *cause)?),
        Fault::TooManyBlocks(count) => Ok(too_many_blocks(alloc, *count)?),
        Fault::BadDirectives(fault) => Ok(bad_directives(alloc, *fault)?),
        Fault::BadReport(place) => Ok(bad_report(alloc, *place)?),
        Fault::BadNewReport(place) => Ok(bad_new_report(alloc, *place)?),
        Fault::NoProcedure(name) => Ok(no_procedure(alloc, name)?),
        Fault::NoLines => Ok(b"paradyn: no line table\n".to_vec(alloc)?),
        Fault::BadLines(place) => Ok(bad_lines(alloc, *place)?),
    }
}

fn unreadable(alloc: Global, name: &Text) -> Result<Vec<u8>, NoMemory>
    ensures { IfOk result (λ text. text.items ≡ fault_line (Fault.FileFault name.now)) }
{
    let mut line = Vec::new(alloc);
    line.extend_from_slice(b"paradyn: cannot read ")?;
    line.extend_from_slice(name.bytes())?;
    line.extend_from_slice(b"\n")?;
    Ok(line)
}

fn no_procedure(alloc: Global, name: &Text) -> Result<Vec<u8>, NoMemory>
    ensures { IfOk result (λ text. text.items ≡ fault_line (Fault.NoProcedure name.now)) }
{
    let mut line = Vec::new(alloc);
    line.extend_from_slice(b"paradyn: no procedure ")?;
    line.extend_from_slice(name.bytes())?;
    line.extend_from_slice(b"\n")?;
    Ok(line)
}
