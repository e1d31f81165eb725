//! Where a search says something of a procedure that the program doesn't enter.

ghost use Rattle.pn_types.specs.Images.{IsImage};

use crate::contents::inputs_of;
use crate::program_names::{module_name, proc_name};
use crate::texts::add;
use code_points::procedures;
use entered::is_entered;
use pn_types::{Image, MAX_HARTS, NoMemory, Proc, Quantum, Settings};
use quanta_log::{LogError, read};
use refusals::Refusal;
use std::alloc::{AllocError, Global};

/// For how many procedures the program is run again at most.
const MOST_RUNS: usize = 16;

/// How many ticks a quantum has at most.
const MOST_OWNS: u64 = 65_535;

/// A true node of a search, at a procedure.
#[derive(Clone, Copy, Drop)]
struct TrueNode<'a> {
    hypothesis: &'a str,
    module: &'a str,
    procedure: &'a str,
}

/// Returns the true node at a procedure that a line of a report is of, if it is of one.
fn true_node<'a>(line: &'a str) -> Option<TrueNode<'a>> {
    let (node, _) = line.strip_prefix("node ")?.split_once(" true value ")?;
    let (front, focus) = node.rsplit_once(' ')?;
    let (_, hypothesis) = front.rsplit_once(' ')?;
    let code = focus.strip_prefix("/Code/")?.split(',').next()?;
    let (module, procedure) = code.split_once('/')?;
    Some(TrueNode {
        hypothesis,
        module,
        procedure,
    })
}

/// Returns whether a line of a report is of a true node at a procedure.
pub(crate) fn has_true_node(line: &str) -> bool {
    true_node(line).is_some()
}

/// Returns the first true node at each procedure, of the lines of a report.
fn true_nodes<'a>(alloc: Global, lines: &[&'a str]) -> Result<Vec<TrueNode<'a>>, NoMemory> {
    let mut nodes: Vec<TrueNode<'a>> = Vec::new(alloc);
    for node in lines.iter().filter_map(|line| true_node(line)) {
        if !nodes.iter().any(|other| other.module == node.module
            && other.procedure == node.procedure)
        {
            nodes.push(node)?;
        }
    }
    Ok(nodes)
}

/// Returns the number and the ticks of the hart that a line of a report is of, if it is of one.
fn hart_ticks(line: &str) -> Option<(u8, u64)> {
    let (number, rest) = line.strip_prefix("hart ")?.split_once(" ticks ")?;
    let (ticks, _) = rest.split_once(' ')?;
    Some((number.parse().ok()?, ticks.parse().ok()?))
}

/// Adds quanta by which a hart goes on to so many ticks.
fn add_rest(quanta: &mut Vec<Quantum>, hart: u8, ticks: u64) -> Result<(), NoMemory> {
    let mut left = ticks;
    for quantum in quanta.iter().filter(|quantum| quantum.hart == hart) {
        left = left.saturating_sub(quantum.owns as u64);
    }
    for _ in 0..=left / MOST_OWNS {
        let owns = left.min(MOST_OWNS);
        quanta.push(Quantum {
            worker: 0,
            hart,
            turns: 1,
            owns: owns as u16,
        })?;
        left -= owns;
    }
    Ok(())
}

/// A run, by its log, in which each hart goes on to the ticks that the report says.
#[derive(Drop)]
struct Recording {
    settings: Settings,
    quanta: Vec<Quantum>,
}

/// Returns the run of a log and of the lines of its report, if the bytes are a log.
fn recording_of(alloc: Global, log: &[u8], lines: &[&str]) -> Result<Option<Recording>, NoMemory> {
    let (settings, mut quanta) = match read(alloc, log) {
        Ok(recording) => recording,
        Err(LogError::NoMemory) => return Err(AllocError),
        Err(LogError::Fault(_)) => return Ok(None),
    };
    for (hart, ticks) in lines.iter().filter_map(|line| hart_ticks(line)) {
        add_rest(&mut quanta, hart, ticks)?;
    }
    Ok(Some(Recording { settings, quanta }))
}

impl Recording {
    /// Returns whether the program alone, in the order of the run, executes the first word of a procedure.
    fn enters(&self, alloc: Global, image: &Image, proc: &Proc) -> Result<bool, NoMemory>
        requires { IsImage image.now }
    {
        let harts = self.settings.harts.min(MAX_HARTS);
        is_entered(
            alloc,
            image,
            harts,
            self.settings.budget,
            &self.quanta,
            proc.start,
        )
    }

    /// Adds a line on a node, if the program alone doesn't enter its procedure.
    fn add_node(
        &self,
        alloc: Global,
        text: &mut String,
        image: &Image,
        procs: &[Proc],
        node: &TrueNode<'_>,
    ) -> Result<(), NoMemory>
        requires { IsImage image.now }
    {
        let found = procs.iter().find(|proc| proc_name(proc) == node.procedure
            && module_name(proc) == node.module);
        match found {
            Some(proc) if !self.enters(alloc, image, proc)? => add(
                text,
                "pd: {} at /Code/{}/{} is true, but the program alone doesn't enter {} in this order: what starts to be measured in mid-run believes s0; see pd check, or take --start cold\n",
                &[node.hypothesis, node.module, node.procedure, node.procedure],
            ),
            Some(_) | None => Ok(()),
        }
    }
}

/// Adds a line on each true node of a report's lines whose procedure the program alone doesn't enter, where it runs in the order of a log.
pub(crate) fn add_unentered(
    alloc: Global,
    text: &mut String,
    lines: &[&str],
    log: &[u8],
    program: &[u8],
) -> Result<(), NoMemory> {
    let nodes = true_nodes(alloc, lines)?;
    let Some(recording) = recording_of(alloc, log, lines)? else {
        return Ok(());
    };
    let inputs = match inputs_of(alloc, program, b"") {
        Ok(inputs) => inputs,
        Err(Refusal::NoMemory) => return Err(AllocError),
        Err(Refusal::Fault(_)) => return Ok(()),
    };
    let (procs, _) = procedures(alloc, &inputs.image)?;
    for node in nodes.iter().take(MOST_RUNS) {
        recording.add_node(alloc, text, &inputs.image, &procs, node)?;
    }
    Ok(())
}
