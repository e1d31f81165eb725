//! What of a program's code would mislead.

use crate::counted_names::COUNTED;
use crate::findings::add_finding;
use crate::program_names::proc_name;
use crate::steps::{FRAME, RETURN_ADDRESS, Step, steps, steps_of};
use pn_types::{Image, NoMemory, Proc};
use std::alloc::Global;

/// What can mislead of a procedure.
#[derive(Clone, Copy, Drop)]
enum Flaw {
    /// It goes on in another procedure in place of returning.
    TailCall,
    /// It calls, and has no frame by which its caller is found.
    NoFrame,
    /// It keeps something else in the frame pointer's register.
    OtherFrame,
    /// It has a name that the shipped metrics count, and nothing calls it.
    NoCall,
}

/// A flaw, and what is said of the procedures that have it.
struct FlawRow {
    flaw: Flaw,
    what: &'static str,
    says: &'static str,
}

const FLAWS: [FlawRow; 4] = [
    FlawRow {
        flaw: Flaw::TailCall,
        what: "tail calls in",
        says: "their time ends early or never; compile with -fno-optimize-sibling-calls",
    },
    FlawRow {
        flaw: Flaw::NoFrame,
        what: "no frames in",
        says: "what is measured from mid-run on doesn't see who called them; compile with -fno-omit-frame-pointer",
    },
    FlawRow {
        flaw: Flaw::OtherFrame,
        what: "s0 is no frame pointer in",
        says: "what starts to be measured in mid-run takes it for one, and may count a procedure that nobody entered; compile with -fno-omit-frame-pointer, or take --start cold",
    },
    FlawRow {
        flaw: Flaw::NoCall,
        what: "no calls of",
        says: "maybe the compiler put them into their callers, where nothing is counted; write __attribute__((noinline)) before them",
    },
];

/// A program's procedures and words.
#[derive(Clone, Copy, Drop)]
struct Code<'a> {
    image: &'a Image,
    procs: &'a [Proc],
    steps: &'a [Step],
}

impl<'a> Code<'a> {
    fn has_tail_call(&self, proc: &Proc) -> bool {
        let steps = steps_of(self.image, self.steps, proc);
        let returns = steps.iter().any(|step| step.returns());
        steps.iter().any(|step| step.leaves(proc) || !returns && step.leads_anywhere())
    }

    fn lacks_frame(&self, proc: &Proc) -> bool {
        let steps = steps_of(self.image, self.steps, proc);
        let has_frame = steps.iter().any(|step| step.sets_frame())
            && steps.iter().any(|step| step.keeps(RETURN_ADDRESS))
            && steps.iter().any(|step| step.keeps(FRAME));
        proc_name(proc) != "_start" && !has_frame && steps.iter().any(|step| step.calls())
    }

    fn has_other_frame(&self, proc: &Proc) -> bool {
        steps_of(self.image, self.steps, proc)
            .iter()
            .any(|step| step.takes_frame())
    }

    fn lacks_call(&self, proc: &Proc) -> bool {
        COUNTED.contains(&proc_name(proc))
            && !self.steps.iter().any(|step| step.reaches(proc.start))
    }

    /// Returns whether a procedure has a flaw.
    fn has(&self, flaw: Flaw, proc: &Proc) -> bool {
        match flaw {
            Flaw::TailCall => self.has_tail_call(proc),
            Flaw::NoFrame => self.lacks_frame(proc),
            Flaw::OtherFrame => self.has_other_frame(proc),
            Flaw::NoCall => self.lacks_call(proc),
        }
    }

    /// Returns the names of the procedures that have a flaw.
    fn names_with(&self, alloc: Global, flaw: Flaw) -> Result<Vec<&'a str>, NoMemory> {
        let mut names = Vec::new(alloc);
        for proc in self.procs {
            if self.has(flaw, proc) {
                names.push(proc_name(proc))?;
            }
        }
        Ok(names)
    }

    /// Returns whether data is reached by gp, and nothing sets gp.
    fn lacks_global(&self) -> bool {
        self.steps.iter().any(|step| step.uses_global())
            && !self.steps.iter().any(|step| step.sets_global())
    }
}

/// Adds a line on each finding on a program's code.
pub(crate) fn add_code_findings(
    alloc: Global,
    text: &mut String,
    image: &Image,
    procs: &[Proc],
) -> Result<(), NoMemory> {
    let steps = steps(alloc, image)?;
    let code = Code {
        image,
        procs,
        steps: &steps,
    };
    if procs.is_empty() {
        text.push_str(
            "pd: no procedures: the program is stripped, so nothing below /Code can be measured; link it without -s\n",
        )?;
    }
    if code.lacks_global() {
        text.push_str(
            "pd: gp is used and never set: the first access to data fails; link with -mno-relax\n",
        )?;
    }
    for row in &FLAWS {
        add_finding(
            alloc,
            text,
            row.what,
            &code.names_with(alloc, row.flaw)?,
            row.says,
        )?;
    }
    Ok(())
}
