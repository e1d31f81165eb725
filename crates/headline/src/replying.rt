//! What is to be handed over for words.

ghost use Rattle.std.specs.Prelude.{◌≡◌, IfOk, Result, Err, Some, map, string_bytes};
ghost use Rattle.headline.specs.Serving.{IsReplied, IsReply, told_of};
ghost use Rattle.commands.specs.declared.texts.Texts.{Texts as texts};
ghost use Rattle.refusals.specs.declared.fault.Fault.{Fault as fault};

use crate::answering::answer_words;
use commands::Texts;
use outside::{Files, Gate};
use pn_types::NoMemory;
use refusals::{Fault, Refusal, faults_text};
use std::alloc::Global;
use std::sync::Wait;
use std::thread::Threads;
use whole_run::Progress;

/// A status with the bytes that go with it.
#[derive(Drop)]
pub struct Reply {
    pub status: u8,
    pub texts: Texts,
}

/// Returns the reply of a fault.
fn refuse(alloc: Global, fault: &Fault) -> Result<Reply, NoMemory>
    ensures { IfOk result (IsReply (Err fault.now)) }
{
    Ok(Reply {
        status: fault.status(),
        texts: Texts::output(alloc, faults_text(alloc, fault)?),
    })
}

/// Returns the reply for an answer.
pub(crate) fn reply_to(alloc: Global, answered: Result<Texts, Refusal>) -> Result<Reply, NoMemory>
    ensures { IfOk result (λ reply. (answer : Result texts fault) × (told_of answered ≡ Some answer) × IsReply answer reply) }
{
    match answered {
        Ok(texts) => Ok(Reply { status: 0, texts }),
        Err(Refusal::Fault(fault)) => refuse(alloc, &fault),
        Err(Refusal::NoMemory) => Err(NoMemory {}),
    }
}

/// Returns the status and the bytes that are due for words, which [`paradyn`](crate::paradyn) hands to its sinks. Each quantum is told of
/// to `gate`, as there.
///
/// # Errors
///
/// `NoMemory` where memory runs out.
pub fn reply_for<R: Threads + Wait + Sync, F: Files, G: Gate + Progress + Sync>(
    rt: &R,
    alloc: Global,
    words: &[String],
    files: &mut F,
    gate: &G,
) -> Result<Reply, NoMemory>
    ensures { IsReplied F.holds F.faults files.old files.new (map string_bytes words.now) result }
{
    let answered = answer_words(rt, alloc, words, files, gate);
    reply_to(alloc, answered)
}
