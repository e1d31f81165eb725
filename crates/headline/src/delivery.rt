//! Writes texts to the sinks.

ghost use Rattle.std.specs.Prelude.{OnOk, OnErr};
ghost use Rattle.headline.specs.Serving.{AreGained, AreTorn};

use commands::Texts;
use outside::{Failed, Sink, write_all};

/// Writes texts, first the whole log and then the output.
///
/// # Errors
///
/// `Failed` comes where a sink failed or took no byte. Then that sink has a proper prefix of its text; where it was the log, the
/// output has nothing.
pub fn deliver<K: Sink, L: Sink>(texts: &Texts, out: &mut K, log: &mut L) -> Result<(), Failed>
    ensures gained { OnOk result (AreGained K.has K.faults out.old out.new L.has L.faults log.old log.new texts.now) }
    ensures torn { OnErr result (AreTorn K.has K.faults out.old out.new L.has L.faults log.old log.new texts.now) }
{
    write_all(log, texts.log.as_slice())?;
    write_all(out, texts.out.as_slice())
}
