//! Writing all bytes to a sink.

ghost use Rattle.std.specs.Prelude.{◌≡◌, ◌<◌, ℕ, length, take, OnOk, OnErr};
ghost use Rattle.std.specs.Io.KnownBytes.{append_known};
ghost use Rattle.outside.specs.Causes.{HasCause};

use crate::{Failed, Sink};

/// Writes all the bytes, in as many pieces as the sink takes.
///
/// # Errors
///
/// `Failed` comes where a writing failed or took no byte. The sink's count of faults rose then, and it has fewer
/// bytes than all, from their front.
pub fn write_all<K: Sink>(sink: &mut K, bytes: &[u8]) -> Result<(), Failed>
    ensures all { OnOk result (K.has sink.new ≡ append_known (K.has sink.old) bytes.now) }
    ensures part { OnErr result ((n : ℕ) × (n < length bytes.now)
        × (K.has sink.new ≡ append_known (K.has sink.old) (take n bytes.now))) }
    ensures cause { HasCause (K.faults sink.old) (K.faults sink.new) result }
    ensures calm { OnOk result (K.faults sink.new ≡ K.faults sink.old) }
{
    let mut done = 0;
    while done < bytes.len() {
        match sink.write(&bytes[done..]) {
            Ok(0) => return Err(Failed),
            Ok(count) => done += count,
            Err(fault) => return Err(fault),
        }
    }
    Ok(())
}
