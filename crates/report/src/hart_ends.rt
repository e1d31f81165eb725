//! How harts ended.

ghost use Rattle.std.specs.Prelude.{◌≡◌};
ghost use Rattle.report.specs.HartEnds.{hart_end};

use pn_types::StopText;
use rv_word::Cause;

/// How a hart ended: by what stopped it, if anything did, and by whether its ticks let it go on.
pub fn hart_end(stop: Option<Cause>, going: bool) -> StopText
    ensures { result ≡ hart_end stop going }
{
    match stop {
        None if going => StopText::Cut,
        None => StopText::Budget,
        Some(Cause::Exit(status)) => StopText::Exit(status),
        Some(Cause::Illegal) => StopText::Illegal,
        Some(Cause::Break) => StopText::Break,
        Some(Cause::Misaligned) => StopText::Misaligned,
        Some(Cause::Access(at)) => StopText::Access(at),
        Some(Cause::TextAccess(at)) => StopText::TextAccess(at),
        Some(Cause::FetchOutside) => StopText::FetchOutside,
    }
}
