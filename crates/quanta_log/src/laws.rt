//! What holds of every log.

ghost use Rattle.quanta_log.specs.Laws.{IsReadAgain, IsSpelled, IsOne};

/// What is spelled is read as what was spelled, in each version.
pub fn spelled_is_read()
    ensures { IsReadAgain }
{}

/// Bytes that are read as settings and quanta are their spelling in the version as which they begin, and no other bytes of
/// that version are read as them.
pub fn bytes_are_spelled()
    ensures spelled { IsSpelled }
    ensures one { IsOne }
{}
