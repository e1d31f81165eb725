//! What holds of the definitions of reading.

ghost use Rattle.profile_reader.specs.Laws.{ProfileIsSpelled};

/// Bytes from which a profile is read are its text.
pub fn profile_is_spelled()
    ensures { ProfileIsSpelled }
{}
