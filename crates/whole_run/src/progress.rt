//! Who is told how far a run is.

use outside::OpenGate;
use session::Session;

/// Somebody who is told, while a run goes on, how far it is.
pub trait Progress {
    /// Is called after each quantum, with the session after it. It may say what it sees, and changes nothing of the run.
    fn see(&self, session: &Session);
}

/// Nothing is said.
impl Progress for OpenGate {
    fn see(&self, _session: &Session) {}
}
