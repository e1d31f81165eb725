//! The words for how a session starts.

use pn_types::Start;

/// Returns the word for a start.
pub fn start_text(start: Start) -> &'static str {
    match start {
        Start::Cold => "cold",
        Start::Warm => "warm",
    }
}
