//! Whether standard output and standard error are terminals.

use std::fs;

/// The name that the system has for standard output.
pub const STANDARD_OUTPUT: &str = "/proc/self/fd/1";

/// The name that the system has for standard error.
pub const STANDARD_ERROR: &str = "/proc/self/fd/2";

/// How the names of terminals begin.
const TERMINALS: [&str; 3] = ["/dev/pts/", "/dev/tty", "/dev/console"];

/// Returns whether what the system has under a name is a terminal, as far as the system tells.
pub fn is_terminal(rt: &HostRuntime, name: &str) -> bool {
    let Ok(path) = fs::read_link(rt, name) else {
        return false;
    };
    match path.as_path().to_str() {
        Some(path) => TERMINALS.iter().any(|name| path.starts_with(*name)),
        None => false,
    }
}
