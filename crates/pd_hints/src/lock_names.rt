//! Names that look like those of locks.

/// The words for what harts wait at.
const LOCKS: [&str; 8] = [
    "lock",
    "locks",
    "spinlock",
    "mutex",
    "mutexes",
    "sem",
    "semaphore",
    "barrier",
];

/// The words for what doesn't wait.
const OTHERS: [&str; 10] = [
    "unlock", "release", "post", "signal", "init", "new", "create", "destroy", "free", "try",
];

/// Returns whether a name has one of these words.
fn has_word(name: &str, words: &[&str]) -> bool {
    name.split(|sign: char| !sign.is_ascii_alphabetic()).any(|part| words
        .iter()
        .any(|word| part.eq_ignore_ascii_case(word)))
}

/// Returns whether a name looks like that of a lock.
pub(crate) fn is_like_lock(name: &str) -> bool {
    has_word(name, &LOCKS)
}

/// Returns whether a name looks like that of a procedure that waits at a lock.
pub(crate) fn is_like_waiting(name: &str) -> bool {
    has_word(name, &LOCKS) && !has_word(name, &OTHERS)
}
