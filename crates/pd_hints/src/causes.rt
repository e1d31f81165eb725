//! Why a metric can't be measured at a focus, in plain words.

/// How a cause begins, and what it means.
struct Cause {
    begins: &'static str,
    says: &'static str,
}

const CAUSES: [Cause; 10] = [
    Cause {
        begins: "no constraint for ",
        says: "The metric can't tell the parts of that hierarchy apart: ask for the whole of it, or give the metric a constraint.",
    },
    Cause {
        begins: "too many sites",
        says: "It would act at more than 4,096 points: ask for a smaller part of /Code.",
    },
    Cause {
        begins: "too many statements",
        says: "More than 32 statements would act at that address: make several metrics of it.",
    },
    Cause {
        begins: "over cost",
        says: "It adds more words at its points than are allowed: ask for a smaller part of /Code.",
    },
    Cause {
        begins: "too many instruments",
        says: "So much isn't measured at once: give --instruments a greater number, or drop something before.",
    },
    Cause {
        begins: "no slot",
        says: "So much isn't measured at once: drop something before, or ask for less.",
    },
    Cause {
        begins: "no room",
        says: "So much isn't measured at once: drop something before, or ask for smaller parts of /Code.",
    },
    Cause {
        begins: "unmovable",
        says: "The word at that address can't be patched: ask for a part of /Code without it.",
    },
    Cause {
        begins: "already shown",
        says: "It is shown at this focus already: ask for it once.",
    },
    Cause {
        begins: "not shown",
        says: "It isn't shown at this focus, so there is nothing to drop.",
    },
];

/// Returns what a cause, as faults and reports tell it, means and what to do, without a line's end.
pub(crate) fn cause_meaning(cause: &str) -> &'static str {
    match CAUSES.iter().find(|row| cause.starts_with(row.begins)) {
        Some(row) => row.says,
        None => "FORMATS.md says what this is.",
    }
}
