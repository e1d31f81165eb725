//! What faults mean and what to do, as far as their lines alone tell it.

/// What a fault means: words that its line has, and a line that says it.
struct Meaning {
    has: &'static str,
    says: &'static str,
}

/// Faults whose lines begin alike. Of their meanings the first whose words a line has is the fault's.
struct Topic {
    begins: &'static str,
    meanings: &'static [Meaning],
}

/// What is said where a run does otherwise than a log says.
const OTHER_RUN: &str =
    "The log is of another program or configuration: replay it with those with which it was written.\n";

const PROGRAMS: [Meaning; 22] = [
    Meaning {
        has: "not riscv64",
        says: "Compile all parts with -march=rv64ima -mabi=lp64, and link them with -static -no-pie to one whole program.\n",
    },
    Meaning {
        has: "flags",
        says: "The machine runs rv64ima alone: compile all parts with -march=rv64ima -mabi=lp64, those of libraries too.\n",
    },
    Meaning {
        has: "low segment",
        says: "There is no memory below 0x10000, where -Ttext made the linker put the file's headers: leave -Ttext out.\n",
    },
    Meaning {
        has: "high segment",
        says: "Programs end at 0x60000000: link it to lower addresses, without -Ttext and -Tdata.\n",
    },
    Meaning {
        has: "uses x31 at",
        says: "x31 is kept free for the patches: compile that with -ffixed-x31. A library has to be compiled so as well.\n",
    },
    Meaning {
        has: "uses x31 line",
        says: "x31, which is t6 too, is kept free for the patches: take another register.\n",
    },
    Meaning {
        has: "bad number line",
        says: "A number of that line doesn't fit its instruction: FORMATS.md has the ranges.\n",
    },
    Meaning {
        has: "bad line",
        says: "A program is an ELF file or an assembly text, and no line of such a text is written so: see FORMATS.md.\n",
    },
    Meaning {
        has: "named twice line",
        says: "A label, procedure or object before it has this name.\n",
    },
    Meaning {
        has: "unknown name line",
        says: "The text has no label, procedure or object of that name.\n",
    },
    Meaning {
        has: "out of reach line",
        says: "What it leads to is too far: a branch reaches 4,096 bytes, a jump 1,048,576.\n",
    },
    Meaning {
        has: "no text",
        says: "It has no instructions: nothing was compiled or linked into it.\n",
    },
    Meaning {
        has: "text too long",
        says: "Its instructions have more than 524,288 bytes: leave out what isn't called, as by -Wl,--gc-sections.\n",
    },
    Meaning {
        has: "data too long",
        says: "Its data has more than 16,777,216 bytes.\n",
    },
    Meaning {
        has: "too long",
        says: "The file has more than 33,554,432 bytes.\n",
    },
    Meaning {
        has: "too big",
        says: "Its memory has more than 25,165,824 bytes: make its variables smaller.\n",
    },
    Meaning {
        has: "short",
        says: "The file ends before its parts do: it is only a piece of a program. Make it anew.\n",
    },
    Meaning {
        has: "bad entry",
        says: "It has no _start at which it could begin: link a file that has it too, as `pdcc` does.\n",
    },
    Meaning {
        has: "overlap",
        says: "Two of its parts lie at the same addresses, where -Ttext made the linker put them: leave -Ttext out.\n",
    },
    Meaning {
        has: "two texts",
        says: "Instructions and data lie mixed: give data an address of its own, as by -Wl,-Tdata=0x1000000.\n",
    },
    Meaning {
        has: "text unaligned",
        says: "Its instructions aren't whole words: compile all parts with -march=rv64ima, which has no compressed code.\n",
    },
    Meaning {
        has: "",
        says: "No linker makes such a file by itself: link it anew, without a script of your own.\n",
    },
];

const CONFIGURATIONS: [Meaning; 6] = [
    Meaning {
        has: ": too long",
        says: "The file has more than 1,048,576 bytes.\n",
    },
    Meaning {
        has: ": open string",
        says: "The second quote is missing on that line.\n",
    },
    Meaning {
        has: ": number too large",
        says: "The greatest number is 2147483647.\n",
    },
    Meaning {
        has: ": nesting too deep",
        says: "A statement has at most 16 conditions.\n",
    },
    Meaning {
        has: ": named twice",
        says: "Something before it has this name, maybe what an include stands for, or asks for the same.\n",
    },
    Meaning {
        has: ": cyclic parent",
        says: "Its parent, or a parent of that, is this hypothesis itself.\n",
    },
];

const LOGS: [Meaning; 5] = [
    Meaning {
        has: ": bad head",
        says: "The file is no log: `run` and `live` write one with --log FILE.\n",
    },
    Meaning {
        has: ": owns",
        says: OTHER_RUN,
    },
    Meaning {
        has: ": hart",
        says: OTHER_RUN,
    },
    Meaning {
        has: ": unfinished",
        says: OTHER_RUN,
    },
    Meaning {
        has: "",
        says: "The file was changed, or is only a piece of a log: write it anew.\n",
    },
];

const TOPICS: [Topic; 12] = [
    Topic {
        begins: "usage",
        meanings: &[Meaning {
            has: "",
            says: "The words are none of paradyn's: see `pd --help`.\n",
        }],
    },
    Topic {
        begins: "cannot read ",
        meanings: &[Meaning {
            has: "",
            says: "There is no such file, it is a folder, or it may not be read.\n",
        }],
    },
    Topic {
        begins: "bad program: ",
        meanings: &PROGRAMS,
    },
    Topic {
        begins: "bad configuration: ",
        meanings: &CONFIGURATIONS,
    },
    Topic {
        begins: "bad directives: ",
        meanings: &CONFIGURATIONS,
    },
    Topic {
        begins: "bad log at ",
        meanings: &LOGS,
    },
    Topic {
        begins: "too many blocks ",
        meanings: &[Meaning {
            has: "",
            says: "At most 4,094 basic blocks can be counted: leave out what isn't called, as by -Wl,--gc-sections.\n",
        }],
    },
    Topic {
        begins: "bad report at ",
        meanings: &[Meaning {
            has: "",
            says: "The file isn't what `run`, `live`, `replay` or `direct` prints, or it was changed.\n",
        }],
    },
    Topic {
        begins: "bad new report at ",
        meanings: &[Meaning {
            has: "",
            says: "The second file isn't what `run`, `live`, `replay` or `direct` prints, nor a profile where the first is one, or it was changed.\n",
        }],
    },
    Topic {
        begins: "no line table",
        meanings: &[Meaning {
            has: "",
            says: "Compile it with -g, and link it without -s: only then does it say which lines its instructions come from.\n",
        }],
    },
    Topic {
        begins: "bad line table at ",
        meanings: &[Meaning {
            has: "",
            says: "Only DWARF 4 and 5 are read, as gcc writes them with -gdwarf-4 and -gdwarf-5.\n",
        }],
    },
    Topic {
        begins: "no procedure ",
        meanings: &[Meaning {
            has: "",
            says: "`pd profile PROGRAM` lists the procedures, each as MODULE/NAME; NAME alone is enough.\n",
        }],
    },
];

/// Returns what a fault means, of which this is the line after `paradyn: `; nothing where the line says all.
pub(crate) fn fault_meaning(fault: &str) -> &'static str {
    let Some(topic) = TOPICS.iter().find(|topic| fault.starts_with(topic.begins)) else {
        return "";
    };
    match topic.meanings.iter().find(|row| fault.contains(row.has)) {
        Some(row) => row.says,
        None => "",
    }
}
