//! Walks over a stack that is laid out by hand. main, at 0x10000, has called f, at 0x1000c, whose frame is the 16 bytes
//! below the end of the stack; main has none. At 0x10020 f calls g, at 0x10034, which lays out none.

ghost use Rattle.std.specs.Prelude.{IfOk};
ghost use Rattle.std.specs.List.{AllByRecursion};
ghost use Rattle.pn_types.specs.Images.{IsImage};
ghost use Rattle.frame_walk.specs.Rooms.{IsSmall};

use crate::comparison::compare;
use frame_walk::{WalkStart, open_values};
use pn_types::{Act, Cmp, Cond, Image, Left, NoMemory, Open, Segment, Seq, Stmt, Text, Var};
use rv_mem::{FIRST_STACK_AT, Mem, STACK_LEN};
use std::alloc::Global;

/// Where the stack ends: the frame pointer of f.
const STACK_END: u64 = FIRST_STACK_AT + STACK_LEN as u64;

/// Returns a text of 68 bytes.
fn image(alloc: Global) -> Result<Image, NoMemory>
    ensures { IfOk result IsImage }
{
    let mut segments = Vec::new(alloc);
    segments.push(Segment {
        at: 0x10000,
        bytes: Seq::from_vec(vec![in alloc; 0; 68]?),
        size: 68,
    })?;
    Ok(Image {
        segments: Seq::from_vec(segments),
        text_at: 0x10000,
        text_len: 68,
        entry: 0x10000,
        symbols: Seq::from_vec(Vec::new(alloc)),
    })
}

/// Returns a stack on which f was called from main, with this return address and next frame pointer in its last 16 bytes.
fn stack(alloc: Global, frame: (u64, u64)) -> Result<Mem, NoMemory> {
    let mut mem = Mem::new(alloc, &image(alloc)?, 1)?;
    let _stored = mem.store(STACK_END - 8, 8, frame.0);
    let _stored = mem.store(STACK_END - 16, 8, frame.1);
    Ok(mem)
}

/// A procedure: its first address, its length, and whether an argument is asked for at its entry.
#[derive(Clone, Copy, Drop)]
struct Procedure {
    start: u64,
    len: u64,
    asks: bool,
}

const MAIN: Procedure = Procedure {
    start: 0x10000,
    len: 12,
    asks: false,
};

const F: Procedure = Procedure {
    start: 0x1000c,
    len: 40,
    asks: false,
};

const G: Procedure = Procedure {
    start: 0x10034,
    len: 16,
    asks: false,
};

const ASKING_F: Procedure = Procedure { asks: true, ..F };

/// Returns the conditions at the entry.
fn conds(alloc: Global, asks: bool) -> Result<Vec<Cond>, NoMemory> {
    let mut conds = Vec::new(alloc);
    if asks {
        conds.push(Cond {
            left: Left::Argument(0),
            cmp: Cmp::Ge,
            right: 0,
        })?;
    }
    Ok(conds)
}

/// Returns the procedure, at whose entry the timer is started.
fn timed(alloc: Global, procedure: Procedure) -> Result<Vec<Open>, NoMemory>
    ensures { IfOk result (λ opens. AllByRecursion IsSmall opens.items) }
{
    let mut stmts = Vec::new(alloc);
    stmts.push(Stmt {
        conds: Seq::from_vec(conds(alloc, procedure.asks)?),
        act: Act::Start(0),
    })?;
    let mut opens = Vec::new(alloc);
    opens.push(Open {
        start: procedure.start,
        len: procedure.len,
        stmts: Seq::from_vec(stmts),
    })?;
    Ok(opens)
}

/// A return address and a next frame pointer in the last 16 bytes of the stack, the procedure that is timed, where the hart is, and
/// how many starts the timer has then, of none initially.
type Row = ((u64, u64), Procedure, Option<WalkStart>, u64);

/// The frame of f, which main called.
const FRAME: (u64, u64) = (0x10004, 0);

/// Inside g.
const INSIDE: WalkStart = WalkStart {
    pc: 0x10038,
    ra: 0x10024,
    fp: STACK_END,
};

/// At the first word of f, whose entry is still to come.
const BEFORE: WalkStart = WalkStart {
    pc: 0x1000c,
    ra: 0x10004,
    fp: 0,
};

/// In f before its call, where x1 holds the frame's return address.
const CALLING: WalkStart = WalkStart {
    pc: 0x10020,
    ra: 0x10004,
    fp: STACK_END,
};

/// In f after its call.
const BEHIND: WalkStart = WalkStart {
    pc: 0x10024,
    ra: 0x10024,
    fp: STACK_END,
};

/// Inside g, with a frame pointer into the text.
const FRAME_IN_TEXT: WalkStart = WalkStart {
    fp: 0x10020,
    ..INSIDE
};

/// Inside g, with a frame pointer to nothing.
const FRAME_NOWHERE: WalkStart = WalkStart {
    fp: 0x5000_0000,
    ..INSIDE
};

const ROWS: [Row; 15] = [
    (FRAME, G, Some(INSIDE), 1),
    (FRAME, F, Some(INSIDE), 1),
    (FRAME, MAIN, Some(INSIDE), 1),
    (FRAME, F, Some(BEFORE), 0),
    (FRAME, MAIN, Some(BEFORE), 1),
    (FRAME, MAIN, Some(CALLING), 1),
    (FRAME, F, Some(BEHIND), 1),
    (FRAME, G, Some(BEHIND), 0),
    // stopped
    (FRAME, F, None, 0),
    // a frame whose next is itself, and a return address outside the text
    ((0x10004, STACK_END), MAIN, Some(INSIDE), 1),
    ((0x10048, 0), MAIN, Some(INSIDE), 0),
    (FRAME, MAIN, Some(FRAME_IN_TEXT), 0),
    (FRAME, MAIN, Some(FRAME_NOWHERE), 0),
    (FRAME, F, Some(FRAME_NOWHERE), 1),
    (FRAME, ASKING_F, Some(INSIDE), 0),
];

/// Returns how many starts the timer has after its opening.
fn starts(alloc: Global, row: &Row) -> Result<u64, NoMemory> {
    let (frame, procedure, start, _) = *row;
    let opens = timed(alloc, procedure)?;
    let mem = stack(alloc, frame)?;
    let vars = [Var {
        name: Text::from_vec(Vec::new(alloc)),
        timer: true,
        initially: 0,
    }];
    Ok(open_values(&mem, &opens, start, &vars).get(0))
}

/// Returns the place of the first row whose timer has another number of starts.
fn first_other(alloc: Global) -> Result<Option<usize>, NoMemory> {
    for (place, row) in ROWS.iter().enumerate() {
        if starts(alloc, row)? != row.3 {
            return Ok(Some(place));
        }
    }
    Ok(None)
}

#[test]
fn opens_what_was_called(rt: HostRuntime) {
    compare(&rt, first_other(rt.alloc()), Ok(None));
}

/// Returns a statement that acts where a counter is 1, or always.
fn statement(alloc: Global, counter: Option<u32>, act: Act) -> Result<Stmt, NoMemory> {
    let mut conds = Vec::new(alloc);
    if let Some(counter) = counter {
        conds.push(Cond {
            left: Left::Counter(counter),
            cmp: Cmp::Eq,
            right: 1,
        })?;
    }
    Ok(Stmt {
        conds: Seq::from_vec(conds),
        act,
    })
}

/// Returns statements by which, where f is entered, counter 4 goes up, and then counter 2 becomes 7 if counter 4 is 1.
fn counted(alloc: Global) -> Result<Vec<Open>, NoMemory>
    ensures { IfOk result (λ opens. AllByRecursion IsSmall opens.items) }
{
    let mut stmts = Vec::new(alloc);
    stmts.push(statement(alloc, None, Act::Up(4))?)?;
    stmts.push(statement(alloc, Some(4), Act::Put(2, 7))?)?;
    let mut opens = Vec::new(alloc);
    opens.push(Open {
        start: F.start,
        len: F.len,
        stmts: Seq::from_vec(stmts),
    })?;
    Ok(opens)
}

/// Returns the values of five counters after their opening, the last of which is 0 initially and the others 3; and of one more,
/// which there isn't.
fn five_counters(alloc: Global) -> Result<[u64; 6], NoMemory> {
    let mut vars = Vec::new(alloc);
    for initially in [3, 3, 3, 3, 0] {
        vars.push(Var {
            name: Text::from_vec(Vec::new(alloc)),
            timer: false,
            initially,
        })?;
    }
    let opens = counted(alloc)?;
    let mem = stack(alloc, FRAME)?;
    let values = open_values(&mem, &opens, Some(INSIDE), &vars);
    let mut found = [0; 6];
    for i in 0..6 {
        found[i] = values.get(i);
    }
    Ok(found)
}

#[test]
fn opens_more_than_three_variables(rt: HostRuntime) {
    compare(&rt, five_counters(rt.alloc()), Ok([3, 3, 7, 3, 1, 0]));
}
