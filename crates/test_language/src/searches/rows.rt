//! The tables.

use crate::searches::inputs::Case;

/// A sample: its node, the tick at which it begins, its value and its ticks.
pub(crate) type Sample = (u32, u64, u64, u64);

/// A row of a table.
#[derive(Clone, Copy, Debug, Drop)]
pub(crate) enum Row {
    /// Whether a hypothesis is true of this value and these ticks, with this threshold.
    Holds(u64, u64, u32),
    /// This search begins, and is at hand from then on.
    Begin(Case),
    /// A hypothesis, and the number of one of its children at the roots of all three hierarchies.
    Child(u32, u32),
    /// A due work at this tick with no sample.
    Work(u64),
    /// A due work at this tick with one sample.
    One(u64, Sample),
    /// A due work at this tick with two samples.
    Two(u64, Sample, Sample),
    /// This node, which waits, is under test.
    Admit(u32),
    /// This node, which waits, can't be tested.
    Bar(u32),
    /// Each node from the first number on below the second is admitted, and gets a sample of this value from tick 0 to 100.
    Each(u32, u32, u64),
    /// The search ends.
    End,
    /// The nodes from the first number on below the second.
    Nodes(usize, usize),
}

/// Tests of values.
pub(crate) const TESTS: [Row; 4] = [
    Row::Holds(2, 10, 200),
    Row::Holds(2, 10, 201),
    Row::Holds(0, 0, 0),
    Row::Holds(0, 1, 0),
];

/// A program that waits for a lock for 60 of 100 ticks, in the procedure of number 1.
pub(crate) const SMALL: [Row; 15] = [
    Row::Begin(Case::Small),
    Row::Admit(0),
    Row::One(100, (0, 0, 60, 100)),
    Row::One(200, (0, 100, 60, 100)),
    Row::Admit(1),
    Row::Work(300),
    Row::One(400, (1, 300, 60, 100)),
    Row::One(500, (1, 400, 60, 100)),
    Row::Admit(2),
    Row::Admit(3),
    Row::Work(600),
    Row::Two(700, (2, 600, 0, 100), (3, 600, 60, 100)),
    Row::Two(800, (2, 700, 0, 100), (3, 700, 60, 100)),
    Row::End,
    Row::Nodes(0, 4),
];

/// Three hypotheses in two phases. At tick 500 two parents have one child in common; at tick 800 a node is confirmed, one has
/// one sample and others wait where the second phase begins.
pub(crate) const PHASES: [Row; 35] = [
    Row::Begin(Case::Phases),
    Row::Child(0, 0),
    Row::Child(0, 1),
    Row::Child(0, 2),
    Row::Child(1, 0),
    Row::Child(1, 1),
    Row::Child(1, 2),
    Row::Child(2, 0),
    Row::Child(2, 1),
    Row::Child(3, 0),
    Row::Admit(0),
    Row::One(100, (0, 0, 50, 200)),
    Row::One(200, (0, 100, 30, 200)),
    Row::Admit(2),
    Row::Admit(3),
    Row::Work(300),
    Row::Two(400, (2, 300, 60, 200), (3, 300, 70, 200)),
    Row::Two(500, (3, 400, 80, 200), (2, 400, 70, 150)),
    Row::Admit(4),
    Row::Bar(6),
    Row::Work(600),
    Row::Admit(1),
    Row::One(700, (4, 600, 90, 200)),
    Row::Two(800, (1, 700, 10, 200), (4, 700, 30, 200)),
    Row::Admit(9),
    Row::Work(900),
    Row::Admit(10),
    Row::One(1000, (9, 900, 39, 200)),
    Row::Two(1100, (9, 1000, 40, 200), (10, 1000, 40, 200)),
    Row::One(1200, (10, 1100, 60, 200)),
    Row::Admit(12),
    Row::Work(1300),
    Row::One(1400, (12, 1300, 5, 100)),
    Row::End,
    Row::Nodes(0, 13),
];

/// A search that comes to have as many nodes as there may be, where its second phase begins.
pub(crate) const FULL: [Row; 11] = [
    Row::Begin(Case::Full),
    Row::Each(0, 1, 100),
    Row::Each(1, 2, 100),
    Row::Each(2, 3, 100),
    Row::Each(3, 4, 100),
    Row::Each(4, 10, 0),
    Row::Bar(10),
    Row::Admit(4095),
    Row::Work(1000),
    Row::Nodes(4003, 4005),
    Row::Nodes(4095, 4097),
];
