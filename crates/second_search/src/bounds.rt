//! How far each way of searching goes before the next one is tried.

/// The bounds of the ways of deciding a part: the splits of the fixed order, and those when it is begun again; the splits of a
/// search in a window; the conflicts that a search with lemmas learns from, 0 for no such search; and the lines that a tree of the
/// whole picture may evaluate at first, 16 times as many in a part or after a long judgement. Answers are true whatever the bounds
/// are. Clauses mention only `fixed_splits`.
#[derive(Clone, Copy)]
pub struct Bounds {
    pub fixed_splits: u32,
    pub again_splits: u32,
    pub window_splits: u32,
    pub conflicts: u32,
    pub first_bound: u64,
}

/// The bounds that the program uses.
pub const BOUNDS: Bounds = Bounds {
    fixed_splits: 100,
    again_splits: 500,
    window_splits: 64,
    conflicts: 100_000,
    first_bound: 10_000,
};

// How many times as many lines a tree may evaluate at first in a part, or after a long judgement, where few small trees close.
pub(crate) const LONGER: u64 = 16;

/// How far a search from clues alone goes at first: how many lines a tree may evaluate, and then from how many conflicts a search
/// with lemmas learns. After that only trees are tried, of which the first may evaluate four times as many lines.
#[derive(Clone, Copy)]
pub struct Turns {
    pub evaluations: u64,
    pub conflicts: u32,
}

/// The bounds that the program uses from clues alone.
pub const TURNS: Turns = Turns {
    evaluations: 10_000,
    conflicts: 1_000_000,
};
