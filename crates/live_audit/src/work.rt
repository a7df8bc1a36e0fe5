//! The work of a bench.

use line_facts::{Meter, NOTHING_DONE};

/// How much work was done: by the last edit, undo, redo or start that was accepted; and by the last verdict, with the number of
/// parts that it searched and of splits. Of each part the splits of its first search are counted, in the fixed order up to the
/// allowance, or up to 100 where there is none; those of later searches are not. Both numbers stop at the largest `u32`. Before
/// the first verdict, all that verdicts count is 0.
#[derive(Clone, Copy, Debug, PartialEq, Eq)]
pub struct Work {
    pub edit: Meter,
    pub search: Meter,
    pub parts: u32,
    pub splits: u32,
}

/// The counts before any work.
pub(crate) const NO_WORK: Work = Work {
    edit: NOTHING_DONE,
    search: NOTHING_DONE,
    parts: 0,
    splits: 0,
};
