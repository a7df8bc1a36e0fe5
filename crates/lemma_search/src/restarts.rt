//! When a search restarts: after as many conflicts as Luby's sequence says, or where lemmas become deep.

// The unit of Luby's sequence.
const UNIT: u32 = 32;

// After how many conflicts a search that looks for a picture changes its way of restarting.
const PHASE: u32 = 1_500;

// Over how many lemmas the recent mean of depths is taken, and the long one.
const RECENT: u64 = 32;

const LONG: u64 = 4_096;

// In how many parts depths are counted.
const PARTS: u64 = 65_536;

/// Counts conflicts up to the next restart by Luby's sequence. A search that looks for a picture restarts so for a while, then where
/// the lemmas that came last are deeper than most, and so on in turn.
#[derive(Clone, Copy)]
pub(crate) struct Restarts {
    in_turn: bool,
    turn: u32,
    term: u32,
    left: u32,
    conflicts: u32,
    // Mean depths of lemmas, in parts.
    recent: u64,
    long: u64,
}

impl Restarts {
    pub(crate) fn new(in_turn: bool) -> Restarts {
        Restarts {
            in_turn,
            turn: 1,
            term: 1,
            left: UNIT,
            conflicts: 0,
            recent: 0,
            long: 0,
        }
    }

    /// Counts a conflict, from which a lemma of this depth came.
    pub(crate) fn count_conflict(&mut self, depth: u32) {
        self.left = self.left.saturating_sub(1);
        self.conflicts = self.conflicts.saturating_add(1);
        let so_far = u64::from(self.conflicts);
        self.recent = mean(self.recent, depth, so_far.min(RECENT));
        self.long = mean(self.long, depth, so_far.min(LONG));
    }

    /// Whether to restart now. If so, the count begins again.
    pub(crate) fn is_due(&mut self) -> bool {
        if self.in_turn && self.conflicts / PHASE % 2 == 1 {
            self.is_deep()
        } else {
            self.is_counted()
        }
    }

    // Whether recent lemmas are deeper than most by 15 %. If so, they are forgotten.
    fn is_deep(&mut self) -> bool {
        if self.recent.saturating_mul(20) <= self.long.saturating_mul(23) {
            return false;
        }
        self.recent = self.long;
        true
    }

    // Whether the conflicts of a term of Luby's sequence have come. If so, those of the next one are counted.
    fn is_counted(&mut self) -> bool {
        if self.left != 0 {
            return false;
        }
        if self.turn & self.turn.wrapping_neg() == self.term {
            self.turn = self.turn.saturating_add(1);
            self.term = 1;
        } else {
            self.term = self.term.saturating_mul(2);
        }
        self.left = self.term.saturating_mul(UNIT);
        true
    }
}

// The mean of the depths of so many lemmas, of which this one is the newest, from the mean before it.
fn mean(before: u64, depth: u32, count: u64) -> u64 {
    let count = count.max(1);
    let more = u64::from(depth).saturating_mul(PARTS) / count;
    before.saturating_sub(before / count).saturating_add(more)
}
