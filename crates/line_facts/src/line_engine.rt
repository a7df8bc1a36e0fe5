//! The trait of line engines: what comparing a line with its clue must answer.

ghost use Rattle.std.specs.Prelude.{◌≡◌, ℕ, ◌≤◌, length};
ghost use Rattle.line_facts.specs.Counts.{counted};
ghost use Rattle.line_facts.specs.NarrowedLine.{Narrows};

use clues::Clue;

/// How the comparison of a line with its clue ends.
#[derive(Clone, Copy, Debug, PartialEq, Eq)]
pub enum Outcome {
    /// Some list of colours fits.
    Narrowed,
    /// No list of colours fits.
    Dead,
}

/// A line solver: it finds which colours each cell of a line can still have by its clue.
pub trait LineEngine {
    ghost longest: { Self → ℕ };

    ghost calls: { Self → ℕ };

    /// The most cells that a line may have.
    fn longest(&self) -> u8
        ensures { result ≡ longest self.now };

    /// How often `narrow` was called. The count stays at the largest `u64` once it is there.
    fn calls(&self) -> u64
        ensures { result ≡ calls self.now };

    /// Finds which colours each cell of a line can still have. In `left` and `out` bit k of a cell's mask stands for
    /// colour k. A list of colours fits when it has the line's length, its clue is `clue`, and in each cell it has a
    /// colour that is left there. Each cell of `out` gets exactly the colours that some list that fits has there. The
    /// count of evaluations goes up by one, and stays at the largest `u64`. No memory is taken.
    fn narrow(&mut self, count: &mut u64, clue: &Clue, left: &[u16], out: &mut [u16]) -> Outcome
        requires same_length { length left.now ≡ length out.old }
        requires short { length left.now ≤ longest self.old }
        ensures narrows { Narrows clue.now left.now result out.new }
        ensures counted { count.new ≡ counted count.old 1 }
        ensures called { calls self.new ≡ counted (calls self.old) 1 }
        ensures same_longest { longest self.new ≡ longest self.old };
}
