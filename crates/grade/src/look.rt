//! The looks of a path: what each of them excluded, and from what.

ghost use Rattle.std.specs.Prelude.{◌≡◌};

use justify::Premise;
use picture::LineId;
use std::marker::Model;

/// A cell of a line that falls: its place along the line, from 0, and the colour that is left in it.
#[derive(Clone, Copy, Debug, PartialEq, Eq)]
pub struct Fall {
    pub place: u8,
    pub colour: u8,
}

/// A look that excluded something: at which line, in which round from 1, how many exclusions it made, and the cells that fell;
/// whether all blocks of the line stood before, and the premises that it needs.
#[derive(Drop)]
pub struct Advance {
    line: LineId,
    round: u64,
    excluded: u32,
    falls: Vec<Fall>,
    stands: bool,
    premises: Vec<Premise>,
}

impl Model for Advance {
    ghost use Rattle.grade.specs.Paths.{Made};

    ghost Value = { Made };

    ghost view = { λ a. record {
      line = a.line;
      round = a.round;
      excluded = a.excluded;
      falls = a.falls.items;
      stands = a.stands;
      premises = a.premises.items;
    } };

    ghost invariant = { λ _. Unit {0} };
}

impl Advance {
    // The look with these parts.
    pub(crate) fn make(
        line: LineId,
        round: u64,
        excluded: u32,
        falls: Vec<Fall>,
        stands: bool,
        premises: Vec<Premise>,
    ) -> Advance
        ensures line { result.line ≡ line }
        ensures round { result.round ≡ round }
        ensures excluded { result.excluded ≡ excluded }
        ensures falls { result.falls ≡ falls.items }
        ensures stands { result.stands ≡ stands }
        ensures premises { result.premises ≡ premises.items }
    {
        Advance {
            line,
            round,
            excluded,
            falls,
            stands,
            premises,
        }
    }

    /// The line that was looked at.
    pub fn line(&self) -> LineId
        ensures { result ≡ self.now.line }
    {
        self.line
    }

    /// The round, from 1.
    pub fn round(&self) -> u64
        ensures { result ≡ self.now.round }
    {
        self.round
    }

    /// How many exclusions the look made: at least one.
    pub fn excluded(&self) -> u32
        ensures { result ≡ self.now.excluded }
    {
        self.excluded
    }

    /// The cells that fell, by rising place.
    pub fn falls(&self) -> &[Fall]
        ensures { result.now ≡ self.now.falls }
    {
        self.falls.as_slice()
    }

    /// Whether all blocks of the line stood before the look: its settled cells alone had its clue.
    pub fn stands(&self) -> bool
        ensures { result ≡ self.now.stands }
    {
        self.stands
    }

    /// What was excluded on the line, by rising place, and what the look follows from. None can be left out.
    pub fn premises(&self) -> &[Premise]
        ensures { result.now ≡ self.now.premises }
    {
        self.premises.as_slice()
    }
}
