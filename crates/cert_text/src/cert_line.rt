//! The steps of a certificate, and what its text names in them.

use picture::Axis;

/// How many literals the lemmas that a checker keeps may have together, with the lemma that is being proved.
pub const MAX_LITERALS: usize = 65_536;

/// How many literals a lemma may have.
pub const MAX_LEMMA_LITERALS: usize = 1024;

/// A row or a column as a certificate names it: by its number as written, counted from 1. Whether a picture has it is not
/// said.
#[derive(Clone, Copy, Debug, PartialEq, Eq)]
pub struct LineNumber {
    pub axis: Axis,
    /// From 0 to 999.
    pub number: u16,
}

/// A cell as a certificate names it: by the numbers of its row and its column as written, counted from 1. Whether a picture
/// has it is not said.
#[derive(Clone, Copy, Debug, PartialEq, Eq)]
pub struct CellNumber {
    /// From 0 to 999.
    pub row: u16,
    /// From 0 to 999.
    pub col: u16,
}

/// A literal: a cell and some colours. A picture meets it where the cell has one of them.
#[derive(Clone, Copy, Debug, PartialEq, Eq)]
pub struct Literal {
    /// The cell, by its numbers as written. It may lie outside the picture.
    pub cell: CellNumber,
    /// Bit k stands for colour k.
    pub colours: u16,
}

/// A step of a certificate, below its givens: it changes the facts of the branch at hand, or ends the branch; the other
/// branches wait. A lemma is a list of literals, of which each other picture meets one. Lemmas are numbered from 1 as they
/// begin. `Split` stands in trees alone; `Use`, `Broken`, `Part`, `Lemma`, `Deny` and `Forget` in certificates with lemmas
/// alone.
#[derive(Clone, Copy, Debug, PartialEq, Eq)]
pub enum CertLine {
    /// All that the row or column forces is added to the facts, and the branch goes on.
    Line(LineNumber),
    /// Where just one literal of the lemma has a colour left in its cell, that cell is held to the literal's colours.
    Use(u16),
    /// A branch begins for each colour left in the cell, in ascending order. In it the cell has only that colour.
    Split(CellNumber),
    /// No list of colours fits the row or column, and the branch ends.
    Dead(LineNumber),
    /// No literal of the lemma has a colour left in its cell, and the branch ends.
    Broken(u16),
    /// No cell has a colour left other than the picture's, and the branch ends.
    Done,
    /// Two branches: the cell without these colours, and then the cell with these alone.
    Part(Literal),
    /// A lemma begins, which is allowed only where nothing waits: the branch at hand will deny it, and the facts as
    /// they are wait until it is kept.
    Lemma,
    /// A literal of the lemma that begins: its cell loses these colours.
    Deny(Literal),
    /// The lemma is no longer kept, which is allowed only where nothing waits.
    Forget(u16),
}

// A step takes eight bytes.
const _: () = prove!(size_of::<CertLine>() == 8);
