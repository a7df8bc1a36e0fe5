//! What can be wrong with a file of givens, with names and line numbers.

ghost use Rattle.std.specs.Prelude.{◌≡◌};
ghost use Rattle.text_check.specs.GivensFaults.{line_of, name_of};

use thiserror::Error;

/// What is wrong with a file of givens: the first error from the top, with the number of its line, counted from 1.
#[derive(Clone, Copy, Debug, PartialEq, Eq, Error)]
pub enum GivensFault {
    /// The line is not `given R C`.
    #[error("givens BadLine at line {0}")]
    BadLine(usize),
    /// An earlier line gives the cell.
    #[error("givens Repeated at line {0}")]
    Repeated(usize),
    /// The picture does not have the cell.
    #[error("givens Place at line {0}")]
    Place(usize),
}

impl GivensFault {
    /// The error's name, as the variant is called.
    pub fn name(&self) -> &'static str
        ensures { result.now ≡ name_of self.now }
    {
        match *self {
            GivensFault::BadLine(_) => "BadLine",
            GivensFault::Repeated(_) => "Repeated",
            GivensFault::Place(_) => "Place",
        }
    }

    /// The number of the line in error, counted from 1.
    pub fn place(&self) -> usize
        ensures { result ≡ line_of self.now }
    {
        match *self {
            GivensFault::BadLine(line) => line,
            GivensFault::Repeated(line) => line,
            GivensFault::Place(line) => line,
        }
    }
}
