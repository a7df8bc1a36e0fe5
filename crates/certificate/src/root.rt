//! The root of a certificate: what is known of a picture and its givens before any line.

ghost use Rattle.std.specs.Prelude.{◌≡◌, IfOk};
ghost use Rattle.picture.specs.Document.{AreInside};
ghost use Rattle.clues.specs.ClueBook.{clues_of};
ghost use Rattle.cert_check.specs.Puzzle.{base_of};
ghost use Rattle.certificate.specs.Roots.{IsRootOf};
ghost use Rattle.lemma_proof.specs.Naming.{NamesGivens};
ghost use Rattle.second_search.specs.Parts.{IsScene};

use cert_check::set_givens;
use cert_text::CellNumber;
use clues::ClueBook;
use lemma_proof::given_cells;
use line_facts::Facts;
use picture::{CellSet, Picture};
use std::alloc::{AllocError, Global};

/// The clues of a picture, its givens by their numbers, and the facts of these: in each given only the picture's colour is left.
#[derive(Drop)]
pub(crate) struct Root {
    pub clues: ClueBook,
    pub cells: Vec<CellNumber>,
    pub facts: Facts,
}

impl Root {
    /// The root of a certificate with exactly these givens.
    pub(crate) fn of(alloc: Global, picture: &Picture, givens: &CellSet) -> Result<Root, AllocError>
        requires { AreInside givens.now picture.now }
        ensures { IfOk result (IsRootOf picture.now givens.now) }
    {
        let clues = ClueBook::of(alloc, picture)?;
        let cells = given_cells(alloc, picture, givens)?;
        let facts = root_facts(alloc, picture, givens, &cells)?;
        Ok(Root {
            clues,
            cells,
            facts,
        })
    }
}

// The facts at the root: in each given, which the cells name, only the picture's colour is left.
fn root_facts(
    alloc: Global,
    picture: &Picture,
    givens: &CellSet,
    cells: &[CellNumber],
) -> Result<Facts, AllocError>
    requires { NamesGivens picture.now givens.now cells.now }
    ensures root { IfOk result (λ facts. facts ≡ base_of picture.now cells.now) }
    ensures scene { IfOk result (λ facts.
        IsScene (clues_of picture.now) givens.now facts picture.now) }
{
    let _ = givens.len();
    let mut facts = Facts::none(alloc, picture.height(), picture.width())?;
    match set_givens(picture, &mut facts, cells) {
        Ok(()) => Ok(facts),
        Err(_) => unreachable!(),
    }
}
