//! A checker that has all the memory that checking a certificate can need.

ghost use Rattle.std.specs.Prelude.{◌≡◌, ◌<◌, ◌≤◌, ◌+◌, ◌*◌, ◌^◌, ◌↔◌, length, IfOk, IsOk, OnOk};
ghost use Rattle.std.specs.List.{AllByRecursion};
ghost use Rattle.picture.specs.Rows.{width_of};
ghost use Rattle.cert_check.specs.FirstFault.{Answers, CertFirstFault};
ghost use Rattle.cert_check.specs.LemmaProof.{IsLemmaProof};
ghost use Rattle.cert_check.specs.Machined.{IsReady};
ghost use Rattle.cert_check.specs.Notes.{most_notes};
ghost use Rattle.cert_check.specs.Puzzle.{HasCellNumber, IsUnique};

use crate::board::Board;
use crate::checking::walk;
use crate::claim::Claim;
use crate::givens::set_givens;
use crate::machine::Machine;
use crate::needs::Needs;
use crate::note::Note;
use crate::store::Store;
use cert_text::{Cert, CertFault};
use clues::ClueBook;
use line_facts::{Facts, LineEngine};
use picture::Picture;
use std::alloc::{AllocError, Global};
use std::marker::Model;

// How many notes a cell can have: two for each colour.
const CELL_NOTES: usize = 32;

/// A checker of certificates of a picture, for one check. It has all the memory that it can need.
#[derive(Drop)]
pub struct Checker<'a> {
    picture: &'a Picture,
    clues: ClueBook,
    facts: Facts,
    notes: Vec<Note>,
    parts: usize,
    store: Store,
}

impl<'a> Model for Checker<'a> {
    ghost use Rattle.std.specs.Prelude.{◌≡◌, ◌≤◌, [], length, vec_capacity};
    ghost use Rattle.clues.specs.ClueBook.{clues_of};
    ghost use Rattle.picture.specs.Rows.{width_of};
    ghost use Rattle.line_facts.specs.FactSets.{nothing_excluded};
    ghost use Rattle.cert_check.specs.Lemmas.{no_lemmas};
    ghost use Rattle.cert_check.specs.Machined.{Ready, ready};
    ghost use Rattle.cert_check.specs.Notes.{most_notes};
    ghost use Rattle.cert_check.specs.Stores.{stored};

    ghost Value = { Ready };

    ghost view = { λ c. ready c.picture.now c.parts c.store.literals c.store.spare };

    ghost invariant = { λ c. (c.clues ≡ clues_of c.picture.now)
        × (c.facts ≡ nothing_excluded (length c.picture.now) (width_of c.picture.now))
        × (c.notes.items ≡ [])
        × (most_notes (length c.picture.now) (width_of c.picture.now) c.parts
        ≤ vec_capacity c.notes)
        × (c.store ≡ stored no_lemmas [] c.store.literals c.store.spare
        (length c.picture.now) (width_of c.picture.now)) };
}

// How many notes there can be where so many parts are made.
fn notes_for(height: u8, width: u8, parts: usize) -> usize
    requires { parts < 2 ^ 60 }
    ensures { result ≡ most_notes height width parts }
{
    let cells = usize::from(height) * usize::from(width);
    CELL_NOTES * cells + 1 + parts
}

impl<'a> Checker<'a> {
    /// Takes the memory for a check of this certificate, or of any other that has no more parts, denied literals and lemmas.
    pub fn make(alloc: Global, picture: &'a Picture, cert: &Cert) -> Result<Checker<'a>, AllocError>
        ensures picture { IfOk result (λ c. c.picture ≡ picture.now) }
        ensures ready { IfOk result (λ c. IsReady c cert.now.lines) }
    {
        let needs = Needs::of(cert.lines());
        let (height, width) = (picture.height(), picture.width());
        let notes = notes_for(height, width, needs.parts);
        Ok(Checker {
            picture,
            clues: ClueBook::of(alloc, picture)?,
            facts: Facts::none(alloc, height, width)?,
            notes: Vec::with_capacity(alloc, notes)?,
            parts: needs.parts,
            store: Store::new(alloc, height, width, needs.literals, needs.lemmas)?,
        })
    }

    #[tactic(auto, using(crate::proofs::Answering::answering))]
    /// Checks a certificate of the picture, as `check_cert` does. No memory can be refused: the answer is Ok exactly where the
    /// certificate is a proof, and else its first error.
    pub fn check<E: LineEngine>(self, engine: &mut E, cert: &Cert) -> Result<(), CertFault>
        requires ready { IsReady self cert.now.lines }
        requires wide { width_of self.picture ≤ E.longest engine.old }
        requires tall { length self.picture ≤ E.longest engine.old }
        ensures exact { Answers (CertFirstFault self.entry.picture cert.now) result }
        ensures proof { IsOk result ↔ IsLemmaProof self.entry.picture cert.now }
        ensures unique { OnOk result (IsUnique self.entry.picture cert.now.givens) }
        ensures work { E.calls engine.new ≤ E.calls engine.old + length cert.now.lines }
        ensures idle { (AllByRecursion (HasCellNumber self.entry.picture) cert.now.givens → ⊥)
            → E.calls engine.new ≡ E.calls engine.old }
        ensures calls { E.calls engine.old ≤ E.calls engine.new }
        ensures same_longest { E.longest engine.new ≡ E.longest engine.old }
    {
        let Checker {
            picture,
            clues,
            mut facts,
            notes,
            parts,
            store,
        } = self;
        let _ = picture.height();
        let claim = Claim {
            picture,
            clues: &clues,
        };
        set_givens(picture, &mut facts, cert.givens())?;
        let board = Board::start(picture, facts, notes, parts);
        let mut machine = Machine::start(board, store);
        walk(&mut machine, engine, &claim, cert)
    }
}
