//! The lemmas of a certificate by their numbers, and the literals of the one that is being proved.

ghost use Rattle.std.specs.Prelude.{◌≡◌, ◌+◌, ◌-◌, ◌<◌, ◌^◌, ◌≤◌, ◌∷◌, ◌++◌, ◌↔◌, [], length, set, IfOk, IsTrue, MatchOption, None, Some};
ghost use Rattle.cert_check.specs.Lemmas.{IsKept, lemma_at, no_lemmas, total};
ghost use Rattle.cert_check.specs.Stores.{ArePlaces, stored};

use crate::span::Span;
use cert_text::{Literal, MAX_LEMMA_LITERALS, MAX_LITERALS};
use std::alloc::{AllocError, Global};
use std::marker::Model;
use trail::Cell;

// The literals of a lemma, and the places of their cells in the list of all cells, row after row.
#[derive(Clone, Copy, Drop)]
pub(crate) struct Lemma<'a> {
    pub literals: &'a [Literal],
    pub places: &'a [u16],
}

// The literals of all lemmas, one after the other, those of the lemma that is being proved last. What is dropped stays in the
// list, which is never longer than the certificate.
#[derive(Drop)]
pub(crate) struct Store {
    // The size of the picture.
    height: u8,
    width: u8,
    literals: Vec<Literal>,
    // Where the literals' cells are in the list of all cells, row after row.
    places: Vec<u16>,
    lemmas: Vec<Span>,
    // Where the literals of the lemma that is being proved begin.
    newest: usize,
    // How many literals the lemmas have that are kept, with the one that is being proved.
    count: usize,
}

impl Model for Store {
    ghost use Rattle.std.specs.Prelude.{◌≡◌, drop, ◌-◌, vec_capacity, vec_len};
    ghost use Rattle.cert_check.specs.Stores.{ArePlaces, IsStore, Stored, lemmas_in, stored};

    ghost Value = { Stored };

    ghost view = { λ s. stored (lemmas_in s.literals.items s.lemmas.items)
        (drop s.newest s.literals.items) (vec_capacity s.literals - vec_len s.literals)
        (vec_capacity s.lemmas - vec_len s.lemmas) s.height s.width };

    ghost invariant = { λ s. IsStore s.literals.items s.lemmas.items s.newest s.count
        × ArePlaces s.height s.width s.literals.items s.places.items
        × (vec_capacity s.places ≡ vec_capacity s.literals) };
}

impl Store {
    // No lemma of a picture of this size is kept: number 0 is none. There is room for so many literals and lemmas.
    pub(crate) fn new(
        alloc: Global,
        height: u8,
        width: u8,
        literals: usize,
        lemmas: usize,
    ) -> Result<Store, AllocError>
        requires { lemmas < 2 ^ 60 }
        ensures { IfOk result (λ s. s ≡ stored no_lemmas [] literals lemmas height width) }
    {
        let mut spans = Vec::with_capacity(alloc, lemmas + 1)?;
        spans.push_reserved(Span {
            start: 0,
            len: 0,
            kept: false,
        });
        Ok(Store {
            height,
            width,
            literals: Vec::with_capacity(alloc, literals)?,
            places: Vec::with_capacity(alloc, literals)?,
            lemmas: spans,
            newest: 0,
            count: 0,
        })
    }

    // The lemma with a number, where it is kept.
    pub(crate) fn kept(&self, number: u16) -> Option<Lemma<'_>>
        ensures { MatchOption
            result
            (lemma_at self.now.lemmas number ≡ None)
            (λ lemma. (lemma_at self.now.lemmas number ≡ Some lemma.literals.now)
            × (length lemma.literals.now ≤ MAX_LEMMA_LITERALS)
            × ArePlaces self.now.height self.now.width lemma.literals.now lemma.places.now) }
    {
        let span = self.lemmas.get(usize::from(number))?;
        if !span.kept {
            return None;
        }
        let end = span.start + usize::from(span.len);
        Some(Lemma {
            literals: &self.literals[span.start..end],
            places: &self.places[span.start..end],
        })
    }

    // Whether the lemma that is being proved may get a literal more.
    pub(crate) fn has_room(&self) -> bool
        ensures { IsTrue result ↔ ((length self.now.denied < MAX_LEMMA_LITERALS)
            × (total self.now.lemmas + length self.now.denied < MAX_LITERALS)) }
    {
        self.literals.len() - self.newest < MAX_LEMMA_LITERALS && self.count < MAX_LITERALS
    }

    // Adds a literal to the lemma that is being proved; its cell lies in the picture.
    pub(crate) fn deny(&mut self, literal: Literal, cell: Cell)
        requires row { cell.row ≡ literal.cell.row - 1 }
        requires col { cell.col ≡ literal.cell.col - 1 }
        requires in_rows { cell.row < self.old.height }
        requires in_columns { cell.col < self.old.width }
        requires short { length self.old.denied < MAX_LEMMA_LITERALS }
        requires few { total self.old.lemmas + length self.old.denied < MAX_LITERALS }
        requires room { 0 < self.old.literals }
        ensures { self.new ≡ stored self.old.lemmas (self.old.denied ++ literal ∷ [])
            (self.old.literals - 1) self.old.spare self.old.height self.old.width }
    {
        let place = u16::from(cell.row) * u16::from(self.width) + u16::from(cell.col);
        self.literals.push_reserved(literal);
        self.places.push_reserved(place);
        self.count += 1;
    }

    // Keeps the lemma that was being proved.
    pub(crate) fn keep(&mut self)
        requires { 0 < self.old.spare }
        ensures { self.new ≡ stored (self.old.lemmas ++ Some self.old.denied ∷ []) []
            self.old.literals (self.old.spare - 1) self.old.height self.old.width }
    {
        let end = self.literals.as_slice().len();
        self.lemmas.push_reserved(Span {
            start: self.newest,
            len: (end - self.newest) as u16,
            kept: true,
        });
        self.newest = end;
    }

    // Keeps the lemma with a number no longer.
    pub(crate) fn forget(&mut self, number: u16)
        requires { IsKept self.old.lemmas number }
        ensures { self.new ≡ stored (set self.old.lemmas number None) self.old.denied
            self.old.literals self.old.spare self.old.height self.old.width }
    {
        let at = usize::from(number);
        let Span { start, len, .. } = self.lemmas[at];
        self.count -= usize::from(len);
        self.lemmas[at] = Span {
            start,
            len,
            kept: false,
        };
    }
}
