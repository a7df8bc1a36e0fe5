//! The lemmas that were learnt, each watched at two of its literals.

use crate::atom::{Atom, Literal, STRIDE, small};
use crate::marks::Marks;
use picture::MAX_COLOURS;
use std::alloc::{AllocError, Global};
use std::mem;

/// A part of a list: its first place, and the one after its last.
#[derive(Clone, Copy)]
pub(crate) struct Span {
    pub start: usize,
    pub end: usize,
}

/// A lemma that watches an atom, and a literal of it. While that is true, the lemma says nothing.
#[derive(Clone, Copy)]
pub(crate) struct Watch {
    pub number: u32,
    pub blocker: Literal,
}

/// The literals of lemmas, and for each atom the lemmas that are to be looked at when it is excluded.
#[derive(Drop)]
pub(crate) struct Store {
    alloc: Global,
    literals: Vec<Literal>,
    lemmas: Vec<Span>,
    // How deep each lemma is: from how many levels its literals come. It is 0 once the lemma is forgotten.
    depths: Vec<u32>,
    // After how many new lemmas some are forgotten, and how many there are in all then.
    room: usize,
    full: usize,
    watching: Vec<Vec<Watch>>,
}

/// What a lemma does once an atom is excluded: it no longer watches the atom, it says nothing yet since this literal is true, it holds
/// a cell to a literal, or no literal is left.
#[derive(Clone, Copy)]
pub(crate) enum Watched {
    Moved,
    Silent(Literal),
    Holds(Literal),
    Broken,
}

// Depths are below this: larger ones count as the largest.
const DEPTHS: usize = 128;

// Lemmas up to this depth are never forgotten.
const SHALLOW: u32 = 2;

// After how many lemmas half are forgotten for the first time, and by how much that number grows each time.
const ROOM: usize = 2000;

const MORE_ROOM: usize = 300;

impl Store {
    /// No lemma yet, for a picture with `height` rows.
    pub(crate) fn new(alloc: Global, height: u8) -> Result<Store, AllocError> {
        let atoms = usize::from(height) * STRIDE * usize::from(MAX_COLOURS);
        let mut watching = Vec::with_capacity(alloc, atoms)?;
        for _ in 0..atoms {
            watching.push(Vec::new(alloc))?;
        }
        Ok(Store {
            alloc,
            literals: Vec::new(alloc),
            lemmas: Vec::new(alloc),
            depths: Vec::new(alloc),
            room: ROOM,
            full: ROOM,
            watching,
        })
    }

    /// How many lemmas there are.
    pub(crate) fn len(&self) -> usize {
        self.lemmas.len()
    }

    /// How many literals they have together.
    pub(crate) fn literals(&self) -> usize {
        self.literals.len()
    }

    /// The literals of a lemma.
    pub(crate) fn lemma(&self, number: u32) -> &[Literal] {
        match self.lemmas.get(number as usize) {
            Some(span) => self.literals.get(span.start..span.end).unwrap_or(&[]),
            None => &[],
        }
    }

    /// Keeps a lemma, and answers its number.
    pub(crate) fn add(&mut self, literals: &[Literal], depth: u32) -> Result<u32, AllocError> {
        let number = small(self.lemmas.len());
        let start = self.literals.len();
        self.literals.extend_from_slice(literals)?;
        let end = self.literals.len();
        self.lemmas.push(Span { start, end })?;
        self.depths.push(depth.min(DEPTHS as u32 - 1))?;
        Ok(number)
    }

    /// Forgets half of the lemmas that are deep, where enough new ones came: the deepest, and of equals the oldest. What is
    /// forgotten is no longer looked at; its literals stay for the proof.
    pub(crate) fn forget_some(&mut self) {
        if self.len() < self.full {
            return;
        }
        self.forget_half();
        self.room = self.room.saturating_add(MORE_ROOM);
        self.full = self.len().saturating_add(self.room);
    }

    // From which depth on all lemmas are in the deeper half, and how many of the depth below are in it too.
    fn half(&self) -> (usize, u32) {
        let mut counts = [0u32; DEPTHS];
        let mut rest = 0u32;
        for depth in &self.depths {
            if *depth > SHALLOW
                && let Some(count) = counts.get_mut(*depth as usize)
            {
                *count = count.saturating_add(1);
                rest = rest.saturating_add(1);
            }
        }
        rest /= 2;
        let mut limit = DEPTHS;
        for at in (0..DEPTHS).rev() {
            let count = counts.get(at).copied().unwrap_or(0);
            if count > rest {
                break;
            }
            rest = rest.saturating_sub(count);
            limit = at;
        }
        (limit, rest)
    }

    fn forget_half(&mut self) {
        let (limit, mut rest) = self.half();
        for depth in self.depths.iter_mut() {
            let at = *depth as usize;
            if *depth <= SHALLOW || at.saturating_add(1) < limit {
                continue;
            }
            if at < limit {
                if rest == 0 {
                    continue;
                }
                rest -= 1;
            }
            *depth = 0;
        }
    }

    /// Lets a lemma watch an atom: it is looked at when the atom is excluded.
    pub(crate) fn watch(&mut self, atom: Atom, watch: Watch) -> Result<(), AllocError> {
        if let Some(list) = self.watching.get_mut(atom.place()) {
            list.push(watch)?;
        }
        Ok(())
    }

    /// Whether a lemma watches an atom.
    pub(crate) fn is_watched(&self, atom: Atom) -> bool {
        self.watching
            .get(atom.place())
            .is_some_and(|list| !list.is_empty())
    }

    /// Takes the list of the lemmas that watch an atom.
    pub(crate) fn take_list(&mut self, atom: Atom) -> Vec<Watch> {
        let none = Vec::new(self.alloc);
        match self.watching.get_mut(atom.place()) {
            Some(list) => mem::replace(list, none),
            None => none,
        }
    }

    /// Puts such a list back.
    pub(crate) fn put_list(&mut self, atom: Atom, list: Vec<Watch>) {
        if let Some(slot) = self.watching.get_mut(atom.place()) {
            *slot = list;
        }
    }

    fn literal(&self, at: usize) -> Option<Literal> {
        self.literals.get(at).copied()
    }

    fn set_literal(&mut self, at: usize, literal: Literal) {
        if let Some(slot) = self.literals.get_mut(at) {
            *slot = literal;
        }
    }

    /// Looks at a lemma once an atom is excluded.
    pub(crate) fn look(
        &mut self,
        number: u32,
        gone: Atom,
        marks: &Marks,
    ) -> Result<Watched, AllocError> {
        let Some(Span { start, end }) = self.lemmas.get(number as usize).copied() else {
            return Ok(Watched::Moved);
        };
        if self.depths.get(number as usize).copied() == Some(0) {
            return Ok(Watched::Moved);
        }
        let after = start.saturating_add(1);
        let (Some(first), Some(second)) = (self.literal(start), self.literal(after)) else {
            return Ok(Watched::Moved);
        };
        // The watched literal that may be gone comes second.
        let (held, watched) = if first.cell == gone.cell {
            self.set_literal(start, second);
            self.set_literal(after, first);
            (second, first)
        } else {
            (first, second)
        };
        if watched.cell != gone.cell {
            return Ok(Watched::Moved);
        }
        if marks.is_true(held) {
            return Ok(Watched::Silent(held));
        }
        let span = Span { start: after, end };
        let watch = Watch {
            number,
            blocker: held,
        };
        if self.moves(watch, span, watched, marks)? {
            return Ok(Watched::Moved);
        }
        Ok(if marks.is_false(held) {
            Watched::Broken
        } else {
            Watched::Holds(held)
        })
    }

    // Lets a lemma watch another literal of a span that begins with the watched one, if one can be true.
    fn moves(
        &mut self,
        watch: Watch,
        span: Span,
        watched: Literal,
        marks: &Marks,
    ) -> Result<bool, AllocError> {
        for at in span.start..span.end {
            let Some(literal) = self.literal(at) else {
                break;
            };
            let left = marks.left(literal.cell);
            if literal.colours & left == 0 {
                continue;
            }
            self.set_literal(at, watched);
            self.set_literal(span.start, literal);
            self.watch(literal.first_in(left), watch)?;
            return Ok(true);
        }
        Ok(false)
    }
}
