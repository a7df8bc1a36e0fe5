//! Why a line or a lemma excludes colours.

use crate::atom::{Atom, Literal, first_colour, without_first};
use crate::board::Board;
use crate::marks::{Marks, NEVER, Reason};
use crate::store::Store;
use crate::sweeping::{Question, Sweep};
use picture::MAX_COLOURS;
use std::alloc::AllocError;

/// What is asked: why a reason excludes colours of a cell, or, where `of` is None, why it is a conflict. Only what the events
/// before `before` excluded counts, and what those before `root` excluded needs no reason.
#[derive(Clone, Copy)]
pub(crate) struct Why {
    pub reason: Reason,
    pub of: Option<Literal>,
    pub before: u32,
    pub root: u32,
}

/// Adds the exclusions that answer a question to the premises. A decision needs none.
pub(crate) fn explain(
    board: &Board,
    store: &Store,
    marks: &Marks,
    sweep: &mut Sweep,
    why: Why,
    premises: &mut Vec<Atom>,
) -> Result<(), AllocError> {
    match why.reason {
        Reason::Line(line) => {
            let question = Question {
                line,
                cells: board.cells(line.axis),
                before: why.before,
                root: why.root,
            };
            match board.automaton(line) {
                Some(automaton) => {
                    sweep.see(automaton, marks, question)?;
                    sweep.ask(automaton, why.of);
                    sweep.drop_all(automaton, marks);
                    sweep.tell(premises)
                }
                None => Ok(()),
            }
        }
        Reason::Lemma(number) => explain_lemma(store.lemma(number), marks, why, premises),
        Reason::Decision => Ok(()),
    }
}

// Why the literals of a lemma are false, except that of the cell that is asked about.
fn explain_lemma(
    lemma: &[Literal],
    marks: &Marks,
    why: Why,
    premises: &mut Vec<Atom>,
) -> Result<(), AllocError> {
    let but = why.of.map(|gone| gone.cell);
    for literal in lemma {
        if but == Some(literal.cell) {
            continue;
        }
        let mut rest = literal.colours;
        for _ in 0..MAX_COLOURS {
            if rest == 0 {
                break;
            }
            let atom = literal.atom(first_colour(rest));
            rest = without_first(rest);
            let when = marks.when(atom);
            if when != NEVER && when >= why.root {
                premises.push(atom)?;
            }
        }
    }
    Ok(())
}
