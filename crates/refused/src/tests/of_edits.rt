//! Pictures, their texts and edits. Two studios get the same calls, the second one a call later, so that a studio that refused
//! a call is compared with one that did not get it yet.

ghost use Rattle.std.specs.Prelude.{IfOk};
ghost use Rattle.edits.specs.History.{IsPlanFor};

use super::made::{SQUARE, document_of};
use super::shown::{cells_of, same_document};
use super::{Memory, equal, first_of, refused};
use edits::{Edit, EditFault, Prepared, Studio};
use picture::{Axis, Document, LineId, Rgb};
use std::alloc::{AllocError, Global};
use std::process::Abort;

// A call of a studio.
#[derive(Clone, Copy)]
enum Call {
    Make(Edit),
    Undo,
    Redo,
}

const BLUE: Rgb = Rgb { r: 0, g: 0, b: 255 };

const DARKER: Rgb = Rgb { r: 0, g: 0, b: 254 };

// Each kind of edit on `a.` above `.b`, which leads to `bba`.
const EDITS: [Edit; 11] = [
    Edit::AddColour { rgb: BLUE },
    Edit::SetColour {
        colour: 3,
        rgb: DARKER,
    },
    Edit::Paint {
        row: 0,
        col: 1,
        colour: 3,
    },
    Edit::Pin { row: 0, col: 0 },
    Edit::Recolour {
        source: 3,
        target: 1,
    },
    Edit::Unpin { row: 0, col: 0 },
    Edit::Pin { row: 1, col: 1 },
    Edit::InsertLine {
        line: LineId {
            axis: Axis::Down,
            at: 0,
        },
    },
    Edit::SwapLines {
        axis: Axis::Down,
        first: 0,
        second: 1,
    },
    Edit::DeleteLine {
        line: LineId {
            axis: Axis::Across,
            at: 1,
        },
    },
    Edit::Fill {
        top: 0,
        left: 0,
        bottom: 0,
        right: 1,
        colour: 2,
    },
];

const LAST: [u8; 16] = [2, 2, 1, 0, 0, 0, 0, 0, 0, 0, 0, 0, 0, 0, 0, 0];

// Prepares the step of a call, which the studio can then commit.
fn prepared(alloc: Global, studio: &Studio, call: Call) -> Result<Prepared, EditFault>
    ensures { IfOk result (λ p. IsPlanFor studio.now p) }
{
    match call {
        Call::Make(edit) => studio.prepare(alloc, &edit),
        Call::Undo => studio.prepare_undo(),
        Call::Redo => studio.prepare_redo(),
    }
}

fn same_studio(rt: &impl Abort, one: &Studio, other: &Studio) {
    same_document(rt, one.document(), other.document());
    equal(rt, "the past", one.past_len(), other.past_len());
    equal(rt, "the future", one.future_len(), other.future_len());
}

// Makes a call of the first studio, and makes it again where an allocation was refused.
fn takes(
    rt: &impl Abort,
    alloc: Global,
    memory: Memory,
    studio: &mut Studio,
    still: &Studio,
    call: Call,
) {
    match prepared(alloc, studio, call) {
        Ok(step) => studio.commit(step),
        Err(fault) => {
            refused(rt, memory, fault, EditFault::Memory);
            same_studio(rt, studio, still);
            let step = prepared(alloc, studio, call).expect(rt, "only one growth is refused");
            studio.commit(step);
        }
    }
}

// Makes a call of the second studio, and makes it again where an allocation was refused. The document of the prepared step is
// that of the first studio, which has taken it.
fn follows(
    rt: &impl Abort,
    alloc: Global,
    memory: Memory,
    studio: &mut Studio,
    ahead: &Studio,
    call: Call,
) {
    let step = match prepared(alloc, studio, call) {
        Ok(step) => step,
        Err(fault) => {
            refused(rt, memory, fault, EditFault::Memory);
            prepared(alloc, studio, call).expect(rt, "only one growth is refused")
        }
    };
    same_document(rt, step.document(), ahead.document());
    studio.commit(step);
    same_studio(rt, studio, ahead);
}

// Two studios, of which the second gets each call later.
#[derive(Drop)]
struct Pair {
    first: Studio,
    second: Studio,
}

fn ask(rt: &impl Abort, alloc: Global, memory: Memory, pair: &mut Pair, call: Call) {
    takes(rt, alloc, memory, &mut pair.first, &pair.second, call);
    follows(rt, alloc, memory, &mut pair.second, &pair.first, call);
}

// A studio with a copy of a document.
fn studio_with(alloc: Global, document: &Document) -> Result<Studio, AllocError> {
    Studio::start(alloc, document.copy()?, 20)
}

fn studio_of(rt: &impl Abort, alloc: Global, memory: Memory, document: &Document) -> Studio {
    let first = studio_with(alloc, document);
    first_of(rt, memory, AllocError, first, studio_with(alloc, document))
}

fn pair_of(rt: &impl Abort, alloc: Global, memory: Memory, document: &Document) -> Pair {
    let first = studio_of(rt, alloc, memory, document);
    let second = studio_of(rt, alloc, memory, document);
    Pair { first, second }
}

fn makes_all(rt: &impl Abort, alloc: Global, memory: Memory, pair: &mut Pair) {
    for edit in EDITS.iter() {
        ask(rt, alloc, memory, pair, Call::Make(*edit));
    }
    let document = pair.first.document();
    equal(rt, "cells", cells_of(&document.picture), LAST);
    equal(rt, "colours", document.palette.len(), 4);
}

// Undoes all edits, and redoes one.
fn takes_all_back(
    rt: &impl Abort,
    alloc: Global,
    memory: Memory,
    pair: &mut Pair,
    start: &Document,
) {
    for _ in 0..EDITS.len() {
        ask(rt, alloc, memory, pair, Call::Undo);
    }
    same_document(rt, pair.first.document(), start);
    ask(rt, alloc, memory, pair, Call::Redo);
    equal(rt, "colours", pair.first.document().palette.len(), 4);
}

fn goes_on(rt: &impl Abort, alloc: Global, memory: Memory) {
    let document = document_of(rt, alloc, memory, SQUARE);
    let mut pair = pair_of(rt, alloc, memory, &document);
    makes_all(rt, alloc, memory, &mut pair);
    takes_all_back(rt, alloc, memory, &mut pair, &document);
}

#[test]
fn a_refused_growth_changes_nothing(rt: HostRuntime) {
    goes_on(&rt, rt.alloc(), Memory::Refused);
}

#[test]
fn ample_memory_is_enough(rt: HostRuntime) {
    goes_on(&rt, rt.alloc(), Memory::Ample);
}
