//! Benches. Two of them get the same calls, the second one a call later, so that a bench that refused a call is compared with
//! one that did not get it yet.

use super::made::{PAIR, document_of};
use super::shown::{cells_of, same_audit};
use super::{Memory, first_of, refused};
use edits::{Edit, EditFault};
use line_facts::LineEngine;
use line_settle::MaskEngine;
use live_audit::{Bench, Verdict, Why};
use picture::{Document, MAX_SIDE, Rgb};
use propagate::InOrder;
use std::alloc::{AllocError, Global};
use std::process::Abort;

type Desk = Bench<MaskEngine, InOrder>;

// A call of a bench.
#[derive(Clone, Copy)]
enum Call {
    Make(Edit),
    Undo,
    Redo,
    Allow(u32),
    Judge,
    Certify,
    Why,
}

// The answer to a call. A verdict has the number of parts that were searched for it.
#[derive(Clone, Copy, PartialEq, Eq)]
enum Said {
    Done,
    Unique(u32),
    Ambiguous([u8; 16], u32),
    Undecided(u32),
    Certified(bool),
    Explained(usize),
}

const RED: Rgb = Rgb { r: 255, g: 0, b: 0 };

// The other picture with the clues of `a.` above `.a`.
const OTHER: [u8; 16] = [0, 1, 0, 0, 1, 0, 0, 0, 0, 0, 0, 0, 0, 0, 0, 0];

// `PAIR` is judged under allowances, a given decides it, and a red cell is painted beside the given. While the other picture is
// kept, it is returned again whatever the allowance, also where `certify` found it. Row 2 has a black cell; that it is not the
// first one follows from the one block of the first column, which is the given.
const SCRIPT: [(Call, Said); 19] = [
    (Call::Allow(0), Said::Done),
    (Call::Judge, Said::Undecided(1)),
    (Call::Allow(1), Said::Done),
    (Call::Judge, Said::Ambiguous(OTHER, 1)),
    (Call::Certify, Said::Certified(false)),
    (Call::Allow(0), Said::Done),
    (Call::Judge, Said::Ambiguous(OTHER, 0)),
    (Call::Make(Edit::AddColour { rgb: RED }), Said::Done),
    (Call::Judge, Said::Ambiguous(OTHER, 0)),
    (Call::Make(Edit::Pin { row: 0, col: 0 }), Said::Done),
    (Call::Judge, Said::Unique(0)),
    (Call::Certify, Said::Certified(true)),
    (Call::Why, Said::Explained(1)),
    (Call::Undo, Said::Done),
    (Call::Judge, Said::Undecided(1)),
    (Call::Certify, Said::Certified(false)),
    (Call::Judge, Said::Ambiguous(OTHER, 0)),
    (Call::Redo, Said::Done),
    (
        Call::Make(Edit::Paint {
            row: 0,
            col: 1,
            colour: 2,
        }),
        Said::Done,
    ),
];

fn judged(bench: &mut Desk) -> Result<Said, AllocError> {
    let said = match bench.verdict()? {
        Verdict::Unique => Said::Unique(0),
        Verdict::Ambiguous(picture) => Said::Ambiguous(cells_of(picture), 0),
        Verdict::Undecided { .. } => Said::Undecided(0),
    };
    let parts = bench.work().parts;
    Ok(match said {
        Said::Ambiguous(cells, _) => Said::Ambiguous(cells, parts),
        Said::Undecided(_) => Said::Undecided(parts),
        _ => Said::Unique(parts),
    })
}

// The number of premises from which it follows that the first cell of row 2 is not black.
fn explained(rt: &impl Abort, bench: &Desk) -> Result<Said, AllocError> {
    let picture = &bench.document().picture;
    assert!(rt; picture.height() == 2 && picture.width() == 2);
    let premises = match bench.why(1, 0, 1)? {
        Why::By(reason) => reason.premises.as_slice().len(),
        _ => 0,
    };
    Ok(Said::Explained(premises))
}

fn allowed(rt: &impl Abort, bench: &mut Desk, splits: u32) {
    assert!(rt; splits <= 1);
    bench.allow(Some(splits));
}

fn answer(rt: &impl Abort, bench: &mut Desk, call: Call) -> Result<Said, EditFault> {
    match call {
        Call::Make(edit) => bench.apply(&edit)?,
        Call::Undo => bench.undo()?,
        Call::Redo => bench.redo()?,
        Call::Allow(splits) => allowed(rt, bench, splits),
        Call::Judge => return Ok(judged(bench)?),
        Call::Certify => return Ok(Said::Certified(bench.certify()?.is_some())),
        Call::Why => return Ok(explained(rt, bench)?),
    }
    Ok(Said::Done)
}

// Makes a call of the first bench, and makes it again where an allocation was refused.
fn asks(rt: &impl Abort, memory: Memory, bench: &mut Desk, still: &Desk, call: Call) -> Said {
    match answer(rt, bench, call) {
        Ok(said) => said,
        Err(fault) => {
            refused(rt, memory, fault, EditFault::Memory);
            same_audit(rt, bench, still);
            answer(rt, bench, call).expect(rt, "only one growth is refused")
        }
    }
}

// Makes a call of the second bench, and makes it again where an allocation was refused.
fn follows(rt: &impl Abort, memory: Memory, bench: &mut Desk, call: Call) -> Said {
    match answer(rt, bench, call) {
        Ok(said) => said,
        Err(fault) => {
            refused(rt, memory, fault, EditFault::Memory);
            answer(rt, bench, call).expect(rt, "only one growth is refused")
        }
    }
}

// A bench for a copy of a document, which can undo two edits.
fn bench_with(rt: &impl Abort, alloc: Global, document: &Document) -> Result<Desk, AllocError> {
    let engine = MaskEngine::make(alloc, MAX_SIDE)?;
    assert!(rt; engine.longest() == MAX_SIDE);
    Bench::start(alloc, document.copy()?, 2, engine, InOrder::make())
}

fn bench_of(rt: &impl Abort, alloc: Global, memory: Memory, document: &Document) -> Desk {
    let first = bench_with(rt, alloc, document);
    first_of(
        rt,
        memory,
        AllocError,
        first,
        bench_with(rt, alloc, document),
    )
}

// Makes the calls of the script on two benches.
fn leads(rt: &impl Abort, memory: Memory, one: &mut Desk, other: &mut Desk) {
    for (call, want) in SCRIPT.iter() {
        let said = asks(rt, memory, one, other, *call);
        assert!(rt; said == *want);
        let said = follows(rt, memory, other, *call);
        assert!(rt; said == *want);
        same_audit(rt, one, other);
    }
}

fn goes_on(rt: &impl Abort, alloc: Global, memory: Memory) {
    let document = document_of(rt, alloc, memory, PAIR);
    let mut one = bench_of(rt, alloc, memory, &document);
    let mut other = bench_of(rt, alloc, memory, &document);
    leads(rt, memory, &mut one, &mut other);
}

#[test]
fn a_refused_growth_changes_nothing(rt: HostRuntime) {
    goes_on(&rt, rt.alloc(), Memory::Refused);
}

#[test]
fn ample_memory_is_enough(rt: HostRuntime) {
    goes_on(&rt, rt.alloc(), Memory::Ample);
}
