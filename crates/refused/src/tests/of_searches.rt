//! Searches, and what is kept of parts.

ghost use Rattle.std.specs.Prelude.{◌≡◌, IfOk};
ghost use Rattle.clues.specs.ClueBook.{clues_of};
ghost use Rattle.line_facts.specs.FactSets.{IsLeast};
ghost use Rattle.second_search.specs.JudgedParts.{AreTrue, parts_of};
ghost use Rattle.second_search.specs.Other.{AreSound};
ghost use Rattle.second_search.specs.Parts.{AreParts, IsScene};

use super::made::{DIAGONALS, engine_of};
use super::shown::cells_of;
use super::{Memory, equal, first_of, refused};
use clues::ClueBook;
use line_facts::{Facts, LineEngine, NOTHING_DONE};
use line_settle::MaskEngine;
use picture::{CellSet, Picture};
use ppm_text::read_ppm;
use propagate::{CloseFault, InOrder, settle_afresh};
use second_search::{Judged, Keeper, Scene, find_first, find_other, laws};
use std::alloc::{AllocError, Global};
use std::process::Abort;

// The two diagonals with one more red cell: the second part is now settled, and the lines through the first are as before.
const PAINTED: &[u8] =
    b"P3 4 4 1 0 0 0 1 1 1 1 1 1 1 1 1 1 1 1 0 0 0 1 1 1 1 1 1 1 1 1 1 1 1 1 0 0 1 1 1 1 1 1 1 1 1 1 0 0 1 0 0\n";

// The other filling of the first part, before that and after it.
const OTHER: [u8; 16] = [0, 1, 0, 0, 1, 0, 0, 0, 0, 0, 2, 0, 0, 0, 0, 2];

const OTHER_PAINTED: [u8; 16] = [0, 1, 0, 0, 1, 0, 0, 0, 0, 0, 2, 0, 0, 0, 2, 2];

// A picture with its clues and its settled map, and no given.
#[derive(Drop)]
struct Puzzle {
    picture: Picture,
    book: ClueBook,
    givens: CellSet,
    facts: Facts,
}

fn picture_of(alloc: Global, file: &[u8]) -> Result<Picture, AllocError> {
    match read_ppm(alloc, file, None) {
        Ok(document) => document.picture.copy(),
        Err(_) => Err(AllocError),
    }
}

// Facts and givens from which a search starts.
#[derive(Drop)]
struct Start {
    facts: Facts,
    givens: CellSet,
}

// Facts that exclude nothing, and no given.
fn started(alloc: Global, picture: &Picture) -> Result<Start, AllocError>
    ensures { IfOk result (λ start.
        AreSound (clues_of picture.now) start.givens picture.now start.facts) }
{
    laws::sound_facts();
    let facts = Facts::none(alloc, picture.height(), picture.width())?;
    Ok(Start {
        facts,
        givens: CellSet::empty(),
    })
}

// The map that the clues settle from a base.
fn settled(
    rt: &impl Abort,
    engine: &mut MaskEngine,
    book: &ClueBook,
    base: &Facts,
) -> Result<Facts, AllocError>
    ensures { IfOk result (IsLeast book.now base.now) }
{
    assert!(rt; base.height() == book.height() && base.width() == book.width());
    assert!(rt; base.height() <= engine.longest() && base.width() <= engine.longest());
    match settle_afresh(engine, &mut InOrder::make(), book, &mut NOTHING_DONE, base) {
        Ok(facts) => Ok(facts),
        Err(CloseFault::Memory) => Err(AllocError),
        Err(CloseFault::Dead) => panic!(rt; "the clues of a picture settle"),
    }
}

// A puzzle whose map is settled from a start.
fn puzzle_with(picture: Picture, book: ClueBook, start: Start, facts: Facts) -> Puzzle
    requires clues { clues_of picture ≡ book }
    requires sound { AreSound (clues_of picture) start.givens picture start.facts }
    requires least { IsLeast book start.facts facts }
    ensures { IsScene result.book result.givens result.facts result.picture }
{
    laws::sound_facts();
    let _ = picture.height();
    Puzzle {
        picture,
        book,
        givens: start.givens,
        facts,
    }
}

fn puzzle_of(
    rt: &impl Abort,
    alloc: Global,
    engine: &mut MaskEngine,
    file: &[u8],
) -> Result<Puzzle, AllocError>
    ensures { IfOk result (λ puzzle.
        IsScene puzzle.book puzzle.givens puzzle.facts puzzle.picture) }
{
    let picture = picture_of(alloc, file)?;
    let book = ClueBook::of(alloc, &picture)?;
    let start = started(alloc, &picture)?;
    let facts = settled(rt, engine, &book, &start.facts)?;
    Ok(puzzle_with(picture, book, start, facts))
}

// Makes a puzzle, and makes it again where an allocation was refused.
fn first_puzzle(
    rt: &impl Abort,
    alloc: Global,
    memory: Memory,
    engine: &mut MaskEngine,
    file: &[u8],
) -> Puzzle
    ensures { IsScene result.book result.givens result.facts result.picture }
{
    match puzzle_of(rt, alloc, engine, file) {
        Ok(puzzle) => puzzle,
        Err(fault) => {
            refused(rt, memory, fault, AllocError);
            puzzle_of(rt, alloc, engine, file).expect(rt, "only one growth is refused")
        }
    }
}

// Starts a keeper for the parts of a puzzle, again where an allocation was refused.
fn first_keeper(rt: &impl Abort, alloc: Global, memory: Memory, puzzle: &Puzzle) -> Keeper
    ensures parts { AreParts puzzle.now.facts (parts_of result) }
    ensures true_answers { AreTrue puzzle.now.book puzzle.now.givens puzzle.now.picture result }
{
    match Keeper::start(alloc, &puzzle.facts) {
        Ok(keeper) => keeper,
        Err(fault) => {
            refused(rt, memory, fault, AllocError);
            Keeper::start(alloc, &puzzle.facts).expect(rt, "only one growth is refused")
        }
    }
}

// Looks for a picture with the clues.
fn finds_first(
    rt: &impl Abort,
    alloc: Global,
    memory: Memory,
    engine: &mut MaskEngine,
    book: &ClueBook,
) {
    assert!(rt; book.height() <= engine.longest() && book.width() <= engine.longest());
    let first = find_first(alloc, engine, book);
    let second = find_first(alloc, engine, book);
    let found = first_of(rt, memory, AllocError, first, second).expect(rt, "a picture");
    assert!(rt; book.has_clues(&found));
}

fn other(
    rt: &impl Abort,
    alloc: Global,
    engine: &mut MaskEngine,
    puzzle: &Puzzle,
) -> Result<Option<Picture>, AllocError>
    requires { IsScene puzzle.now.book puzzle.now.givens puzzle.now.facts puzzle.now.picture }
{
    let Puzzle {
        picture,
        book,
        givens,
        facts,
    } = puzzle;
    assert!(rt; book.height() <= engine.longest() && book.width() <= engine.longest());
    find_other(alloc, engine, book, givens, facts, picture)
}

// Looks for another picture with the clues of the puzzle.
fn finds_other(
    rt: &impl Abort,
    alloc: Global,
    memory: Memory,
    engine: &mut MaskEngine,
    puzzle: &Puzzle,
)
    requires { IsScene puzzle.now.book puzzle.now.givens puzzle.now.facts puzzle.now.picture }
{
    let first = other(rt, alloc, engine, puzzle);
    let second = other(rt, alloc, engine, puzzle);
    let other = first_of(rt, memory, AllocError, first, second).expect(rt, "another picture");
    assert!(rt; puzzle.book.has_clues(&other) && !other.same(&puzzle.picture));
}

// The other picture that a judgement returns, and how many parts were searched with how many splits.
#[derive(Clone, Copy, PartialEq, Eq)]
struct Report {
    other: Option<[u8; 16]>,
    searched: u32,
    splits: u32,
}

fn judge(
    rt: &impl Abort,
    engine: &mut MaskEngine,
    keeper: &mut Keeper,
    puzzle: &Puzzle,
) -> Result<Report, AllocError>
    requires scene { IsScene puzzle.now.book puzzle.now.givens puzzle.now.facts puzzle.now.picture }
    requires parts { AreParts puzzle.now.facts (parts_of keeper.old) }
    requires true_answers { AreTrue puzzle.now.book puzzle.now.givens puzzle.now.picture
        keeper.old }
    ensures parts { AreParts puzzle.now.facts (parts_of keeper.new) }
    ensures true_answers { AreTrue puzzle.now.book puzzle.now.givens puzzle.now.picture keeper.new }
{
    let scene = Scene {
        clues: &puzzle.book,
        givens: &puzzle.givens,
        facts: &puzzle.facts,
        picture: &puzzle.picture,
    };
    let (mut meter, mut searched, mut splits) = (NOTHING_DONE, 0, 0);
    let (height, width) = (puzzle.book.height(), puzzle.book.width());
    assert!(rt; height <= engine.longest() && width <= engine.longest());
    let judged = keeper.judge(engine, &scene, None, &mut meter, &mut searched, &mut splits)?;
    let other = match judged {
        Judged::Other(picture) => Some(cells_of(picture)),
        _ => None,
    };
    Ok(Report {
        other,
        searched,
        splits,
    })
}

// Judges a picture, again where an allocation was refused; then no other filling was kept.
fn judge_again(
    rt: &impl Abort,
    memory: Memory,
    engine: &mut MaskEngine,
    keeper: &mut Keeper,
    puzzle: &Puzzle,
) -> Report
    requires scene { IsScene puzzle.now.book puzzle.now.givens puzzle.now.facts puzzle.now.picture }
    requires parts { AreParts puzzle.now.facts (parts_of keeper.old) }
    requires true_answers { AreTrue puzzle.now.book puzzle.now.givens puzzle.now.picture
        keeper.old }
    ensures parts { AreParts puzzle.now.facts (parts_of keeper.new) }
    ensures true_answers { AreTrue puzzle.now.book puzzle.now.givens puzzle.now.picture keeper.new }
{
    match judge(rt, engine, keeper, puzzle) {
        Ok(report) => report,
        Err(fault) => {
            refused(rt, memory, fault, AllocError);
            assert!(rt; keeper.other().is_none());
            judge(rt, engine, keeper, puzzle).expect(rt, "only one growth is refused")
        }
    }
}

// The cells of the other filling that is kept.
fn kept(rt: &impl Abort, keeper: &Keeper) -> [u8; 16] {
    cells_of(keeper.other().expect(rt, "another filling"))
}

fn carry(keeper: &Keeper, before: &Puzzle, after: &Puzzle) -> Result<Keeper, AllocError>
    requires before { IsScene before.now.book before.now.givens before.now.facts
        before.now.picture }
    requires after { IsScene after.now.book after.now.givens after.now.facts after.now.picture }
    requires parts { AreParts before.now.facts (parts_of keeper.now) }
    requires true_answers { AreTrue before.now.book before.now.givens before.now.picture
        keeper.now }
{
    let before = Scene {
        clues: &before.book,
        givens: &before.givens,
        facts: &before.facts,
        picture: &before.picture,
    };
    let after = Scene {
        clues: &after.book,
        givens: &after.givens,
        facts: &after.facts,
        picture: &after.picture,
    };
    keeper.carry(&before, &after)
}

// Judges a picture, whose first part is searched, and carries what is kept to another picture. The other picture that is
// returned is the one that is kept, and it is returned again without a search.
fn judges(
    rt: &impl Abort,
    memory: Memory,
    engine: &mut MaskEngine,
    keeper: &mut Keeper,
    before: &Puzzle,
    after: &Puzzle,
)
    requires before { IsScene before.now.book before.now.givens before.now.facts
        before.now.picture }
    requires after { IsScene after.now.book after.now.givens after.now.facts after.now.picture }
    requires parts { AreParts before.now.facts (parts_of keeper.old) }
    requires true_answers { AreTrue before.now.book before.now.givens before.now.picture
        keeper.old }
{
    let report = judge_again(rt, memory, engine, keeper, before);
    assert!(rt; report.other == Some(OTHER) && report.searched == 1 && report.splits == 1);
    equal(rt, "what is kept", kept(rt, keeper), OTHER);
    let report = judge_again(rt, memory, engine, keeper, before);
    assert!(rt; report.other == Some(OTHER) && report.searched == 0 && report.splits == 0);
    let first = carry(keeper, before, after);
    let second = carry(keeper, before, after);
    let next = first_of(rt, memory, AllocError, first, second);
    equal(rt, "what is carried", kept(rt, &next), OTHER_PAINTED);
}

// Searches, judges and carries.
fn goes_on(rt: &impl Abort, alloc: Global, memory: Memory) {
    let mut engine = engine_of(rt, alloc, memory);
    let before = first_puzzle(rt, alloc, memory, &mut engine, DIAGONALS);
    let after = first_puzzle(rt, alloc, memory, &mut engine, PAINTED);
    finds_first(rt, alloc, memory, &mut engine, &before.book);
    finds_other(rt, alloc, memory, &mut engine, &before);
    let mut keeper = first_keeper(rt, alloc, memory, &before);
    judges(rt, memory, &mut engine, &mut keeper, &before, &after);
}

#[test]
fn a_refused_growth_changes_nothing(rt: HostRuntime) {
    goes_on(&rt, rt.alloc(), Memory::Refused);
}

#[test]
fn ample_memory_is_enough(rt: HostRuntime) {
    goes_on(&rt, rt.alloc(), Memory::Ample);
}
