//! Evaluates one line many times.
//! The words are the engine (`plain` or `mask`, or `sweep` for leaving out what is not needed to force what the line
//! excludes), the number of cells up to 120, the number of blocks from 1 on, how many cells are
//! settled (`open`, `half`, `nearly` or `settled`) and the number of rounds.

ghost use Rattle.std.specs.Prelude.{◌≡◌, ◌≤◌, length};
ghost use Rattle.picture.specs.declared.picture.TheConstants.{MAX_SIDE};

use crate::sweeping::{draw, leave_out_often};
use anyhow::{Context, Result, bail, ensure};
use clues::{Block, Clue};
use line_facts::{LineEngine, Outcome};
use line_settle::{MaskEngine, PlainEngine};
use std::alloc::{AllocError, Global};
use table_words::MOST;

/// Which cells have one colour left before the evaluation.
#[derive(Clone, Copy, Debug, PartialEq, Eq)]
enum Settled {
    Open,
    Half,
    Nearly,
    All,
}

impl Settled {
    fn has(self, cell: usize) -> bool {
        match self {
            Settled::Open => false,
            Settled::Half => cell % 2 == 0,
            Settled::Nearly => cell % 15 != 7,
            Settled::All => true,
        }
    }
}

/// A line of blocks of one length with one cell between each two, and which of its cells are settled.
#[derive(Debug, Drop)]
struct Task {
    cells: usize,
    blocks: u8,
    len: u8,
    settled: Settled,
    rounds: u32,
    ghost short: { cells ≤ MAX_SIDE },
}

/// Evaluates the line that the words name, and prints how often and how many cells stay open; with `sweep` it leaves out what
/// is not needed, and prints how many cells keep their mask.
pub fn tell(rt: &(impl AllocGlobal + Print), words: &[&str]) -> Result<()> {
    let [engine, cells, blocks, settled, rounds] = words else {
        bail!("line ENGINE CELLS BLOCKS SETTLED ROUNDS");
    };
    let task = task_of(cells, blocks, settled, rounds)?;
    if *engine == "sweep" {
        let kept = sweep(rt.alloc(), &task)?;
        println!(rt; "{kept} cells kept")?;
        return Ok(());
    }
    let (evaluations, open) = match *engine {
        "plain" => evaluate(
            rt.alloc(),
            &mut PlainEngine::make(rt.alloc(), MOST as u8)?,
            &task,
        )?,
        "mask" => evaluate(
            rt.alloc(),
            &mut MaskEngine::make(rt.alloc(), MOST as u8)?,
            &task,
        )?,
        _ => bail!("an engine is plain or mask, or else sweep"),
    };
    println!(rt; "{evaluations} evaluations, {open} cells open")?;
    Ok(())
}

// The task that the words name.
fn task_of(cells: &str, blocks: &str, settled: &str, rounds: &str) -> Result<Task> {
    let cells: usize = cells.parse().context("the number of cells")?;
    let blocks: u8 = blocks.parse().context("the number of blocks")?;
    let rounds: u32 = rounds.parse().context("the number of rounds")?;
    let settled = match settled {
        "open" => Settled::Open,
        "half" => Settled::Half,
        "nearly" => Settled::Nearly,
        "settled" => Settled::All,
        _ => bail!("open, half, nearly or settled"),
    };
    ensure!(
        0 < blocks && cells <= MOST,
        "too few blocks or too many cells"
    );
    let len = (cells / 2 / usize::from(blocks.max(1))).clamp(1, 60) as u8;
    Ok(Task {
        cells,
        blocks,
        len,
        settled,
        rounds,
    })
}

// The clue of the line.
fn clue_of(alloc: Global, task: &Task) -> Result<Clue, AllocError> {
    let len = task.len.max(1);
    let blocks = vec![in alloc; Block { len, colour: 1 }; task.blocks as usize]?;
    Clue::from_blocks(alloc, &blocks)
}

// The colours left in a cell: only its own where it is settled, and otherwise all.
fn left_in(task: &Task, cell: usize) -> u16 {
    let period = usize::from(task.len) + 1;
    let is_block = cell % period != period - 1 && cell / period < usize::from(task.blocks);
    if !task.settled.has(cell) {
        u16::MAX
    } else if is_block {
        2
    } else {
        1
    }
}

// Evaluates the line, and returns how often, and how many cells have more than one colour left in the end.
fn evaluate<E: LineEngine>(alloc: Global, engine: &mut E, task: &Task) -> Result<(u64, usize)>
    requires { MAX_SIDE ≤ E.longest engine.old }
{
    let clue = clue_of(alloc, task)?;
    let mut left = [u16::MAX; MOST];
    for cell in 0..MOST {
        left[cell] = left_in(task, cell);
    }
    let mut out = [0; MOST];
    let (count, outcome) = narrow_often(
        engine,
        &clue,
        task.rounds,
        &left[..task.cells],
        &mut out[..task.cells],
    );
    ensure!(outcome == Outcome::Narrowed, "no list of colours fits");
    let open = out.iter().filter(|mask| mask.count_ones() > 1).count();
    Ok((count, open))
}

// Evaluates the line `rounds` times. Returns the count, and the last outcome.
fn narrow_often<E: LineEngine>(
    engine: &mut E,
    clue: &Clue,
    rounds: u32,
    left: &[u16],
    out: &mut [u16],
) -> (u64, Outcome)
    requires same_length { length left.now ≡ length out.old }
    requires short { length left.now ≤ E.longest engine.old }
{
    let mut count = 0;
    let mut outcome = Outcome::Narrowed;
    for _ in 0..rounds {
        outcome = engine.narrow(&mut count, clue, left, out);
    }
    (count, outcome)
}

// Leaves out on the line what is not needed to force all that it excludes, and returns how many cells keep their mask.
fn sweep(alloc: Global, task: &Task) -> Result<usize> {
    let clue = clue_of(alloc, task)?;
    let mut engine = MaskEngine::make(alloc, MOST as u8)?;
    let mut left = [u16::MAX; MOST];
    for cell in 0..MOST {
        left[cell] = left_in(task, cell);
    }
    let mut drawn = [0; MOST];
    let mut kept = [0; MOST];
    let left = &left[..task.cells];
    let drawn = &mut drawn[..task.cells];
    let kept = &mut kept[..task.cells];
    draw(&mut engine, &clue, left, kept, drawn);
    leave_out_often(&clue, drawn, left, task.rounds, kept);
    Ok(kept.iter().filter(|mask| **mask != u16::MAX).count())
}
