//! Settling clues with the line engine (`plain` or `mask`) and the agenda (`inorder` or `newest`) that words name.

ghost use Rattle.std.specs.Prelude.{◌≤◌};

use anyhow::{Result, bail, ensure};
use clues::ClueBook;
use fixpoint::{Agenda, CloseFault, InOrder, NewestFirst, settle_afresh};
use line_facts::{Facts, LineEngine, NOTHING_DONE};
use line_settle::{MaskEngine, PlainEngine};
use picture::MAX_SIDE;
use std::alloc::Global;

/// How many evaluations settling took, and the settled facts, or None where some line has no list that fits it.
#[derive(Drop)]
pub struct Settled {
    pub evaluations: u64,
    pub facts: Option<Facts>,
}

/// Settles clues over a base with the engine and the agenda that words name.
pub fn settled_by(
    alloc: Global,
    engine: &str,
    agenda: &str,
    clues: &ClueBook,
    base: &Facts,
) -> Result<Settled> {
    match engine {
        "plain" => {
            let mut engine = PlainEngine::make(alloc, MAX_SIDE)?;
            settled_with(&mut engine, agenda, clues, base)
        }
        "mask" => {
            let mut engine = MaskEngine::make(alloc, MAX_SIDE)?;
            settled_with(&mut engine, agenda, clues, base)
        }
        _ => bail!("an engine is plain or mask"),
    }
}

// Settles with the agenda that a word names.
fn settled_with<E: LineEngine>(
    engine: &mut E,
    agenda: &str,
    clues: &ClueBook,
    base: &Facts,
) -> Result<Settled>
    requires { MAX_SIDE ≤ E.longest engine.old }
{
    match agenda {
        "inorder" => settle(engine, &mut InOrder::make(), clues, base),
        "newest" => settle(engine, &mut NewestFirst::make(), clues, base),
        _ => bail!("an agenda is inorder or newest"),
    }
}

// Settles clues over a base.
fn settle<E: LineEngine, A: Agenda>(
    engine: &mut E,
    agenda: &mut A,
    clues: &ClueBook,
    base: &Facts,
) -> Result<Settled>
    requires { MAX_SIDE ≤ E.longest engine.old }
{
    ensure!(base.height() == clues.height(), "the heights differ");
    ensure!(base.width() == clues.width(), "the widths differ");
    let mut meter = NOTHING_DONE;
    let facts = match settle_afresh(engine, agenda, clues, &mut meter, base) {
        Ok(facts) => Some(facts),
        Err(CloseFault::Dead) => None,
        Err(fault) => bail!("{fault}"),
    };
    Ok(Settled {
        evaluations: meter.evaluations,
        facts,
    })
}
