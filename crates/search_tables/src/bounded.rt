//! Judging and certifying a picture within bounds.

ghost use Rattle.std.specs.Prelude.{◌≤◌};
ghost use Rattle.second_search.specs.Parts.{IsScene};

use crate::search::{Said, Tally};
use anyhow::{Result, bail, ensure};
use certificate::{make_cert_within, write_cert};
use line_facts::LineEngine;
use picture::Document;
use second_search::{Bounds, Ending, Parts, Scene, decide_within};
use std::alloc::Global;

/// Decides the parts of a scene one after another, each within bounds, up to the first that has another filling.
pub fn decide<E: LineEngine>(
    alloc: Global,
    engine: &mut E,
    scene: &Scene,
    bounds: Bounds,
) -> Result<Tally>
    requires { IsScene scene.now.clues.now scene.now.givens.now scene.now.facts.now
        scene.now.picture.now }
{
    let clues = scene.clues;
    ensure!(clues.height() <= engine.longest(), "too many rows");
    ensure!(clues.width() <= engine.longest(), "too many columns");
    let mut tally = Tally {
        said: Said::Unique,
        searched: 0,
        splits: 0,
        evaluations: 0,
    };
    let parts = Parts::of(alloc, scene.facts)?;
    let before = engine.calls();
    for i in 0..parts.len() {
        tally.searched = tally.searched.saturating_add(1);
        let searched = decide_within(alloc, engine, scene, parts.cells(i), bounds)?;
        tally.splits = tally.splits.saturating_add(searched.splits);
        match searched.ending {
            Ending::Nothing => {}
            Ending::Found(picture) => {
                tally.said = Said::Other(picture);
                break;
            }
            Ending::BrokenOff => bail!("a part was left undecided"),
        }
    }
    tally.evaluations = engine.calls().saturating_sub(before);
    Ok(tally)
}

/// Makes a certificate of a document within bounds, and appends its lines to a text, each with a `|` after it; or appends
/// `none`.
pub fn push_cert<E: LineEngine>(
    alloc: Global,
    engine: &mut E,
    document: &Document,
    bounds: Bounds,
    text: &mut String,
) -> Result<()> {
    let picture = &document.picture;
    ensure!(picture.height() <= engine.longest(), "too many rows");
    ensure!(picture.width() <= engine.longest(), "too many columns");
    let Some(cert) = make_cert_within(alloc, engine, picture, &document.givens, bounds, None)?
    else {
        text.push_str("none")?;
        return Ok(());
    };
    let mut bytes: Vec<u8> = Vec::new(alloc);
    ensure!(
        write_cert(&cert, &mut bytes).is_ok(),
        "no certificate is written"
    );
    for byte in bytes.iter() {
        text.push(if *byte == b'\n' {
            '|'
        } else {
            char::from(*byte)
        })?;
    }
    Ok(())
}
