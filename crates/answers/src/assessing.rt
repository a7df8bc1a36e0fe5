//! The assessment of a puzzle by the texts of its files: whether it is fit to be published.

ghost use Rattle.std.specs.Prelude.{◌≡◌, option_map};
ghost use Rattle.answers.specs.Assess.{Assesses, Finds, IsGoal, OpensPuzzle, Publishes};
ghost use Rattle.answers.specs.Open.{Opened};

use crate::open::in_black;
use assess::{Assessment, assess, assess_by};
use cert_text::read_cert;
use line_settle::MaskEngine;
use non_text::{NonPuzzle, puzzles_are_in_two_colours, read_non};
use picture::{Document, MAX_SIDE};
use ppm_text::read_ppm;
use program_options::{AssessOptions, ProgramFault};
use report_text::{palette_text, push_assessment};
use std::alloc::Global;
use text_check::published_cells;

/// What is found of a puzzle, as text; which colour each letter is, as text; and whether the puzzle is fit to be published.
#[derive(Drop)]
pub struct Block {
    pub text: Vec<u8>,
    pub palette: Vec<u8>,
    pub is_fit: bool,
}

/// Assesses the puzzle of a P3 text, or of a .non text with a goal. `givens` is the text of a file of givens, which are published
/// in place of the picture's own. `cert` is the text of a certificate, which takes the place of the search for another solution.
///
/// The error is that of the first that refuses: the reader of the puzzle (`NoGoal` for a .non text without a goal), of the givens,
/// of the certificate, the checker; or `Memory`.
pub fn run_assess(
    alloc: Global,
    file: &[u8],
    givens: Option<&[u8]>,
    cert: Option<&[u8]>,
    options: &AssessOptions,
) -> Result<Block, ProgramFault>
    ensures { Assesses file.now (option_map (λ text. text.now) givens.entry)
        (option_map (λ text. text.now) cert.entry) options.now result }
{
    let document = published_puzzle(alloc, file, givens, options)?;
    let found = found_of(alloc, &document, cert, options)?;
    let mut text = Vec::new(alloc);
    push_assessment(&mut text, &found)?;
    let palette = palette_text(alloc, &document.palette)?;
    Ok(Block {
        text,
        palette,
        is_fit: found.is_fit(),
    })
}

// The puzzle of a file, with the givens that are published.
fn published_puzzle(
    alloc: Global,
    file: &[u8],
    givens: Option<&[u8]>,
    options: &AssessOptions,
) -> Result<Document, ProgramFault>
    ensures { Publishes file.now (option_map (λ text. text.now) givens.entry) options.now result }
{
    let document = open_puzzle(alloc, file, options)?;
    let Some(givens) = givens else {
        return Ok(document);
    };
    let (height, width) = (document.picture.height(), document.picture.width());
    let givens = published_cells(givens, height, width)?;
    Ok(Document {
        givens,
        palette: document.palette,
        picture: document.picture,
    })
}

// The puzzle of a file: a P3 text, or the goal of a .non text in black on white.
fn open_puzzle(
    alloc: Global,
    file: &[u8],
    options: &AssessOptions,
) -> Result<Document, ProgramFault>
    ensures { Opened (OpensPuzzle file.now options.now) result }
{
    if options.non {
        open_goal(alloc, file)
    } else {
        Ok(read_ppm(alloc, file, options.background)?)
    }
}

// The goal of a .non text in black on white.
fn open_goal(alloc: Global, text: &[u8]) -> Result<Document, ProgramFault>
    ensures { Opened (IsGoal text.now) result }
{
    puzzles_are_in_two_colours();
    let NonPuzzle { goal, .. } = read_non(alloc, text)?;
    match goal {
        Some(goal) => in_black(alloc, goal),
        None => Err(ProgramFault::NoGoal),
    }
}

// What is found of a puzzle, by the text of a certificate if there is one.
fn found_of(
    alloc: Global,
    document: &Document,
    cert: Option<&[u8]>,
    options: &AssessOptions,
) -> Result<Assessment, ProgramFault>
    ensures { Finds document.now (option_map (λ text. text.now) cert.entry) options.now result }
{
    let mut engine = MaskEngine::make(alloc, MAX_SIDE)?;
    let Some(cert) = cert else {
        return Ok(assess(alloc, &mut engine, document, options.allowance)?);
    };
    let cert = read_cert(alloc, cert)?;
    Ok(assess_by(alloc, &mut engine, document, &cert)?)
}
