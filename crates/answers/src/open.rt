//! A file opened as a document, and a bench that starts with it.

ghost use Rattle.std.specs.Prelude.{◌≡◌, ◌≤◌, ℕ, IfErr, IfOk};
ghost use Rattle.picture.specs.Rows.{cell_at};
ghost use Rattle.edits.specs.Design.{design_of};
ghost use Rattle.program_options.specs.declared.fault.ProgramFault.TheVariants.{Memory};
ghost use Rattle.answers.specs.Open.{FindsPicture, Opened, OpensFile, OpensNon, black_on_white};
ghost use Rattle.answers.specs.Start.{Starts};
ghost use Rattle.program_options.specs.Options.{IsLawful};

use clues::ClueBook;
use line_settle::MaskEngine;
use live_audit::Bench;
use non_text::{NonPuzzle, puzzles_are_in_two_colours, read_non};
use picture::{CellSet, Document, MAX_SIDE, Palette, Picture, Rgb};
use ppm_text::read_ppm;
use program_options::{Options, ProgramFault};
use propagate::InOrder;
use second_search::find_first;
use std::alloc::Global;

const WHITE: Rgb = Rgb {
    r: 255,
    g: 255,
    b: 255,
};

const BLACK: Rgb = Rgb { r: 0, g: 0, b: 0 };

/// A bench with the document that a file is opened as, and an empty history of the depth that the options ask for.
///
/// The error is that of the reader, `NoPicture` where no picture has the clues, or out of memory.
pub fn start_bench(
    alloc: Global,
    file: &[u8],
    options: &Options,
) -> Result<Bench<MaskEngine, InOrder>, ProgramFault>
    requires { IsLawful options.now }
    ensures { Starts file.now options.now result }
{
    let document = open_file(alloc, file, options)?;
    let _ = (document.palette.len(), document.picture.height());
    let engine = MaskEngine::make(alloc, MAX_SIDE)?;
    Ok(Bench::start(alloc, document, options.history, engine, InOrder::make())?)
}

// The document that a file is opened as. A P3 text is read as one. A .non text is opened as its goal in black on
// white, or, without a goal, as the first picture found that has the clues.
fn open_file(alloc: Global, file: &[u8], options: &Options) -> Result<Document, ProgramFault>
    ensures { Opened (OpensFile file.now options.now) result }
{
    if options.non {
        open_non(alloc, file)
    } else {
        Ok(read_ppm(alloc, file, options.background)?)
    }
}

// The document of a .non text.
fn open_non(alloc: Global, text: &[u8]) -> Result<Document, ProgramFault>
    ensures { Opened (OpensNon text.now) result }
{
    puzzles_are_in_two_colours();
    let NonPuzzle { clues, goal } = read_non(alloc, text)?;
    match goal {
        Some(goal) => in_black(alloc, goal),
        None => in_black(alloc, first_picture(alloc, &clues)?),
    }
}

// The first picture found that has the clues.
fn first_picture(alloc: Global, clues: &ClueBook) -> Result<Picture, ProgramFault>
    ensures { FindsPicture clues.now result }
{
    let _ = clues.height();
    let mut engine = MaskEngine::make(alloc, MAX_SIDE)?;
    find_first(alloc, &mut engine, clues)?.ok_or(ProgramFault::NoPicture)
}

// A picture in two colours, in black on white, as a document without givens.
pub(crate) fn in_black(alloc: Global, picture: Picture) -> Result<Document, ProgramFault>
    requires { (row col : ℕ) → cell_at picture row col ≤ 1 }
    ensures value { IfOk result (λ document. design_of document ≡ black_on_white picture) }
    ensures memory { IfErr result (λ e. e ≡ Memory) }
{
    let mut palette = Palette::start(alloc, 255, WHITE).map_err(|_| ProgramFault::Memory)?;
    palette.add(BLACK).map_err(|_| ProgramFault::Memory)?;
    Ok(Document {
        palette,
        picture,
        givens: CellSet::empty(),
    })
}
