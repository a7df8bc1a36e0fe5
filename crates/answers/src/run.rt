//! The program's run without arguments: it shows the clues of its input.

ghost use Rattle.picture.specs.Readers.{Gives};
ghost use Rattle.ppm_text.specs.Ppm.{ppm_of};
ghost use Rattle.edits.specs.Design.{design_of};
ghost use Rattle.answers.specs.Run.{after_edit, shown, shown_for, Writes};

use clues::ClueBook;
use edits::{Edit, Entry};
use picture::{Document, send};
use ppm_text::read_ppm;
use program_options::ProgramFault;
use report_text::clues_text;
use std::alloc::Global;
use std::io::Write;

/// Writes the clues of the picture that a P3 text gives. With `paint`, a row, a column and a colour, all from 0, that
/// cell is painted first. After a write error a prefix of the clues was written, and after any other
/// error nothing.
pub fn run_clues<W: Write>(
    alloc: Global,
    bytes: &[u8],
    paint: Option<(u8, u8, u8)>,
    writer: &mut W,
) -> Result<(), ProgramFault>
    ensures { Writes (W.contents writer.old) (W.contents writer.new) result
        (shown bytes.now paint) }
{
    let edit = paint.map(|(row, col, colour)| Edit::Paint { row, col, colour });
    let text = answer_text(alloc, bytes, edit)?;
    Ok(send(&text, writer)?)
}

// The clues of the picture, as text.
fn answer_text(alloc: Global, bytes: &[u8], edit: Option<Edit>) -> Result<Vec<u8>, ProgramFault>
    ensures { Gives ProgramFault.Memory (λ v. v.items) result (shown_for bytes.now edit) }
{
    let document = edited_document(alloc, bytes, edit)?;
    let book = ClueBook::of(alloc, &document.picture)?;
    Ok(clues_text(alloc, &book)?)
}

// The document that the text gives, after an edit where one is asked for.
fn edited_document(
    alloc: Global,
    bytes: &[u8],
    edit: Option<Edit>,
) -> Result<Document, ProgramFault>
    ensures { Gives ProgramFault.Memory design_of result (after_edit edit (ppm_of bytes.now None)) }
{
    let document = read_ppm(alloc, bytes, None)?;
    let Some(edit) = edit else {
        return Ok(document);
    };
    if let Some(fault) = edit.refusal(&document) {
        return Err(ProgramFault::Edit(fault));
    }
    Ok(Entry::of(alloc, &document, &edit)?.apply(&document)?)
}
