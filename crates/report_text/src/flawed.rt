//! The flaws of a puzzle, a line for each.

ghost use Rattle.std.specs.Prelude.{◌≡◌, ◌++◌, OnOk};
ghost use Rattle.std.specs.List.{flat_map};
ghost use Rattle.report_text.specs.AssessmentText.{alike_text, flaw_if, flaws_text, spare_text};

use crate::numbers::push_line;
use crate::shown::colour_letter;
use assess::Assessment;
use flaws::Alike;
use std::alloc::AllocError;
use trail::Cell;

#[tactic(auto, using(std::proofs::lemmas::List::append_assoc))]
/// Appends the flaws.
pub(crate) fn push_flaws(text: &mut Vec<u8>, found: &Assessment) -> Result<(), AllocError>
    ensures { OnOk result (text.new.items ≡ text.old.items ++ flaws_text found.now) }
{
    push_flaw(text, found.is_blank, b"flaw blank")?;
    push_flaw(text, found.lacks_background, b"flaw background")?;
    push_spare(text, found.spare)?;
    push_pairs(text, &found.alike)
}

// The line of a flaw, if there is one.
fn push_flaw(text: &mut Vec<u8>, is_there: bool, words: &[u8]) -> Result<(), AllocError>
    ensures { OnOk result (text.new.items ≡ text.old.items ++ flaw_if is_there words.now) }
{
    if is_there {
        push_line(text, words, &[])?;
    }
    Ok(())
}

// The first given that is not needed, by its row and column, from 1.
fn push_spare(text: &mut Vec<u8>, spare: Option<Cell>) -> Result<(), AllocError>
    ensures { OnOk result (text.new.items ≡ text.old.items ++ spare_text spare) }
{
    let Some(cell) = spare else {
        return Ok(());
    };
    push_line(
        text,
        b"flaw given",
        &[u64::from(cell.row) + 1, u64::from(cell.col) + 1],
    )
}

#[tactic(auto, using(std::proofs::lemmas::List::append_assoc))]
// The colours that look alike, in pairs.
fn push_pairs(text: &mut Vec<u8>, pairs: &[Alike]) -> Result<(), AllocError>
    ensures { OnOk result (text.new.items ≡ text.old.items ++ flat_map alike_text pairs.now) }
{
    for pair in pairs {
        push_pair(text, *pair)?;
    }
    Ok(())
}

#[tactic(auto, using(std::proofs::lemmas::List::append_assoc), unfolding(crate::specs::AssessmentText::alike_text))]
// Two colours that look alike, by their letters.
fn push_pair(text: &mut Vec<u8>, pair: Alike) -> Result<(), AllocError>
    ensures { OnOk result (text.new.items ≡ text.old.items ++ alike_text pair) }
{
    text.extend_from_slice(b"flaw alike ")?;
    text.push(colour_letter(pair.first))?;
    text.push(b' ')?;
    text.push(colour_letter(pair.second))?;
    Ok(text.push(b'\n')?)
}
