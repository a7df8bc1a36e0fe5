//! A grade as text.

ghost use Rattle.std.specs.Prelude.{◌≡◌, ◌++◌, OnOk};
ghost use Rattle.report_text.specs.GradeText.{figures_text, grade_text, unknown_text, word_text};

use crate::numbers::push_numbers;
use grade::{Figures, Grade, Word};
use std::alloc::AllocError;

#[tactic(auto, using(std::proofs::lemmas::List::append_assoc))]
/// Appends the line of a grade to a text, as `grade easy 2 8 2 0 0`: the word, the rounds, the evaluations, the longest wait,
/// the splits and their depth. Where memory is refused, a part may have been appended.
pub(crate) fn push_grade(text: &mut Vec<u8>, grade: &Grade) -> Result<(), AllocError>
    ensures { OnOk result (text.new.items ≡ text.old.items ++ grade_text grade.now) }
{
    text.extend_from_slice(b"grade ")?;
    push_word(text, grade.word)?;
    push_figures(text, &grade.figures)?;
    push_numbers(text, &[grade.splits, grade.depth])?;
    Ok(text.push(b'\n')?)
}

#[tactic(auto, using(std::proofs::lemmas::List::append_assoc))]
/// Appends the line of a grade to a text for which no certificate was found, as `grade unknown 2 10 4`: the rounds, the
/// evaluations and the longest wait. Where memory is refused, a part may have been appended.
pub(crate) fn push_unknown(text: &mut Vec<u8>, figures: &Figures) -> Result<(), AllocError>
    ensures { OnOk result (text.new.items ≡ text.old.items ++ unknown_text figures.now) }
{
    text.extend_from_slice(b"grade unknown")?;
    push_figures(text, figures)?;
    Ok(text.push(b'\n')?)
}

// The figures of line logic.
fn push_figures(text: &mut Vec<u8>, figures: &Figures) -> Result<(), AllocError>
    ensures { OnOk result (text.new.items ≡ text.old.items ++ figures_text figures.now) }
{
    push_numbers(text, &[figures.rounds, figures.evaluations, figures.wait])
}

// The word.
fn push_word(text: &mut Vec<u8>, word: Word) -> Result<(), AllocError>
    ensures { OnOk result (text.new.items ≡ text.old.items ++ word_text word) }
{
    match word {
        Word::Easy => text.extend_from_slice(b"easy"),
        Word::Medium => text.extend_from_slice(b"medium"),
        Word::Hard => text.extend_from_slice(b"hard"),
        Word::VeryHard => text.extend_from_slice(b"very-hard"),
        Word::Expert => text.extend_from_slice(b"expert"),
    }
}
