//! The verdict, the counts and the grade.

ghost use Rattle.std.specs.Prelude.{◌≡◌, ◌++◌, OnOk};
ghost use Rattle.report_text.specs.AssessmentText.{counts_text, rating_text, verdict_text};

use crate::grading::{push_grade, push_unknown};
use crate::numbers::push_line;
use crate::shown::push_picture;
use assess::{Assessment, Verdict};
use std::alloc::AllocError;

#[tactic(auto, using(std::proofs::lemmas::List::append_assoc))]
/// Appends the verdict, and the rows of the other picture if there is one.
pub(crate) fn push_verdict(text: &mut Vec<u8>, verdict: &Verdict) -> Result<(), AllocError>
    ensures { OnOk result (text.new.items ≡ text.old.items ++ verdict_text verdict.now) }
{
    match verdict {
        Verdict::Unique => text.extend_from_slice(b"unique\n"),
        Verdict::Ambiguous(other) => {
            text.extend_from_slice(b"ambiguous\n")?;
            push_picture(text, other)
        }
        Verdict::Undecided => text.extend_from_slice(b"undecided\n"),
    }
}

#[tactic(auto, using(std::proofs::lemmas::List::append_assoc))]
/// Appends the size, and how many colours, givens and open cells there are.
pub(crate) fn push_counts(text: &mut Vec<u8>, found: &Assessment) -> Result<(), AllocError>
    ensures { OnOk result (text.new.items ≡ text.old.items ++ counts_text found.now) }
{
    push_line(
        text,
        b"size",
        &[u64::from(found.height), u64::from(found.width)],
    )?;
    push_line(text, b"colours", &[u64::from(found.colours)])?;
    push_line(text, b"givens", &[found.givens as u64])?;
    push_line(text, b"open", &[found.figures.open])
}

/// Appends the grade, if the puzzle is unique.
pub(crate) fn push_rating(text: &mut Vec<u8>, found: &Assessment) -> Result<(), AllocError>
    ensures { OnOk result (text.new.items ≡ text.old.items ++ rating_text found.now) }
{
    match (&found.verdict, &found.grade) {
        (Verdict::Unique, Some(grade)) => push_grade(text, grade),
        (Verdict::Unique, None) => push_unknown(text, &found.figures),
        _ => Ok(()),
    }
}
