//! An assessment as text.

ghost use Rattle.std.specs.Prelude.{◌≡◌, ◌++◌, OnOk};
ghost use Rattle.report_text.specs.AssessmentText.{assessment_text, word_text};

use crate::flawed::push_flaws;
use crate::rating::{push_counts, push_rating, push_verdict};
use assess::Assessment;
use std::alloc::AllocError;

#[tactic(auto, using(std::proofs::lemmas::List::append_assoc))]
/// Appends an assessment to a text, a line for each thing found, the last of them `fit` or `unfit`. Where memory is refused, a
/// part may have been appended.
pub fn push_assessment(text: &mut Vec<u8>, found: &Assessment) -> Result<(), AllocError>
    ensures { OnOk result (text.new.items ≡ text.old.items ++ assessment_text found.now) }
{
    push_verdict(text, &found.verdict)?;
    push_counts(text, found)?;
    push_rating(text, found)?;
    push_flaws(text, found)?;
    push_word(text, found.is_fit())
}

// Whether the puzzle is fit to be published.
fn push_word(text: &mut Vec<u8>, is_fit: bool) -> Result<(), AllocError>
    ensures { OnOk result (text.new.items ≡ text.old.items ++ word_text is_fit) }
{
    if is_fit {
        text.extend_from_slice(b"fit\n")
    } else {
        text.extend_from_slice(b"unfit\n")
    }
}
