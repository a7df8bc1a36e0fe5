//! A reason as text.

ghost use Rattle.std.specs.Prelude.{◌≡◌, ◌∷◌, ◌++◌, [], decimal, OnOk};
ghost use Rattle.std.specs.List.{flat_map};
ghost use Rattle.report_text.specs.ReasonText.{letters_left, premise_text, premises_text, reason_text};

use crate::clue_text::push_name;
use crate::numbers::push_number;
use crate::shown::{has_colour, letter_of};
use justify::{Premise, Reason};
use picture::MAX_COLOURS;
use std::alloc::AllocError;

#[tactic(auto, using(std::proofs::lemmas::List::append_assoc))]
/// Appends a reason as a line to a text: its row or column, and of each premise the place, from 1, and the letters left
/// there, as `by r 1 given 1=a`. Where memory is refused, a part may have been appended.
pub fn push_reason(text: &mut Vec<u8>, reason: &Reason) -> Result<(), AllocError>
    ensures { OnOk result (text.new.items
        ≡ text.old.items ++ reason_text reason.now.line reason.now.premises) }
{
    text.extend_from_slice(b"by ")?;
    push_name(text, reason.line)?;
    push_premises(text, reason.premises.as_slice())?;
    text.extend_from_slice(b"\n")
}

/// Appends premises to a text, where there are some, as ` given 1=a 3=.b`: of each the place, from 1, and the letters left there.
/// Where memory is refused, a part may have been appended.
pub(crate) fn push_premises(text: &mut Vec<u8>, premises: &[Premise]) -> Result<(), AllocError>
    ensures { OnOk result (text.new.items ≡ text.old.items ++ premises_text premises.now) }
{
    if premises.is_empty() {
        return Ok(());
    }
    text.extend_from_slice(b" given")?;
    for premise in premises {
        push_premise(text, *premise)?;
    }
    Ok(())
}

// A premise's place, from 1, and the letters of the colours that it leaves there.
fn push_premise(text: &mut Vec<u8>, premise: Premise) -> Result<(), AllocError>
    ensures { OnOk result (text.new.items ≡ text.old.items ++ premise_text premise) }
{
    text.push(b' ')?;
    push_number(text, usize::from(premise.at) + 1)?;
    text.push(b'=')?;
    push_left(text, premise.colours)
}

#[tactic(auto, using(crate::proofs::ShownLemmas::all_letters))]
// The letters of the colours that are not excluded.
fn push_left(text: &mut Vec<u8>, excluded: u16) -> Result<(), AllocError>
    ensures { OnOk result (text.new.items ≡ text.old.items ++ letters_left excluded) }
{
    for colour in 0..MAX_COLOURS {
        if !has_colour(excluded, colour) {
            text.push(letter_of(colour))?;
        }
    }
    Ok(())
}
