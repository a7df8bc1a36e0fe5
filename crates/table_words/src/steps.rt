//! Steps of a book.

use crate::lines::push_line;
use crate::masks::push_mask;
use justify::{Premise, Step};
use std::alloc::AllocError;

/// Appends a step to a text: its line, its premises if it has some, and what it draws.
pub fn push_step(text: &mut String, step: &Step) -> Result<(), AllocError> {
    push_line(text, step.line)?;
    if !step.premises.is_empty() {
        text.push_str(" given")?;
        push_premises(text, step.premises.as_slice())?;
    }
    text.push_str(" draws")?;
    push_premises(text, step.drawn.as_slice())
}

/// Appends the steps of a book to a text.
pub fn push_steps(text: &mut String, steps: &[Step]) -> Result<(), AllocError> {
    if steps.is_empty() {
        text.push_str("no step")?;
    }
    for (i, step) in steps.iter().enumerate() {
        if i > 0 {
            text.push_str(" | ")?;
        }
        push_step(text, step)?;
    }
    Ok(())
}

/// Appends what is excluded in cells of a line to a text: `2-b` where it is `b`, and `2=.a` where it is all but `.`
/// and `a`. The second form is for more than eight colours.
pub fn push_premises(text: &mut String, premises: &[Premise]) -> Result<(), AllocError> {
    for premise in premises {
        let place = u16::from(premise.at) + 1;
        write!(text, " {place}")?;
        if premise.colours.count_ones() > 8 {
            text.push('=')?;
            push_mask(text, !premise.colours)?;
        } else {
            text.push('-')?;
            push_mask(text, premise.colours)?;
        }
    }
    Ok(())
}
