//! Numbers as text, and lines of words and numbers.

ghost use Rattle.std.specs.Prelude.{◌≡◌, ◌++◌, decimal, length, OnOk};
ghost use Rattle.report_text.specs.Numbers.{line_text, numbers_text};
ghost use Rattle.report_text.specs.Room.{TakesRoom};

use itoa::Buffer;
use std::alloc::AllocError;

#[tactic(auto, using(std::proofs::lemmas::Fmt::decimal_digit))]
/// Appends a number to a text, in decimal without leading zeros. Where memory is refused, a part may have been
/// appended.
// Most numbers have one digit, so the longer ones are left to a function that is not inlined.
pub fn push_number(text: &mut Vec<u8>, number: usize) -> Result<(), AllocError>
    ensures items { OnOk result (text.new.items ≡ text.old.items ++ decimal number) }
    ensures room { TakesRoom text.old text.new (length (decimal number)) result }
{
    if number < 10 {
        return Ok(text.push(b'0' + number as u8)?);
    }
    push_digits(text, number)
}

#[inline(never)]
// A number of any length.
fn push_digits(text: &mut Vec<u8>, number: usize) -> Result<(), AllocError>
    ensures items { OnOk result (text.new.items ≡ text.old.items ++ decimal number) }
    ensures room { TakesRoom text.old text.new (length (decimal number)) result }
{
    text.extend_from_slice(Buffer::new().format(number).as_bytes())
}

#[tactic(auto, using(std::proofs::lemmas::List::append_assoc))]
/// Appends numbers to a text, each with a space before it. Where memory is refused, a part may have been appended.
pub(crate) fn push_numbers(text: &mut Vec<u8>, numbers: &[u64]) -> Result<(), AllocError>
    ensures { OnOk result (text.new.items ≡ text.old.items ++ numbers_text numbers.now) }
{
    for number in numbers {
        text.push(b' ')?;
        push_number(text, *number as usize)?;
    }
    Ok(())
}

#[tactic(auto, using(std::proofs::lemmas::List::append_assoc), unfolding(crate::specs::Numbers::line_text))]
/// Appends words to a text, then numbers, each with a space before it, and the end of the line.
pub(crate) fn push_line(text: &mut Vec<u8>, words: &[u8], numbers: &[u64]) -> Result<(), AllocError>
    ensures { OnOk result (text.new.items ≡ text.old.items ++ line_text words.now numbers.now) }
{
    text.extend_from_slice(words)?;
    push_numbers(text, numbers)?;
    Ok(text.push(b'\n')?)
}
