//! Clues as text, a line for each row and column.

ghost use Rattle.std.specs.Prelude.{◌≡◌, ◌+◌, ◌++◌, IfOk, OnOk};
ghost use Rattle.std.specs.List.{flat_map};
ghost use Rattle.clues.specs.Clue.{IsBlock, IsClue};
ghost use Rattle.clues.specs.ClueBook.{clues_along};
ghost use Rattle.report_text.specs.ClueText.{behind, block_text, blocks_text, letter_of, numbered_clue, numbered_clues, clues_text, name_text};

use crate::numbers::push_number;
use clues::{Block, ClueBook};
use picture::{Axis, LineId};
use std::alloc::{AllocError, Global};

/// The clues of the rows and then of the columns, each on a line, as the command `clues` shows them.
pub fn clues_text(alloc: Global, book: &ClueBook) -> Result<Vec<u8>, AllocError>
    ensures { IfOk result (λ text. text.items ≡ clues_text book.now) }
{
    let mut text = Vec::new(alloc);
    push_clues(&mut text, book)?;
    Ok(text)
}

// Appends the clues of the rows and then of the columns to a text, each on a line.
pub(crate) fn push_clues(text: &mut Vec<u8>, book: &ClueBook) -> Result<(), AllocError>
    ensures { OnOk result (text.new.items ≡ text.old.items ++ clues_text book.now) }
{
    push_lines(text, book, Axis::Across)?;
    push_lines(text, book, Axis::Down)
}

// A line for each row, or for each column.
fn push_lines(text: &mut Vec<u8>, book: &ClueBook, axis: Axis) -> Result<(), AllocError>
    ensures { OnOk result (text.new.items
        ≡ text.old.items ++ numbered_clues (letter_of axis) 1 (clues_along axis book.now)) }
{
    for at in 0..book.line_count(axis) {
        let line = LineId { axis, at };
        push_line(text, line, book.clue(line).blocks())?;
    }
    Ok(())
}

// A line's letter, `r` for a row and `c` for a column, and its number from 1.
pub(crate) fn push_name(text: &mut Vec<u8>, line: LineId) -> Result<(), AllocError>
    ensures { OnOk result (text.new.items ≡ text.old.items ++ name_text line) }
{
    text.push(letter_of(line.axis))?;
    text.push(b' ')?;
    push_number(text, usize::from(line.at) + 1)
}

// `r` for a row and `c` for a column.
pub(crate) fn letter_of(axis: Axis) -> u8
    ensures { result ≡ letter_of axis }
{
    match axis {
        Axis::Across => b'r',
        Axis::Down => b'c',
    }
}

#[tactic(auto, using(std::proofs::lemmas::List::append_assoc))]
// A line's name and its clue.
fn push_line(text: &mut Vec<u8>, line: LineId, blocks: &[Block]) -> Result<(), AllocError>
    requires { IsClue blocks.now }
    ensures { OnOk result (text.new.items
        ≡ text.old.items ++ numbered_clue (letter_of line.axis) (line.at + 1) blocks.now) }
{
    push_name(text, line)?;
    text.extend_from_slice(b": ")?;
    push_clue(text, blocks)?;
    text.extend_from_slice(b"\n")
}

// The blocks of a clue with spaces between them, or `0`.
fn push_clue(text: &mut Vec<u8>, blocks: &[Block]) -> Result<(), AllocError>
    requires { IsClue blocks.now }
    ensures { OnOk result (text.new.items ≡ text.old.items ++ blocks_text blocks.now) }
{
    match blocks {
        [] => text.push(b'0')?,
        [first, others @ ..] => {
            push_block(text, *first)?;
            push_others(text, others)?;
        }
    }
    Ok(())
}

// Each block after a space.
fn push_others(text: &mut Vec<u8>, blocks: &[Block]) -> Result<(), AllocError>
    requires { IsClue blocks.now }
    ensures { OnOk result (text.new.items ≡ text.old.items ++ flat_map behind blocks.now) }
{
    for block in blocks {
        text.push(b' ')?;
        push_block(text, *block)?;
    }
    Ok(())
}

// A block's length and the letter of its colour.
fn push_block(text: &mut Vec<u8>, block: Block) -> Result<(), AllocError>
    requires { IsBlock block }
    ensures { OnOk result (text.new.items ≡ text.old.items ++ block_text block) }
{
    push_number(text, usize::from(block.len))?;
    Ok(text.push(b'a' - 1 + block.colour)?)
}
