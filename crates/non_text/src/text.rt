//! The text of a picture, made in memory.

ghost use Rattle.std.specs.Prelude.{◌≡◌, ◌++◌, [], ◌∷◌, map, decimal, IfOk, OnOk};
ghost use Rattle.std.specs.List.{flat_map};
ghost use Rattle.clues.specs.ClueBook.{clues_along};
ghost use Rattle.non_text.specs.Written.{clue_text, digit_of, goal_text, non_text_of};

use clues::{Block, ClueBook};
use itoa::Buffer;
use picture::{Axis, LineId, Picture};
use std::alloc::{AllocError, Global};

#[tactic(auto, using(crate::proofs::TextLemmas::texts))]
// The .non text of a picture.
pub(crate) fn non_text_of(alloc: Global, picture: &Picture) -> Result<Vec<u8>, AllocError>
    ensures { IfOk result (λ text. text.items ≡ non_text_of picture.now) }
{
    let clues = ClueBook::of(alloc, picture)?;
    let mut text = Vec::new(alloc);
    put_size(&mut text, b"width ", picture.width())?;
    put_size(&mut text, b"height ", picture.height())?;
    text.extend_from_slice(b"rows\n")?;
    put_clues(&mut text, &clues, Axis::Across)?;
    text.extend_from_slice(b"columns\n")?;
    put_clues(&mut text, &clues, Axis::Down)?;
    put_goal(&mut text, picture)?;
    Ok(text)
}

fn put_number(text: &mut Vec<u8>, number: u8) -> Result<(), AllocError>
    ensures { OnOk result (text.new.items ≡ text.old.items ++ decimal number) }
{
    let mut buffer = Buffer::new();
    text.extend_from_slice(buffer.format(number).as_bytes())
}

#[tactic(auto, using(crate::proofs::TextLemmas::texts))]
// A keyword line with a number.
fn put_size(text: &mut Vec<u8>, keyword: &[u8], size: u8) -> Result<(), AllocError>
    ensures { OnOk result (text.new.items
        ≡ text.old.items ++ ((keyword.now ++ decimal size) ++ 10 ∷ [])) }
{
    text.extend_from_slice(keyword)?;
    put_number(text, size)?;
    text.push(b'\n')?;
    Ok(())
}

#[tactic(auto, using(crate::proofs::TextLemmas::clue_texts))]
// The numbers of a clue, or 0 for the empty one.
fn put_blocks(text: &mut Vec<u8>, blocks: &[Block]) -> Result<(), AllocError>
    ensures { OnOk result (text.new.items ≡ text.old.items ++ clue_text blocks.now) }
{
    if blocks.is_empty() {
        return Ok(text.push(b'0')?);
    }
    put_number(text, blocks[0].len)?;
    for block in &blocks[1..] {
        text.push(b',')?;
        put_number(text, block.len)?;
    }
    Ok(())
}

#[tactic(auto, using(crate::proofs::TextLemmas::texts))]
// The clues of the rows, or of the columns.
fn put_clues(text: &mut Vec<u8>, clues: &ClueBook, axis: Axis) -> Result<(), AllocError>
    ensures { OnOk result (text.new.items
        ≡ text.old.items
        ++ flat_map (λ clue. clue_text clue ++ 10 ∷ []) (clues_along axis clues.now)) }
{
    for at in 0..clues.line_count(axis) {
        put_blocks(text, clues.clue(LineId { axis, at }).blocks())?;
        text.push(b'\n')?;
    }
    Ok(())
}

#[tactic(auto, using(crate::proofs::TextLemmas::texts))]
// The goal line.
fn put_goal(text: &mut Vec<u8>, picture: &Picture) -> Result<(), AllocError>
    ensures { OnOk result (text.new.items ≡ text.old.items ++ (goal_text picture.now ++ 10 ∷ [])) }
{
    text.extend_from_slice(b"goal \"")?;
    put_rows(text, picture)?;
    text.extend_from_slice(b"\"\n")?;
    Ok(())
}

#[tactic(auto, using(crate::proofs::TextLemmas::rows))]
// The digits of all cells.
fn put_rows(text: &mut Vec<u8>, picture: &Picture) -> Result<(), AllocError>
    ensures { OnOk result (text.new.items ≡ text.old.items ++ flat_map (map digit_of) picture.now) }
{
    let axis = Axis::Across;
    for at in 0..picture.height() {
        for cell in picture.line(LineId { axis, at }).iter() {
            text.push(if cell == 0 { b'0' } else { b'1' })?;
        }
    }
    Ok(())
}
