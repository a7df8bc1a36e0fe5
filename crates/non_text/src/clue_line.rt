//! A clue as a line of numbers.

ghost use Rattle.std.specs.Prelude.{◌≡◌, ◌<◌, ◌==◌, map, min, option_map, IfOk, nat_le};
ghost use Rattle.std.specs.List.{slice_split};
ghost use Rattle.picture.specs.Numbers.{number_spelled};
ghost use Rattle.picture.specs.Readers.{Gives};
ghost use Rattle.non_text.specs.ClueLine.{numbers_in, cells_needed, black, clue_from, clue_in};
ghost use Rattle.non_text.specs.Capped.{all_capped};

use crate::fault::{NonFault, Read};
use crate::lines::{is_blank_line, trim};
use clues::{Block, Clue};
use picture::{number_in, split_first};
use smallvec::SmallVec;
use std::alloc::{AllocError, Global};

#[tactic(auto, using(crate::proofs::NumberLemmas::numbers))]
// The value of a text of digits, capped at 255, which no size or length reaches; `None` for another text.
pub(crate) fn number(bytes: &[u8]) -> Option<u8>
    ensures { result ≡ option_map (min 255) (number_spelled bytes.now) }
{
    Some(number_in(bytes)?.min(255) as u8)
}

#[tactic(auto, using(crate::proofs::ClueLineLemmas::places))]
// The numbers between the commas of a line.
fn numbers(alloc: Global, line: &[u8]) -> Read<SmallVec<u8, 8>>
    ensures { Gives NonFault.Memory (λ v. v.items) result
        (all_capped (numbers_in (slice_split (λ b. b == 44) line.now))) }
{
    let mut numbers = SmallVec::new(alloc);
    let mut rest = Some(line);
    while let Some(places) = rest {
        let (place, behind) = split_first(places, b',');
        let number = number(trim(place)).ok_or(NonFault::BadClue)?;
        numbers.push(number).map_err(|_| NonFault::Memory)?;
        rest = behind;
    }
    Ok(numbers)
}

#[tactic(auto, using(crate::proofs::ClueLineLemmas::room))]
// Whether blocks of these lengths fit in `cells` cells, with a cell between each and the next.
fn have_room(lens: &[u8], cells: u8) -> bool
    ensures { result ≡ nat_le (cells_needed lens.now) cells }
{
    let mut room = u16::from(cells) + 1;
    for len in lens {
        let taken = u16::from(*len) + 1;
        if room < taken {
            return false;
        }
        room -= taken;
    }
    true
}

// Blocks of these lengths in the only colour.
fn blocks(alloc: Global, lens: &[u8]) -> Result<Vec<Block>, AllocError>
    ensures { IfOk result (λ v. v.items ≡ map black lens.now) }
{
    lens.iter()
        .map(|&len| Block { len, colour: 1 })
        .collect(alloc)
}

#[tactic(auto, using(crate::proofs::ClueLineLemmas::black_clue), unfolding(crate::specs::ClueLine::clue_from))]
// The clue that the numbers of a line give, for a line of `cells` cells.
fn clue_from(alloc: Global, numbers: &[u8], cells: u8) -> Read<Clue>
    ensures { Gives NonFault.Memory (λ clue. clue) result (clue_from cells numbers.now) }
{
    if matches!(numbers, [0]) {
        return Ok(Clue::from_blocks(alloc, &[])?);
    }
    if numbers.contains(&0) {
        return Err(NonFault::BadClue);
    }
    if !have_room(numbers, cells) {
        return Err(NonFault::ClueTooLong);
    }
    let blocks = blocks(alloc, numbers)?;
    Ok(Clue::from_blocks(alloc, &blocks)?)
}

#[tactic(auto, using(crate::proofs::ClueLineLemmas::clue_lines))]
// The clue that a line of text gives, for a line of `cells` cells.
pub(crate) fn clue_in(alloc: Global, line: &[u8], cells: u8) -> Read<Clue>
    requires { cells < 255 }
    ensures { Gives NonFault.Memory (λ clue. clue) result (clue_in cells line.now) }
{
    if is_blank_line(line) {
        return Ok(Clue::from_blocks(alloc, &[])?);
    }
    let numbers = numbers(alloc, line)?;
    clue_from(alloc, numbers.as_slice(), cells)
}
