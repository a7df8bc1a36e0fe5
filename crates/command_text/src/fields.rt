//! The values of a command, word by word from the left.

ghost use Rattle.std.specs.Prelude.{◌≡◌, ◌<◌, IfOk, IfSome};
ghost use Rattle.picture.specs.Readers.{Reads};
ghost use Rattle.command_text.specs.Parse.{allowance_of, axis_at, cell_alone_at, colour_at, counted, field_seen, line_at, place_at, rgb_at, row_and_column_at, sample_at, spot_at, word_at, word_seen};
ghost use Rattle.command_text.specs.Words.{words_of};

use crate::fault::CommandFault;
use crate::numbers::{colour_in, number_in, place_in, sample_in};
use crate::words::next_word;
use picture::{Axis, LineId, Rgb};

#[tactic(auto, using(crate::proofs::CountLemmas::counts))]
// The same text, where it has exactly `count` words.
pub(crate) fn counted(rest: &[u8], count: usize) -> Result<&[u8], CommandFault>
    ensures { Reads (λ rest. words_of rest.now) result (counted count (words_of rest.now)) }
{
    let mut left = rest;
    for _i in 0..count {
        left = read_word(left)?.1;
    }
    if next_word(left).is_some() {
        return Err(CommandFault::WordCount);
    }
    Ok(rest)
}

// The next word, and what follows it.
pub(crate) fn read_word(rest: &[u8]) -> Result<(&[u8], &[u8]), CommandFault>
    ensures { Reads word_seen result (word_at (words_of rest.now)) }
{
    next_word(rest).ok_or(CommandFault::WordCount)
}

// A place, and what follows it.
pub(crate) fn read_place(rest: &[u8]) -> Result<(u8, &[u8]), CommandFault>
    ensures { Reads field_seen result (place_at (words_of rest.now)) }
{
    let (word, behind) = read_word(rest)?;
    let place = place_in(word).ok_or(CommandFault::BadNumber)?;
    Ok((place, behind))
}

// A sample, and what follows it.
fn read_sample(rest: &[u8]) -> Result<(u16, &[u8]), CommandFault>
    ensures { Reads field_seen result (sample_at (words_of rest.now)) }
{
    let (word, behind) = read_word(rest)?;
    let sample = sample_in(word).ok_or(CommandFault::BadNumber)?;
    Ok((sample, behind))
}

// A colour, and what follows it.
pub(crate) fn read_colour(rest: &[u8]) -> Result<(u8, &[u8]), CommandFault>
    ensures value { Reads field_seen result (colour_at (words_of rest.now)) }
    ensures small { IfOk result (λ x. x.0 < 16) }
{
    let (word, behind) = read_word(rest)?;
    let colour = colour_in(word).ok_or(CommandFault::BadColour)?;
    Ok((colour, behind))
}

// The axis of rows or that of columns, and what follows it.
pub(crate) fn read_axis(rest: &[u8]) -> Result<(Axis, &[u8]), CommandFault>
    ensures { Reads field_seen result (axis_at (words_of rest.now)) }
{
    let (word, behind) = read_word(rest)?;
    match word {
        b"row" => Ok((Axis::Across, behind)),
        b"column" => Ok((Axis::Down, behind)),
        _ => Err(CommandFault::UnknownWord),
    }
}

// Three samples, and what follows them.
#[tactic(auto, unfolding(crate::specs::Parse::rgb_at))]
pub(crate) fn read_rgb(rest: &[u8]) -> Result<(Rgb, &[u8]), CommandFault>
    ensures { Reads field_seen result (rgb_at (words_of rest.now)) }
{
    let (r, rest) = read_sample(rest)?;
    let (g, rest) = read_sample(rest)?;
    let (b, rest) = read_sample(rest)?;
    Ok((Rgb { r, g, b }, rest))
}

// A row and a column, and what follows them.
#[tactic(auto, unfolding(crate::specs::Parse::row_and_column_at))]
pub(crate) fn read_cell(rest: &[u8]) -> Result<((u8, u8), &[u8]), CommandFault>
    ensures { Reads field_seen result (row_and_column_at (words_of rest.now)) }
{
    let (row, rest) = read_place(rest)?;
    let (col, rest) = read_place(rest)?;
    Ok(((row, col), rest))
}

// A row and a column with nothing after them.
#[tactic(auto, unfolding(crate::specs::Parse::cell_alone_at))]
pub(crate) fn read_cell_alone(rest: &[u8]) -> Result<(u8, u8), CommandFault>
    ensures { Reads (λ cell. cell) result (cell_alone_at (words_of rest.now)) }
{
    let (cell, _) = read_cell(counted(rest, 2)?)?;
    Ok(cell)
}

// A cell and a colour with nothing after them.
#[tactic(auto, unfolding(crate::specs::Parse::spot_at))]
pub(crate) fn read_spot(rest: &[u8]) -> Result<((u8, u8), u8), CommandFault>
    ensures value { Reads (λ spot. spot) result (spot_at (words_of rest.now)) }
    ensures small { IfOk result (λ spot. spot.1 < 16) }
{
    let (cell, rest) = read_cell(counted(rest, 3)?)?;
    let (colour, _) = read_colour(rest)?;
    Ok((cell, colour))
}

// A line of an axis with nothing after it.
#[tactic(auto, unfolding(crate::specs::Parse::line_at))]
pub(crate) fn read_line(rest: &[u8]) -> Result<LineId, CommandFault>
    ensures { Reads (λ line. line) result (line_at (words_of rest.now)) }
{
    let (axis, rest) = read_axis(rest)?;
    let (at, _) = read_place(counted(rest, 1)?)?;
    Ok(LineId { axis, at })
}

/// An allowance: how many splits the search of each part may make, 0 to 99999, or `off` for no bound. None for any other word.
pub fn allowance_in(word: &[u8]) -> Option<Option<u32>>
    ensures value { result ≡ allowance_of word.now }
    ensures small { IfSome result (λ allowance. IfSome allowance (λ splits. splits < 100000)) }
{
    match word {
        b"off" => Some(None),
        _ => number_in(word).map(Some),
    }
}
