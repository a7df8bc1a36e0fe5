//! The command that words name.

ghost use Rattle.std.specs.Prelude.{◌≡◌, [], ◌∷◌, codes, IfOk};
ghost use Rattle.picture.specs.Readers.{Reads};
ghost use Rattle.edits.specs.declared.edit.Edit.TheVariants as edit;
ghost use Rattle.command_text.specs.declared.command.Command.TheVariants as command;
ghost use Rattle.command_text.specs.declared.fault.CommandFault.TheVariants.{BadNumber};
ghost use Rattle.command_text.specs.Parse.{IsBounded, allowance_of, assess_at, bare_at, both, colour_at, commands, exactly, field_at, fill_at, made, palette_at, read_by, spot_at, swap_at};
ghost use Rattle.command_text.specs.Words.{words_of};

use crate::command::Command;
use crate::fault::CommandFault;
use crate::fields::{
    allowance_in, counted, read_axis, read_cell, read_cell_alone, read_colour, read_line,
    read_place, read_rgb, read_spot, read_word,
};
use edits::Edit;

#[tactic(auto, unfolding(crate::specs::Parse::fill_at))]
fn read_fill(rest: &[u8]) -> Result<Edit, CommandFault>
    ensures { Reads (λ e. e) result (fill_at (words_of rest.now)) }
{
    let rest = counted(rest, 5)?;
    let ((top, left), rest) = read_cell(rest)?;
    let ((bottom, right), rest) = read_cell(rest)?;
    let (colour, _) = read_colour(rest)?;
    Ok(Edit::Fill {
        top,
        left,
        bottom,
        right,
        colour,
    })
}

fn read_recolour(rest: &[u8]) -> Result<Edit, CommandFault>
    ensures { Reads (λ e. e) result (made (λ x. edit.Recolour x.0 x.1)
        (exactly 2 (both colour_at colour_at)) (words_of rest.now)) }
{
    let rest = counted(rest, 2)?;
    let (source, rest) = read_colour(rest)?;
    let (target, _) = read_colour(rest)?;
    Ok(Edit::Recolour { source, target })
}

#[tactic(auto, unfolding(crate::specs::Parse::swap_at))]
fn read_swap(rest: &[u8]) -> Result<Edit, CommandFault>
    ensures { Reads (λ e. e) result (swap_at (words_of rest.now)) }
{
    let (axis, rest) = read_axis(rest)?;
    let rest = counted(rest, 2)?;
    let (first, rest) = read_place(rest)?;
    let (second, _) = read_place(rest)?;
    Ok(Edit::SwapLines {
        axis,
        first,
        second,
    })
}

// A colour added to the palette, or a new triple for one of its colours.
fn read_palette(rest: &[u8]) -> Result<Edit, CommandFault>
    ensures { Reads (λ e. e) result (palette_at (words_of rest.now)) }
{
    let (word, rest) = read_word(rest)?;
    match word {
        b"add" => read_rgb(counted(rest, 3)?).map(|(rgb, _)| Edit::AddColour { rgb }),
        b"set" => {
            let (colour, rest) = read_colour(counted(rest, 4)?)?;
            read_rgb(rest).map(|(rgb, _)| Edit::SetColour { colour, rgb })
        }
        _ => Err(CommandFault::UnknownWord),
    }
}

// A command with no word after it.
fn bare(command: Command, rest: &[u8]) -> Result<Command, CommandFault>
    requires { IsBounded command }
    ensures value { Reads (λ c. c) result (bare_at command (words_of rest.now)) }
    ensures bounded { IfOk result IsBounded }
{
    counted(rest, 0)?;
    Ok(command)
}

// The picture as a text, in the format that a word names.
fn read_write(rest: &[u8]) -> Result<Command, CommandFault>
    ensures value { Reads (λ c. c) result (read_by ((codes "ppm", bare_at command.WritePpm)
        ∷ (codes "non", bare_at command.WriteNon) ∷ []) (words_of rest.now)) }
    ensures bounded { IfOk result IsBounded }
{
    let (word, rest) = read_word(rest)?;
    match word {
        b"ppm" => bare(Command::WritePpm, rest),
        b"non" => bare(Command::WriteNon, rest),
        _ => Err(CommandFault::UnknownWord),
    }
}

fn read_allow(rest: &[u8]) -> Result<Command, CommandFault>
    ensures value { Reads (λ c. c) result (made command.Allow
        (exactly 1 (field_at allowance_of BadNumber)) (words_of rest.now)) }
    ensures bounded { IfOk result IsBounded }
{
    let (word, _) = read_word(counted(rest, 1)?)?;
    let splits = allowance_in(word).ok_or(CommandFault::BadNumber)?;
    Ok(Command::Allow(splits))
}

#[tactic(auto, unfolding(crate::specs::Parse::assess_at))]
// Whether the puzzle is fit to be published. The word `off` takes away the bound on splits.
fn read_assess(rest: &[u8]) -> Result<Command, CommandFault>
    ensures value { Reads (λ c. c) result (assess_at (words_of rest.now)) }
    ensures bounded { IfOk result IsBounded }
{
    match read_word(rest) {
        Err(_) => Ok(Command::Assess { is_off: false }),
        Ok((b"off", rest)) => bare(Command::Assess { is_off: true }, rest),
        Ok(_) => Err(CommandFault::UnknownWord),
    }
}

// Why a cell does not have a colour.
fn read_why(rest: &[u8]) -> Result<Command, CommandFault>
    ensures value { Reads (λ c. c) result (made (λ spot. command.Why spot.0.0 spot.0.1 spot.1)
        spot_at (words_of rest.now)) }
    ensures bounded { IfOk result IsBounded }
{
    read_spot(rest).map(|((row, col), colour)| Command::Why { row, col, colour })
}

/// The command that a first word begins, by what follows it.
pub(crate) fn read_command(word: &[u8], rest: &[u8]) -> Result<Command, CommandFault>
    ensures value { Reads (λ c. c) result (read_by commands (word.now ∷ words_of rest.now)) }
    ensures bounded { IfOk result IsBounded }
{
    match word {
        b"paint" => read_spot(rest).map(|((row, col), colour)| Command::Edit(Edit::Paint {
            row,
            col,
            colour,
        })),
        b"fill" => read_fill(rest).map(Command::Edit),
        b"recolour" => read_recolour(rest).map(Command::Edit),
        b"insert" => read_line(rest).map(|line| Command::Edit(Edit::InsertLine { line })),
        b"delete" => read_line(rest).map(|line| Command::Edit(Edit::DeleteLine { line })),
        b"swap" => read_swap(rest).map(Command::Edit),
        b"colour" => read_palette(rest).map(Command::Edit),
        b"pin" => { read_cell_alone(rest).map(|(row, col)| Command::Edit(Edit::Pin { row, col })) }
        b"unpin" => {
            read_cell_alone(rest).map(|(row, col)| Command::Edit(Edit::Unpin { row, col }))
        }
        b"undo" => bare(Command::Undo, rest),
        b"redo" => bare(Command::Redo, rest),
        b"clues" => bare(Command::Clues, rest),
        b"map" => bare(Command::Map, rest),
        b"verdict" => bare(Command::Verdict, rest),
        b"why" => read_why(rest),
        b"certify" => bare(Command::Certify, rest),
        b"write" => read_write(rest),
        b"report" => bare(Command::Report, rest),
        b"path" => bare(Command::Path, rest),
        b"assess" => read_assess(rest),
        b"allow" => read_allow(rest),
        _ => Err(CommandFault::UnknownWord),
    }
}
