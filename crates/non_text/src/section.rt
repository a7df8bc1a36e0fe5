//! The clues of a section.

ghost use Rattle.std.specs.Prelude.{◌&&◌, ◌<◌, take};
ghost use Rattle.picture.specs.Readers.{Gives};
ghost use Rattle.non_text.specs.Lines.{lines_of, is_blank_line};
ghost use Rattle.non_text.specs.Cut.{IsFirstOf};
ghost use Rattle.non_text.specs.ClueLine.{clues_in};
ghost use Rattle.non_text.specs.Section.{clues_behind, kept_in};

use crate::clue_line::clue_in;
use crate::counting::leaves_blanks;
use crate::fault::{NonFault, Read};
use crate::lines::{find, is_blank_line, next_in_section};
use clues::Clue;
use std::alloc::Global;

#[tactic(auto, using(crate::proofs::SectionLemmas::keeping))]
// The first line of a section that gives a clue, and the text after it.
fn next_kept(text: &[u8], leaves_blanks: bool) -> Option<(&[u8], &[u8])>
    ensures { IsFirstOf (kept_in leaves_blanks) text.now result }
{
    let mut rest = text;
    while let Some((line, behind)) = next_in_section(rest) {
        if !(leaves_blanks && is_blank_line(line)) {
            return Some((line, behind));
        }
        rest = behind;
    }
    None
}

#[tactic(auto, using(crate::proofs::SectionLemmas::reading))]
// The clues of the first n lines of a section.
fn clues(alloc: Global, text: &[u8], leaves_blanks: bool, n: u8, cells: u8) -> Read<Vec<Clue>>
    requires { cells < 255 }
    ensures { Gives NonFault.Memory (λ v. v.items) result
        (clues_in cells (take n (kept_in leaves_blanks text.now))) }
{
    let mut clues = Vec::new(alloc);
    let mut rest = text;
    for _ in 0..n {
        let Some((line, behind)) = next_kept(rest, leaves_blanks) else {
            return Ok(clues);
        };
        let clue = clue_in(alloc, line, cells)?;
        clues.push(clue).map_err(|_| NonFault::Memory)?;
        rest = behind;
    }
    Ok(clues)
}

#[tactic(auto, unfolding(crate::specs::Section::clues_behind))]
// The n clues in the section after a keyword line, for lines of `cells` cells.
pub fn clues_behind(alloc: Global, text: &[u8], word: &[u8], n: u8, cells: u8) -> Read<Vec<Clue>>
    requires { cells < 255 }
    ensures { Gives NonFault.Memory (λ v. v.items) result
        (clues_behind word.now n cells (lines_of text.now)) }
{
    let (_, behind) = find(text, word).ok_or(NonFault::BadCount)?;
    let leaves_blanks = leaves_blanks(behind, n)?;
    clues(alloc, behind, leaves_blanks, n, cells)
}
