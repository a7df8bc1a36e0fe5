//! The small language of the test tables, for what is read and for what is printed.
//!
//! A colour is a letter: `.` is the background, and `a` to `o` are the colours 1 to 15. A picture is its rows, joined
//! by `/`; a capital stands for a given of its colour, and `,` for a given of background. The colours are always the
//! same triples, white, black and red first, as many as the highest letter asks for, or the one after a `+`, as in
//! `a.+b`. A mask is the letters of the colours left, `*` all sixteen, `-` none; masks of a line are joined by `,`, and
//! `3x.a` stands for three of `.a`. A clue is its blocks, joined by `,`, as `2a,1b`, with `0` for none and `3x1a` for
//! three of `1a`. A line is `r1` or `c2`, counted from 1. What is excluded in a cell of a line is `2-b` where it is `b`
//! in the second cell, and `2=.a` where it is all but `.` and `a`. An edit is written as in a session.
#![tactic(auto)]

mod blocks;
mod calls;
mod colours;
mod lines;
mod masks;
mod pictures;
mod starting;
mod steps;
mod strokes;
mod touched;

pub use blocks::{clue_in, push_clues};
pub use calls::call_in;
pub use colours::{ALL, letter_of};
pub use lines::{line_in, push_line};
pub use masks::{facts_in, masks_in, push_facts, push_masks};
pub use pictures::{document_in, push_picture, push_rows};
pub use starting::MOST;
pub use steps::push_steps;
pub use strokes::edit_in;
pub use touched::push_touched;
