//! Pictures, palettes, givens and views of lines: the values that other crates use.
#![tactic(auto)]

mod blanks;
mod cell_set;
mod cutting;
mod document;
pub mod laws;
mod line_edits;
mod line_id;
mod line_set;
mod line_view;
mod numbers;
mod ordered;
mod palette;
mod picture;
mod rgb;
mod writing;

pub use blanks::{blank_place, is_blank, word_place};
pub use cell_set::CellSet;
pub use cutting::split_first;
pub use document::Document;
pub use line_id::{Axis, LineId};
pub use line_set::LineSet;
pub use line_view::{LineIter, LineView};
pub use numbers::{number_in, short_number_in};
pub use palette::{Palette, PaletteFault};
pub use picture::{MAX_COLOURS, MAX_SIDE, Picture};
pub use rgb::Rgb;
pub use writing::{WriteFault, send, send_number};
