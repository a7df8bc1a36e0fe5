//! What a session shows, as text: clues, pictures, maps, reasons, the report, paths, grades and assessments.
#![tactic(auto)]

mod assessment;
mod clue_text;
mod flawed;
mod grading;
mod numbers;
mod palette;
mod pathing;
mod rating;
mod reason_text;
mod report;
mod shown;

pub use assessment::push_assessment;
pub use clue_text::clues_text;
pub use numbers::push_number;
pub use palette::palette_text;
pub use pathing::push_path;
pub use reason_text::push_reason;
pub use report::{ENDING_ROOM, push_ending, push_front};
pub use shown::{push_map, push_picture};
