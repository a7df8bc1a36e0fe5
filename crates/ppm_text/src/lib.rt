//! Pictures as plain PPM texts (P3): the reader and the writer.
#![tactic(auto)]

mod fault;
mod fields;
mod known;
mod laws;
mod reader;
mod scanner;
mod writer;

pub use fault::PpmFault;
pub use laws::{round_trip, round_trip_of};
pub use reader::read_ppm;
pub use writer::write_ppm;
