//! Certificates of all forms as values, and their text: reading and writing.
#![tactic(auto)]

mod cert;
mod cert_line;
mod fault;
mod form;
pub mod laws;
mod letters;
mod named;
mod reading;
mod runs;
mod steps;
mod words;
mod writing;

pub use cert::{Cert, runs_of};
pub use cert_line::{CellNumber, CertLine, LineNumber, Literal, MAX_LEMMA_LITERALS, MAX_LITERALS};
pub use fault::CertFault;
pub use form::Form;
pub use named::{cell_named, given_in, line_named};
pub use reading::{read_cert, read_givens};
pub use runs::MAX_RUN;
pub use words::{cut_word, first_line, is_word};
pub use writing::{send_givens, send_named, write_cert};
