//! The checker as a library for hosts in other languages, without any search: bytes in, a status and a text out.
#![tactic(auto)]

mod asked;
mod calls;
mod flawed;
mod said;
mod status;
