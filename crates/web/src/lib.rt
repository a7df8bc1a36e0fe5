//! The workbench as a library for hosts in other languages: benches under handles, bytes in, bytes out.
#![tactic(auto)]

mod asked;
mod calls;
mod cell;
mod desk;
mod held;
mod inside;
pub mod laws;
mod parts;
mod status;
