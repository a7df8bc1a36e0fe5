//! The version of all that is built from these crates.

/// The version, as `nonobench --version` prints it after the name.
pub const VERSION: &str = "0.8.0";
