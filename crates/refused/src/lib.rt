//! Tests of library calls in which each allocation is refused in turn. The crate has nothing else.
#![tactic(auto)]

#[cfg(test)]
mod tests;
