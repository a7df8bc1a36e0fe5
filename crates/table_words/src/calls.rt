//! The lines of a table.

use std::alloc::{AllocError, Global};

/// The words of a line that is a call, split at spaces. None for a blank line, a comment (`#`) or an answer (`=`).
pub fn call_in<'a>(alloc: Global, line: &'a str) -> Result<Option<Vec<&'a str>>, AllocError> {
    let words: Vec<&str> = line
        .split(' ')
        .filter(|word| !word.is_empty())
        .collect(alloc)?;
    let is_call = match words.first() {
        Some(first) => !first.starts_with('#') && !first.starts_with('='),
        None => false,
    };
    Ok(if is_call { Some(words) } else { None })
}
