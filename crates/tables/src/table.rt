//! Tables of calls and answers.
//!
//! Each line of standard input names a call, with its arguments as words after it, cut at spaces. A blank line, a
//! comment (`#`) and an expected answer (`=`) are skipped. The first word says which module answers, and that prints
//! the answer. For a line that no module can read, or whose arguments a call does not allow, `cannot read:` and the
//! line are printed.

mod agendas;
mod books;
mod clueing;
mod entries;
mod lines;

use anyhow::{Result, bail};
use table_words::call_in;

/// Answers the lines of standard input one after the other.
pub fn tell_table(rt: &(impl AllocGlobal + Input + Print)) -> Result<()> {
    for line in rt.lines(rt.alloc()) {
        tell_line(rt, line?.as_str())?;
    }
    Ok(())
}

// Answers a line, unless it is blank, a comment or an expectation.
fn tell_line(rt: &(impl AllocGlobal + Print), line: &str) -> Result<()> {
    let Some(words) = call_in(rt.alloc(), line)? else {
        return Ok(());
    };
    if answer(rt, &words).is_err() {
        println!(rt; "cannot read: {line}")?;
    }
    Ok(())
}

// Calls the module of the first word.
fn answer(rt: &(impl AllocGlobal + Print), words: &[&str]) -> Result<()> {
    match words.first().copied().unwrap_or("") {
        "refresh" => clueing::tell(rt, words),
        "narrow" | "engine" | "leave-out" | "force" => lines::tell(rt, words),
        "engines" | "random" | "leaving-out" => lines::tell_of_many(rt, words),
        "agenda" => agendas::tell(rt, words),
        "edit" => entries::tell(rt, words),
        "go-on" => books::tell(rt, words),
        _ => bail!("no such call"),
    }
}
