//! A program for tests and for measuring: it answers tables of searches. Each line of standard input names a public call with its
//! arguments in the small language of `table_words`, and what it answers is printed. A line that cannot be read is answered with
//! `cannot read:` and the line.
#![tactic(auto)]

mod assessing;
mod bounded;
mod puzzles;
mod search;
mod searches;
mod settle;

use anyhow::Result;
use table_words::call_in;

fn main(rt: HostRuntime) -> Result<()> {
    for line in rt.lines(rt.alloc()) {
        tell_line(&rt, line?.as_str())?;
    }
    Ok(())
}

// Answers a line, unless it is blank, a comment or an expectation.
fn tell_line(rt: &(impl AllocGlobal + Print), line: &str) -> Result<()> {
    let Some(words) = call_in(rt.alloc(), line)? else {
        return Ok(());
    };
    if searches::tell(rt, &words).is_err() {
        println!(rt; "cannot read: {line}")?;
    }
    Ok(())
}
