//! A program for tests and for measuring. Without arguments it answers a table: each line of standard input names a public
//! call with its arguments in the small language of `table`, and the call's answer is printed. With `line` and five more
//! arguments it evaluates one line many times (`line`), so that this work can be measured from outside.
#![tactic(auto)]

mod line;
mod sweeping;
mod table;

use anyhow::{Result, bail};
use std::env;

fn main(rt: HostRuntime) -> Result<()> {
    let words: Vec<String> = env::args(&rt)?.skip(1).collect(rt.alloc())?;
    let words: Vec<&str> = words.iter().map(|word| word.as_str()).collect(rt.alloc())?;
    match words.split_first() {
        None => table::tell_table(&rt),
        Some((&"line", words)) => line::tell(&rt, words),
        Some(_) => bail!("one line is measured: line ENGINE CELLS BLOCKS SETTLED ROUNDS"),
    }
}
