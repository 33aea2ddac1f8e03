//! The command tool: reads commands from standard input, one a line, and prints what came of each.
#![tactic(auto)]

mod blocks;
mod card;
mod complaint;
mod kind;
mod lookups;
mod making;
mod tool;
mod words;

use complaint::{Failure, explain};
use std::io;
use std::io::{BufRead, BufReader};
use tool::Tool;
use words::split_words;

/// Carries a line out, or says what is wrong with it.
fn serve(rt: &HostRuntime, tool: &mut Tool, line: &[u8]) -> io::Result<()> {
    let words = split_words(rt.alloc(), line)?;
    match tool.run(rt, words.as_slice()) {
        Ok(()) => Ok(()),
        Err(Failure::Line(complaint)) => explain(rt, complaint, words.as_slice()),
        Err(Failure::Tool(error)) => Err(error),
    }
}

/// Serves all lines of standard input, one after another.
fn serve_all(rt: &HostRuntime) -> anyhow::Result<()> {
    let mut tool = Tool::new();
    for line in BufReader::new(rt.alloc(), rt.stdin())?.split(rt.alloc(), b'\n') {
        let line = line?;
        if !line.starts_with(b"#") {
            serve(rt, &mut tool, line.as_slice())?;
        }
    }
    Ok(())
}

fn main(rt: HostRuntime) -> anyhow::Result<()> {
    serve_all(&rt)
}
